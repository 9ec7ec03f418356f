//! What stands before the body of a row.

use fine_model::NodeId;

/// The kind of a row, its node, its version, and the length of its body. Each field lies in one word, so that it is moved in registers.
#[derive(Clone, Copy, Debug)]
pub struct Front {
    pub node: NodeId,
    pub version: u64,
    pub len: u32,
    pub kind: u8,
}
