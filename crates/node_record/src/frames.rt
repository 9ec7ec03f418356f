//! Frames of rows: where each ends and what it is of, found without its content.

ghost use Rattle.std.specs.Prelude.{◌≡◌, ◌≤◌, IfOk, IfErr, length};
ghost use Rattle.node_record.specs.declared.fault.RowFault.TheVariants as fault;
ghost use Rattle.node_record.specs.Rows.{IsFrameAt, IsNoRowAt};

use crate::fault::RowFault;
use crate::fields::sure;
use crate::rows::{body_end, is_whole, read_front};
use fine_model::{Mark, NodeId};

/// What a row is of, and where it ends.
#[derive(Clone, Copy, Debug, PartialEq, Eq)]
pub struct Frame {
    pub node: NodeId,
    pub version: u64,
    pub is_image: bool,
    /// The place behind the row.
    pub end: usize,
}

/// The greatest of the kinds that are images.
const LAST_IMAGE: u8 = 3;

/// The frame of the row that starts at a place, by the grammar of a format. It accepts what `read_row` accepts, and takes no memory.
///
/// The one fault is `Bad`, exactly where nothing that starts there is a row of the format, whatever the bytes are.
#[inline(always)]
pub fn frame_at(bytes: &[u8], at: usize, mark: Mark) -> Result<Frame, RowFault>
    requires { at ≤ length bytes.now }
    ensures found { IfOk result (IsFrameAt mark bytes.now at) }
    ensures fault { IfErr result (λ e. e ≡ fault.Bad at) }
    ensures bad { IfErr result (λ _. IsNoRowAt mark bytes.now at) }
{
    let (front, body) = read_front(bytes, at, mark)?;
    let end = body_end(front.kind, bytes, at, body)?;
    sure(is_whole(front, body, end), at)?;
    Ok(Frame {
        node: front.node,
        version: front.version,
        is_image: front.kind <= LAST_IMAGE,
        end,
    })
}
