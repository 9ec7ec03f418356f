//! Why a call of a tree was refused.

ghost use Rattle.std.specs.Prelude.{◌≡◌};
ghost use Rattle.btree_nodes.specs.declared.fault.TreeFault.TheVariants as fault_of;

use fine_model::{FetchFault, NoMemory, NodeId};

/// Why a call of a tree was refused. Of these `NoMemory` alone may leave changed nodes and pushed rows.
#[derive(Debug, Drop)]
pub enum TreeFault {
    /// A node was not loaded, for this fault of the source.
    Source { fault: FetchFault },
    /// This node breaks the rules of a tree, as the first on the way.
    Unfit { node: NodeId },
    /// The nodes that the call needs would pass the bucket's limit, or the tree's depth its own. `next` and `depth` are the head's.
    BucketFull { next: u32, depth: u8 },
    /// A version of this node would pass its limit.
    Number { node: NodeId },
    NoMemory,
}

impl From<NoMemory> for TreeFault {
    ghost from_gives = { λ _ fault. fault ≡ fault_of.NoMemory };

    fn from(_refused: NoMemory) -> TreeFault {
        TreeFault::NoMemory
    }
}
