//! The order of nodes from one list of rows to the next.

ghost use Rattle.std.specs.Prelude.{◌≡◌};
ghost use Rattle.partition_merge.specs.Pieces.{is_above};

use fine_model::NodeId;

/// Whether a node is above the one before it, if there is one.
pub(crate) fn is_above(last: Option<NodeId>, node: NodeId) -> bool
    ensures { result ≡ is_above last node }
{
    match last {
        Some(last) => last.cmp(&node).is_lt(),
        None => true,
    }
}
