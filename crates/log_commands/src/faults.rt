//! What faults of reading are told as.

ghost use Rattle.std.specs.Prelude.{◌≡◌};
ghost use Rattle.log_commands.specs.Maps.{of_tree};

use btree_nodes::TreeFault;
use fine_model::{Damage, RunFault};
use room_steps::of_fetch;

/// What a fault of a scan is told as.
pub(crate) fn of_tree(fault: TreeFault) -> RunFault
    ensures { result ≡ of_tree fault }
{
    match fault {
        TreeFault::Source { fault } => of_fetch(fault),
        TreeFault::Unfit { node } => RunFault::Damaged {
            what: Damage::Node { node },
        },
        TreeFault::BucketFull { next: _, depth: _ } => RunFault::Memory,
        TreeFault::Number { node: _ } => RunFault::Memory,
        TreeFault::NoMemory => RunFault::Memory,
    }
}
