//! What faults of calls are told as.

ghost use Rattle.std.specs.Prelude.{◌≡◌};
ghost use Rattle.txn_runner.specs.Steps.{is_memory, of_fetch, of_tree};

use btree_nodes::TreeFault;
use fine_model::{Damage, FetchFault, RunFault, Why};

/// Whether a fault is want of memory.
pub fn is_memory(fault: Option<RunFault>) -> bool
    ensures { result ≡ is_memory fault }
{
    match fault {
        Some(fault) => match fault {
            RunFault::Memory => true,
            RunFault::Disk => false,
            RunFault::Damaged { what: _ } => false,
        },
        None => false,
    }
}

/// What a fault of a load is told as.
pub fn of_fetch(fault: FetchFault) -> RunFault
    ensures { result ≡ of_fetch fault }
{
    match fault {
        FetchFault::Failed => RunFault::Disk,
        FetchFault::NoMemory => RunFault::Memory,
        FetchFault::BadRow { region, at } => RunFault::Damaged {
            what: Damage::Region { region, at },
        },
        FetchFault::BadIndex { region, at } => RunFault::Damaged {
            what: Damage::Region { region, at },
        },
    }
}

/// Why a refused call refuses its transaction, or with which fault it ends the lane.
pub fn of_tree(fault: TreeFault) -> Result<Option<Why>, RunFault>
    ensures { result ≡ of_tree fault }
{
    match fault {
        TreeFault::BucketFull { next: _, depth: _ } => Ok(Some(Why::Bucket)),
        TreeFault::Number { node: _ } => Ok(Some(Why::Number)),
        TreeFault::Source { fault } => Err(of_fetch(fault)),
        TreeFault::Unfit { node } => Err(RunFault::Damaged {
            what: Damage::Node { node },
        }),
        TreeFault::NoMemory => Err(RunFault::Memory),
    }
}
