//! What faults of making room are told as.

ghost use Rattle.std.specs.Prelude.{◌≡◌};
ghost use Rattle.lane_runs.specs.Resting.{fault_of, is_stuck, of_fetch};

use epoch_room::RoomFault;
use fine_model::{Damage, FetchFault, RunFault};
use hall_rooms::Space;
use room_merges::MergeFault;

/// Whether the log can take nothing any more.
pub(crate) fn is_stuck(space: Space) -> bool
    ensures { result ≡ is_stuck space }
{
    match space {
        Space::Stuck => true,
        Space::Made => false,
        Space::Enough => false,
        Space::Held => false,
        Space::Waits => false,
    }
}

/// What a fault of a read is told as.
fn of_fetch(fault: FetchFault) -> RunFault
    ensures { result ≡ of_fetch fault }
{
    match fault {
        FetchFault::Failed => RunFault::Disk,
        FetchFault::NoMemory => RunFault::Memory,
        FetchFault::BadRow { region, at } => RunFault::Damaged {
            what: Damage::Region { region, at },
        },
        FetchFault::BadIndex { region, at } => RunFault::Damaged {
            what: Damage::Region { region, at },
        },
    }
}

/// What a fault of making room is told as. A room that was shut before is told as a failed disk.
pub(crate) fn fault_of(fault: MergeFault) -> RunFault
    ensures { result ≡ fault_of fault }
{
    match fault {
        MergeFault::Room(fault) => match fault {
            RoomFault::Disk => RunFault::Disk,
            RoomFault::Shut { epoch: _ } => RunFault::Disk,
            RoomFault::NoMemory => RunFault::Memory,
        },
        MergeFault::Fetch(fault) => of_fetch(fault),
    }
}
