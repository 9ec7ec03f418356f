//! The faults of what is called as those that a run tells.

ghost use Rattle.std.specs.Prelude.{◌≡◌};
ghost use Rattle.room_steps.specs.Merging.{of_fetch, of_merge, of_room};

use epoch_room::RoomFault;
use fine_model::{Damage, FetchFault, RunFault};
use room_merges::MergeFault;

/// The fault that a run tells of the room: a room that was shut by a failed call is a failed disk.
pub fn of_room(fault: RoomFault) -> RunFault
    ensures { result ≡ of_room fault }
{
    match fault {
        RoomFault::Disk | RoomFault::Shut { .. } => RunFault::Disk,
        RoomFault::NoMemory => RunFault::Memory,
    }
}

/// The fault that a run tells of a read. A bad row or index entry is damage of its region.
pub fn of_fetch(fault: FetchFault) -> RunFault
    ensures { result ≡ of_fetch fault }
{
    match fault {
        FetchFault::Failed => RunFault::Disk,
        FetchFault::BadRow { region, at } => RunFault::Damaged {
            what: Damage::Region { region, at },
        },
        FetchFault::BadIndex { region, at } => RunFault::Damaged {
            what: Damage::Region { region, at },
        },
        FetchFault::NoMemory => RunFault::Memory,
    }
}

/// The fault that a run tells of a merge: that of the room, or of a read.
pub fn of_merge(fault: MergeFault) -> RunFault
    ensures { result ≡ of_merge fault }
{
    match fault {
        MergeFault::Room(fault) => of_room(fault),
        MergeFault::Fetch(fault) => of_fetch(fault),
    }
}
