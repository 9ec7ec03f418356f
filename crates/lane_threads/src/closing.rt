//! How a run ends: the hall is closed, and what waits is sealed.

ghost use Rattle.std.specs.Prelude.{◌≡◌, ◌≤◌, ◌<◌, ◌+◌, ◌*◌, ℕ, true, None, [], ◌∷◌, ◌++◌, length, vec_capacity};
ghost use Rattle.std.specs.List.{list_all};
ghost use Rattle.fine_model.specs.Boards.{is_empty};
ghost use Rattle.epoch_room.specs.Whole.{IsWhole};
ghost use Rattle.hall_rooms.specs.Closing.{ClosesHall};
ghost use Rattle.hall_rooms.specs.Rooms.{beginning_of};
ghost use Rattle.lane_laws.specs.Joined.{SealsLeft};
ghost use Rattle.lane_laws.specs.NoHall.{of_room};
ghost use Rattle.lane_runs.specs.Rest.{AreOthers, IsFirst};

use epoch_room::{Room, RoomFault};
use fine_hall::Pass;
use fine_model::{Gate, Point, RunFault};
use hall_rooms::{RoomHall, close_hall};
use log_disk::LogDisk;
use partition_hold::View;

/// What a fault of a room is for a run. A room that was shut before is told as a failed disk.
pub(crate) fn of_room(fault: RoomFault) -> RunFault
    ensures { result ≡ of_room fault }
{
    match fault {
        RoomFault::Disk => RunFault::Disk,
        RoomFault::Shut { epoch: _ } => RunFault::Disk,
        RoomFault::NoMemory => RunFault::Memory,
    }
}

/// Closes the hall with the passes of the seats from 2 on, in their order, and that of the seat 1. It takes no memory.
pub(crate) fn close<D: LogDisk>(
    hall: RoomHall<D>,
    first: Pass<View<D::Eye>>,
    mut others: Vec<Pass<View<D::Eye>>>,
    spare: Vec<View<D::Eye>>,
) -> Room<D>
    requires first { IsFirst hall first }
    requires others { AreOthers hall others.items }
    requires count { length others.items + 1 ≡ (beginning_of hall).seats }
    requires room { length others.items < vec_capacity others }
    requires spare { (spare.items ≡ []) × (2 * (beginning_of hall).seats ≤ vec_capacity spare) }
    ensures { ClosesHall (beginning_of hall) (others.items ++ first ∷ []) result }
{
    others.push_reserved(first);
    close_hall(hall, others, spare)
}

/// Seals what waits in a room, unless the room is shut, and answers the fault of this seal. The gate is called for the seat of the caller after the seal.
pub(crate) fn seal_left<D: LogDisk, G: Gate>(
    room: &mut Room<D>,
    gate: &G,
    who: u32,
) -> Option<RunFault>
    requires board { list_all is_empty room.old.room.board ≡ true }
    requires no_job { room.old.room.job ≡ None }
    ensures { SealsLeft room.old room.new result }
{
    if room.is_shut() || room.waiting() == 0 {
        let _whole = room.sealed();
        return None;
    }
    match room.seal() {
        Ok(epoch) => {
            gate.at(who, Point::Sealed { epoch });
            let _whole = room.sealed();
            None
        }
        Err(fault) => {
            let _whole = room.sealed();
            Some(of_room(fault))
        }
    }
}
