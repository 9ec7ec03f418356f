//! How a hall of rooms ends.

ghost use Rattle.std.specs.Prelude.{◌≡◌, ◌<◌, ◌≤◌, ◌*◌, ℕ, [], length, vec_capacity};
ghost use mathlib.Core.Option.{some};
ghost use lib.ListN.{get_elem?};
ghost use Rattle.fine_hall.specs.Passes.{HoldsNothing, LacksJob};
ghost use Rattle.fine_hall.specs.Halls.{AreAll};
ghost use Rattle.hall_rooms.specs.Rooms.{RoomPass, IsRoomPass, beginning_of};
ghost use Rattle.hall_rooms.specs.Closing.{ClosesHall};

use crate::opening::RoomHall;
use crate::views::take_back_all;
use epoch_room::Room;
use fine_hall::Pass;
use log_disk::LogDisk;
use partition_hold::View;

/// Ends a hall with all its passes, which hold nothing, and hands out the room, with all views taken back. `spare` is empty and has room for two
/// views a seat, as `open_hall` hands it out. It takes no memory, and cannot fail.
///
/// There is one list of turns, which begins with what each pass saw, and of which what each pass added is its own part; the room stands for it.
/// The room's count of faults is that at the beginning and all faults that the passes met; it is less only where it stands at its last value.
pub fn close_hall<D: LogDisk>(
    hall: RoomHall<D>,
    passes: Vec<Pass<View<D::Eye>>>,
    mut spare: Vec<View<D::Eye>>,
) -> Room<D>
    requires passes { (i : ℕ) (p : RoomPass) → get_elem? passes.items i ≡ some p → IsRoomPass hall p × HoldsNothing p × LacksJob (beginning_of hall) p }
    requires all { AreAll (beginning_of hall).seats passes.items }
    requires some_pass { 0 < length passes.items }
    requires spare { (spare.items ≡ []) × (2 * (beginning_of hall).seats ≤ vec_capacity spare) }
    ensures { ClosesHall (beginning_of hall) passes.items result }
{
    let held = hall.close(passes, &mut spare);
    let mut room = held.into_room();
    take_back_all(&mut room, spare);
    let _whole = room.counts();
    room
}
