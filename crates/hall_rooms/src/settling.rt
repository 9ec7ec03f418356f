//! A turn of the room in which retired parts are erased.

ghost use Rattle.std.specs.Prelude.{◌≡◌};
ghost use Rattle.fine_places.specs.History as places;
ghost use Rattle.fine_hall.specs.Passes.{LacksPlace};
ghost use Rattle.hall_rooms.specs.Rooms.{IsRoomPass, beginning_of};
ghost use Rattle.hall_rooms.specs.Steps.{ErasesOr};
ghost use Rattle.hall_rooms.specs.Turning.{SettlesViews};

use crate::opening::RoomHall;
use crate::turn::{begin_turn, end_turn};
use epoch_room::{Room, RoomFault};
use fine_hall::Pass;
use log_disk::LogDisk;
use partition_hold::View;
use std::sync::Wait;

/// Erases each retired part that no view names.
pub(crate) fn erase_unheld<D: LogDisk>(room: &mut Room<D>) -> Result<u32, RoomFault>
    ensures { ErasesOr room.old room.new result }
{
    let _whole = room.counts();
    room.erase_all()
}

/// Erases each retired part that no view of any seat names, with one sync for all, and answers how many: one turn without an entry. It may wait for
/// the room.
///
/// `Disk` comes only where the disk failed in this call, and the room is shut; `Shut` exactly where it was shut before, and the turn leaves it as it was.
/// After `NoMemory` the first of these parts may be erased, but not all of them. After `Disk` the first of them, one at least, are retired no more, and their
/// regions are lost. Nothing else of the room changed.
pub fn settle_views<D: LogDisk, W: Wait>(
    rt: &W,
    hall: &RoomHall<D>,
    pass: &mut Pass<View<D::Eye>>,
) -> Result<u32, RoomFault>
    requires pass { IsRoomPass hall.now pass.old }
    requires free { LacksPlace pass.old places.room }
    ensures pass { IsRoomPass hall.now pass.new × (pass.new.number ≡ pass.old.number) }
    ensures settles { SettlesViews (beginning_of hall.now) pass.old pass.new result }
{
    let mut held = begin_turn(rt, hall, pass);
    let erased = erase_unheld(held.room());
    end_turn(hall, pass, held);
    erased
}
