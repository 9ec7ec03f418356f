//! How a turn of the room begins and ends.

ghost use Rattle.std.specs.Prelude.{◌≡◌, None};
ghost use Rattle.fine_places.specs.History as places;
ghost use Rattle.fine_boxes.specs.declared.model.TurnNote.{TurnNote};
ghost use Rattle.fine_hall.specs.Passes.{LacksPlace};
ghost use Rattle.fine_hall.specs.Halls.{GivesRoom};
ghost use Rattle.hall_rooms.specs.Rooms.{IsRoomPass, beginning_of};
ghost use Rattle.hall_rooms.specs.Steps.{BeginsTurn, InTurn};

use crate::held::HeldRoom;
use crate::opening::RoomHall;
use fine_hall::Pass;
use log_disk::LogDisk;
use partition_hold::View;
use std::sync::Wait;

/// Takes the room, once no other seat holds it. It may wait.
pub(crate) fn begin_turn<D: LogDisk, W: Wait>(
    rt: &W,
    hall: &RoomHall<D>,
    pass: &mut Pass<View<D::Eye>>,
) -> HeldRoom<D>
    requires pass { IsRoomPass hall.now pass.old }
    requires free { LacksPlace pass.old places.room }
    ensures pass { IsRoomPass hall.now pass.new }
    ensures begins { BeginsTurn (beginning_of hall.now) pass.old pass.new result }
{
    hall.take_room(rt, pass)
}

/// Gives the room back as it is, without an entry.
pub(crate) fn end_turn<D: LogDisk>(
    hall: &RoomHall<D>,
    pass: &mut Pass<View<D::Eye>>,
    held: HeldRoom<D>,
)
    requires pass { IsRoomPass hall.now pass.old }
    requires turn { (t : TurnNote) × InTurn (beginning_of hall.now) held pass.old t }
    ensures pass { IsRoomPass hall.now pass.new × (pass.new.number ≡ pass.old.number) }
    ensures gives { (t : TurnNote) → InTurn (beginning_of hall.now) held pass.old t → GivesRoom held.room None 0 t pass.old pass.new }
{
    hall.give_room(pass, held, None, 0);
}
