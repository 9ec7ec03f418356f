//! Views that are made and taken back.

ghost use Rattle.std.specs.Prelude.{◌≡◌, ◌≤◌, ◌*◌, ◌++◌, List, None, IsSome, length, reverse, slice_set};
ghost use Rattle.fine_model.specs.Boards.{buffer_at, empty_of};
ghost use Rattle.partition_hold.specs.Views.{ViewValue};
ghost use Rattle.epoch_room.specs.Returns.{IsPosted};
ghost use Rattle.hall_rooms.specs.Boards.{Names, TakesBackAll, faults_of};
ghost use Rattle.hall_rooms.specs.Views.{MakesViewOr};

use epoch_room::{Room, RoomFault};
use log_disk::LogDisk;
use partition_hold::View;

/// A view of all live parts for a seat that has an empty buffer.
pub(crate) fn make_view<D: LogDisk>(
    room: &mut Room<D>,
    seat: u32,
) -> Result<View<D::Eye>, RoomFault>
    requires some { 1 ≤ seat }
    requires seats { 3 * seat ≤ length room.old.room.board }
    requires empty { IsSome (empty_of room.old.room.board seat) }
    ensures { MakesViewOr room.old room.new seat result }
{
    let _whole = room.counts();
    room.view_for(seat)
}

/// Takes a view back.
pub(crate) fn take_back<D: LogDisk>(room: &mut Room<D>, view: View<D::Eye>)
    requires posted { IsPosted room.old.room view }
    ensures board { room.new.room.board ≡ slice_set room.old.room.board (buffer_at view.seat view.buffer) None }
    ensures same { TakesBackAll view.eye.faults room.old room.new }
{
    let _whole = room.counts();
    room.take_back(view);
}

/// Takes views back, the last one first. The board names them, and may name others, made before.
pub(crate) fn take_back_all<D: LogDisk>(room: &mut Room<D>, mut views: Vec<View<D::Eye>>)
    requires named { (others : List ViewValue) × Names room.old.room.board (reverse views.items ++ others) }
    ensures board { (others : List ViewValue) → Names room.old.room.board (reverse views.items ++ others) → Names room.new.room.board others }
    ensures same { TakesBackAll (faults_of views.items) room.old room.new }
{
    let _whole = room.counts();
    while let Some(view) = views.pop() {
        take_back(room, view);
    }
}
