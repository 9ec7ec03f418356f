//! Sealing what waits.

ghost use Rattle.std.specs.Prelude.{◌≡◌, ◌≤◌, None};
ghost use Rattle.room_shelf.specs.Shelves.{IsShelf, shelf};
ghost use Rattle.room_steps.specs.Merging.{TakesView};
ghost use Rattle.room_steps.specs.Steps.{SealsWaiting};

use crate::faults::of_room;
use epoch_room::Room;
use fine_model::RunFault;
use log_disk::LogDisk;
use partition_hold::View;
use room_shelf::rest;

/// Takes the view back, if one is out.
pub(crate) fn take_view<D: LogDisk>(room: &mut Room<D>, out: &mut Option<View<D::Eye>>)
    requires shelf { IsShelf room.old.room out.old }
    ensures { TakesView (shelf room.old out.old) (shelf room.new out.new) }
{
    if let Some(view) = out.take() {
        rest(room, Some(view));
    }
}

/// Takes the view back, if one is out, and makes what waits durable as the next epoch, whose number it answers: then nothing waits.
///
/// `Disk` comes only where the disk failed in this call, which shuts the room, or where the room was shut before, and then nothing is changed. After `Memory`
/// the room is open. With each fault nothing was sealed, and all that waited still waits.
pub fn seal_waiting<D: LogDisk>(
    room: &mut Room<D>,
    out: &mut Option<View<D::Eye>>,
) -> Result<u64, RunFault>
    requires shelf { IsShelf room.old.room out.old }
    requires no_job { room.old.room.job ≡ None }
    requires waiting { 1 ≤ room.old.room.waiting }
    ensures { SealsWaiting (shelf room.old out.old) (shelf room.new out.new) result }
{
    let _whole = room.sealed();
    take_view(room, out);
    let _rested = room.sealed();
    let sealed = room.seal();
    let _sealed = room.sealed();
    match sealed {
        Ok(epoch) => Ok(epoch),
        Err(fault) => Err(of_room(fault)),
    }
}
