//! A room and the view that is out.

ghost use Rattle.room_shelf.specs.Shelves.{IsShelf, Rests, ViewOr};

use epoch_room::{Room, RoomFault};
use fine_model::FetchFault;
use log_disk::LogDisk;
use partition_hold::View;

/// The view that is out, or a new one of all live parts, up to the last sealed epoch, where none is.
///
/// `Failed` comes only where no view was out and none could be made: the disk failed in this call, or before, and the room is shut. `NoMemory` leaves the
/// room as it was. No other fault comes.
pub fn view_of<D: LogDisk>(
    room: &mut Room<D>,
    out: Option<View<D::Eye>>,
) -> Result<View<D::Eye>, FetchFault>
    requires shelf { IsShelf room.old.room out }
    ensures { ViewOr room.old out room.new result }
{
    let _whole = room.sealed();
    match out {
        Some(view) => {
            let _parts = view.parts();
            Ok(view)
        }
        None => match room.view_for(1) {
            Ok(view) => {
                let _made = room.sealed();
                let _parts = view.parts();
                Ok(view)
            }
            Err(fault) => match fault {
                RoomFault::NoMemory => Err(FetchFault::NoMemory),
                RoomFault::Disk => Err(FetchFault::Failed),
                RoomFault::Shut { epoch: _ } => Err(FetchFault::Failed),
            },
        },
    }
}

/// Takes the view back, if one is out. The count of its failed reads is added to the disk's, and nothing else is changed, so that the room may be written.
pub fn rest<D: LogDisk>(room: &mut Room<D>, out: Option<View<D::Eye>>)
    requires shelf { IsShelf room.old.room out }
    ensures { Rests room.old out room.new }
{
    let _whole = room.sealed();
    if let Some(view) = out {
        room.take_back(view);
    }
}
