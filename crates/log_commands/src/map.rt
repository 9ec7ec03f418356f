//! The map of a room.

ghost use Rattle.std.specs.Prelude.{◌≡◌, true, List};
ghost use Rattle.std.specs.List.{list_all};
ghost use Rattle.fine_model.specs.declared.Row.{Row};
ghost use Rattle.fine_model.specs.Boards.{is_empty};
ghost use Rattle.fine_model.specs.Trees.{IsSound};
ghost use Rattle.log_commands.specs.Maps.{AnswersRows, ReadsMap, tells_room, told_as};

use crate::faults::of_tree;
use crate::gathering::read_all;
use btree_nodes::TreeFault;
use epoch_room::Room;
use fine_model::{Pairs, RunFault};
use log_disk::LogDisk;
use room_shelf::{rest, view_of};
use room_steps::of_fetch;
use std::alloc::Global;

/// Tells what was read, or the fault.
fn told(pairs: Result<Pairs, TreeFault>) -> Result<Pairs, RunFault>
    ensures { result ≡ told_as pairs }
{
    match pairs {
        Ok(pairs) => Ok(pairs),
        Err(fault) => Err(of_tree(fault)),
    }
}

/// Makes a view, reads through it and takes it back; all that `read_map` says, in one clause.
fn read_room<D: LogDisk>(alloc: Global, room: &mut Room<D>) -> Result<Pairs, RunFault>
    requires board { list_all is_empty room.old.room.board ≡ true }
    ensures { ReadsMap room.old room.new result }
{
    let _before = room.sealed();
    match view_of(room, None) {
        Ok(mut view) => {
            let _seen = view.parts();
            let pairs = read_all(alloc, &mut view);
            rest(room, Some(view));
            told(pairs)
        }
        Err(fault) => {
            let _behind = room.sealed();
            Err(of_fetch(fault))
        }
    }
}

/// Reads all pairs of a room's log, up to the last sealed epoch, in the byte order of their keys.
///
/// No view of the room is out, before or behind the call. The nodes of one bucket after another are loaded through a view of all live parts, and forgotten again. `Disk` comes only where the count
/// of the disk's faults rose, by the view or by loads through it, or the room was shut; `Damaged` only where the live parts tell no sound rows, and names a row or an index entry that is bad by
/// what was read, or a node that is unfit. Else no call failed. The log is as it was with each answer.
pub fn read_map<D: LogDisk>(alloc: Global, room: &mut Room<D>) -> Result<Pairs, RunFault>
    requires board { list_all is_empty room.old.room.board ≡ true }

    // What is found, each fault with its cause, and what becomes of the room.
    ensures reads { ReadsMap room.old room.new result }

    // Of rows that the live parts have, the pairs are the map; no damage is named where they are sound.
    ensures map { (rows : List Row) → tells_room room.old rows → AnswersRows rows result }
{
    read_room(alloc, room)
}
