//! A turn of the room in which the first neighbours that fit are merged.

ghost use Rattle.std.specs.Prelude.{◌≡◌, ◌≤◌, None, IsSome, length};
ghost use Rattle.fine_model.specs.Boards.{empty_of};
ghost use Rattle.fine_places.specs.History as places;
ghost use Rattle.fine_hall.specs.Passes.{LacksJob, LacksPlace};
ghost use Rattle.hall_rooms.specs.Rooms.{IsRoomPass, beginning_of};
ghost use Rattle.hall_rooms.specs.Merging.{MergesInTurn, MergesThroughOr};

use crate::opening::RoomHall;
use crate::turn::{begin_turn, end_turn};
use crate::views::{make_view, take_back};
use epoch_room::Room;
use fine_hall::Pass;
use log_disk::LogDisk;
use partition_hold::View;
use room_merges::{MergeFault, merge_any};
use std::alloc::Global;
use std::sync::Wait;

/// Merges the first neighbours that fit, through a view that is made for it, in an empty buffer of the seat 1.
pub(crate) fn merge_through<D: LogDisk>(
    alloc: Global,
    room: &mut Room<D>,
    from: u64,
) -> Result<bool, MergeFault>
    requires no_job { room.old.room.job ≡ None }
    requires seats { 3 ≤ length room.old.room.board }
    requires empty { IsSome (empty_of room.old.room.board 1) }
    ensures { MergesThroughOr from room.old room.new result }
{
    let _whole = room.counts();
    let mut view = match make_view(room, 1) {
        Ok(view) => view,
        Err(fault) => return Err(MergeFault::Room(fault)),
    };
    let _made = room.counts();
    let _seen = view.parts();
    let merged = merge_any(alloc, room, &mut view, from);
    let _tried = room.counts();
    let _parts = view.parts();
    take_back(room, view);
    let _left = room.counts();
    merged
}

/// Merges the first neighbours of the chain that fit, through a view of all live parts that is made for it and taken back: one turn without an entry.
/// Tried are first the neighbours of which the older one begins at an epoch or later, in chain order, and then those before it. The pass is that of the
/// seat 1, and has no merge out. It may wait for the room.
///
/// True exactly where two were merged; they are retired, and their regions are free once no view names them, by `settle_views`. False where no two
/// neighbours fit what is free, by what a read of the disk gives; then the chain is as it was.
///
/// `Disk` comes only where the disk failed in this call, and the room is shut; `Shut` exactly where it was shut before, and the turn leaves it as it was.
/// After these, `NoMemory` and each refusal of a read the chain is as it was. A bad place is named only where the log at entry was not told, or not sound.
pub fn merge_next<D: LogDisk, W: Wait>(
    rt: &W,
    alloc: Global,
    hall: &RoomHall<D>,
    pass: &mut Pass<View<D::Eye>>,
    from: u64,
) -> Result<bool, MergeFault>
    requires pass { IsRoomPass hall.now pass.old }
    requires free { LacksPlace pass.old places.room }
    requires first { pass.old.number ≡ 1 }
    requires no_job { LacksJob (beginning_of hall.now) pass.old }
    ensures pass { IsRoomPass hall.now pass.new × (pass.new.number ≡ pass.old.number) }
    ensures merges { MergesInTurn (beginning_of hall.now) from pass.old pass.new result }
{
    let mut held = begin_turn(rt, hall, pass);
    let merged = merge_through(alloc, held.room(), from);
    end_turn(hall, pass, held);
    merged
}
