//! Merging the first neighbours that fit, in one call.

ghost use Rattle.std.specs.Prelude.{◌≡◌, ◌≤◌, None, false, true, option_map};
ghost use Rattle.std.specs.List.{list_all};
ghost use Rattle.fine_model.specs.Boards.{is_empty};
ghost use Rattle.epoch_room.specs.MergeSteps.{neighbours_from};
ghost use Rattle.epoch_room.specs.Returns.{IsPosted};
ghost use Rattle.room_merges.specs.Near.{Empties, MayTry, MergesErased, MergesNear, MergesThrough, TriesAll, TriesBetween};

use crate::fault::{MergeFault, MergeResult};
use crate::pair::merge_pair;
use epoch_room::{Room, first_neighbours};
use fine_model::Part;
use log_disk::LogDisk;
use partition_hold::View;
use std::alloc::Global;

/// Where the newer one begins of the first two neighbours whose older one begins at an epoch or later.
fn epoch_behind(parts: &[Part], from: u64) -> Option<u64>
    ensures { result ≡ option_map (λ two. two.1.header.range.first) (neighbours_from from parts.now) }
{
    let (_, newer) = first_neighbours(parts, from)?;
    Some(newer.header.range.first)
}

/// Tries the neighbours whose older one begins from an epoch on and before another, in chain order, and merges the first that fit.
fn merge_between<D: LogDisk>(
    alloc: Global,
    room: &mut Room<D>,
    view: &mut View<D::Eye>,
    from: u64,
    until: u64,
) -> MergeResult<bool>
    requires may { MayTry room.old view.old }
    ensures { TriesBetween from until room.old room.new view.old view.new result }
{
    let _counts = room.counts();
    let mut at = from;
    while at < until {
        let Some(next) = epoch_behind(room.parts().as_slice(), at) else {
            return Ok(false);
        };
        match merge_pair(alloc, room, view, at) {
            Ok(merged) => {
                if merged {
                    return Ok(true);
                }
            }
            Err(fault) => return Err(fault),
        }
        at = next;
    }
    Ok(false)
}

/// Merges the first neighbours that fit, through a view of all live parts that is out, while others may be out too: tried are first the
/// neighbours of which the older one begins at an epoch or later, in chain order, and then those before it. No merge is out before and after.
///
/// True exactly where two were merged: they are one part over the lowest free regions, by a measure of them that was read, and they are retired.
/// False where a measure of all neighbours was read through the view, and none of them fits what is free, by what the view's eye tells; then the
/// chain, and what is retired and free, is as it was. So it is after `NoMemory`, and after each refusal of a read, which blames the first two
/// that were not tried in vain. `Disk` comes only where the disk failed in this call, and shuts the room; of the lowest free regions those are
/// lost that the failed call was writing. `Shut` never comes.
pub fn merge_any<D: LogDisk>(
    alloc: Global,
    room: &mut Room<D>,
    view: &mut View<D::Eye>,
    from: u64,
) -> MergeResult<bool>
    requires no_job { room.old.room.job ≡ None }
    requires open { room.old.room.is_shut ≡ false }
    requires posted { IsPosted room.old.room view.old }
    requires region_len { view.old.region_len ≡ room.old.room.region_len }
    requires parts { view.old.parts ≡ room.old.room.parts }
    ensures { TriesAll from room.old room.new view.old view.new result }
{
    let _counts = room.counts();
    match merge_between(alloc, room, view, from, u64::MAX) {
        Ok(merged) => {
            if merged {
                Ok(true)
            } else {
                merge_between(alloc, room, view, 1, from)
            }
        }
        Err(fault) => Err(fault),
    }
}

/// Merges the first neighbours that fit, through a view of its own.
fn merge_through<D: LogDisk>(alloc: Global, room: &mut Room<D>, from: u64) -> MergeResult<bool>
    requires no_job { room.old.room.job ≡ None }
    requires board { list_all is_empty room.old.room.board ≡ true }
    ensures { MergesThrough from room.old room.new result }
{
    let _counts = room.counts();
    match room.view_for(1) {
        Ok(mut view) => {
            let _made = room.counts();
            let _seen = view.parts();
            let merged = merge_any(alloc, room, &mut view, from);
            let _tried = room.counts();
            let _parts = view.parts();
            room.take_back(view);
            let _left = room.counts();
            merged
        }
        Err(fault) => Err(MergeFault::Room(fault)),
    }
}

/// Erases all retired parts of a room with no view out, and no merge: their regions are free then.
///
/// `Shut` comes exactly where an earlier call answered `Disk`, and changes nothing. `Disk` comes only where the disk failed in this call, and shuts the room: the regions of the
/// parts are lost whose gates were begun. After `NoMemory` the room is open, and the first of these parts are erased. The chain is as it was, whatever the answer.
pub fn erase_retired<D: LogDisk>(room: &mut Room<D>) -> MergeResult<()>
    requires no_job { room.old.room.job ≡ None }
    requires board { list_all is_empty room.old.room.board ≡ true }
    ensures { Empties room.old room.new result }
{
    let _counts = room.counts();
    match room.erase_all() {
        Ok(_erased) => Ok(()),
        Err(fault) => Err(MergeFault::Room(fault)),
    }
}

/// Merges the first neighbours that fit, and erases the two.
fn merge_erased<D: LogDisk>(alloc: Global, room: &mut Room<D>, from: u64) -> MergeResult<bool>
    requires no_job { room.old.room.job ≡ None }
    requires board { list_all is_empty room.old.room.board ≡ true }
    ensures { MergesErased from room.old room.new result }
{
    match merge_through(alloc, room, from) {
        Ok(merged) => {
            if merged {
                match erase_retired(room) {
                    Ok(()) => Ok(true),
                    Err(fault) => Err(fault),
                }
            } else {
                Ok(false)
            }
        }
        Err(fault) => Err(fault),
    }
}

/// Erases all retired parts, merges the first neighbours of the chain that fit, and erases the two. Tried are first the neighbours of which
/// the older one begins at an epoch or later, in chain order, and then those before it. No view is out, and no merge, before and after.
///
/// True exactly where two were merged: the chain has a part less, over the lowest regions that were free, and none is retired; where both
/// are in the grammar, the new part holds their merged rows. On a disk that tells its bytes the new part is in the grammar, be the two in it
/// or not, and has of each node the rows into which those are merged that a look for it finds in both. False where no neighbours fit what is free, by what a read of the disk gives;
/// none is retired then either, and the chain is as it was. Of each two that are passed over a measure was read. Whatever the answer, each
/// part that stays in the chain has the bytes that it had, in the grammar or not, by what a read of the disk gives.
///
/// `Shut` comes exactly where an earlier call answered `Disk`, and changes nothing. `Disk` comes only where the disk failed in this call,
/// and shuts the room: the regions are lost that the failed call was writing, of retired parts that were being erased, or of the new part.
/// After `NoMemory` the room is open; both may come once two were merged, and what was merged or erased before stays so. A refusal of a
/// read leaves the chain as it was, and nothing retired; no neighbours that are tried before fit. A crash at any moment of the call leaves
/// an image that shows what was sealed before.
pub fn merge_near<D: LogDisk>(alloc: Global, room: &mut Room<D>, from: u64) -> MergeResult<bool>
    requires no_job { room.old.room.job ≡ None }
    requires board { list_all is_empty room.old.room.board ≡ true }
    ensures { MergesNear from room.old room.new result }
{
    let _counts = room.counts();
    match erase_retired(room) {
        Ok(()) => merge_erased(alloc, room, from),
        Err(fault) => Err(fault),
    }
}

/// Merges the first neighbours of the chain that fit, as `merge_near` does from the first epoch on.
pub fn merge_now<D: LogDisk>(alloc: Global, room: &mut Room<D>) -> MergeResult<bool>
    requires no_job { room.old.room.job ≡ None }
    requires board { list_all is_empty room.old.room.board ≡ true }
    ensures { MergesNear 1 room.old room.new result }
{
    merge_near(alloc, room, 1)
}
