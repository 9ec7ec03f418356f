//! Merging neighbours, and gathering the youngest parts, between transactions.

ghost use Rattle.std.specs.Prelude.{◌≡◌, ◌<◌, ◌≤◌, None, false};
ghost use Rattle.fine_model.specs.RowBytes.{longest_region};
ghost use Rattle.room_shelf.specs.Shelves.{IsShelf, shelf};
ghost use Rattle.room_steps.specs.Merging.{Frees, GathersFrom, GathersNamed, MergesNamed, MergesOne};
ghost use Rattle.room_steps.specs.Steps.{IsNamed, Tidies, space_of};

use crate::faults::{of_merge, of_room};
use crate::sealing::take_view;
use epoch_room::Room;
use fine_model::RunFault;
use log_disk::LogDisk;
use merge_policy::{Space, next_merge, young_run};
use partition_hold::View;
use room_merges::{erase_retired, merge_near};
use std::alloc::Global;

/// How many free regions a new epoch asks for. As many are spared by merging.
const SPARE: u32 = 2;

/// Where the older one begins of the two neighbours that the policy merges next, if it merges any. Nothing is measured before.
fn named<D: LogDisk>(room: &Room<D>) -> Option<u64>
    ensures { IsNamed room.now.room result }
{
    next_merge(room.parts().as_slice(), space_of(room), &[])
}

/// Takes the view back, if one is out, and merges the first neighbours that fit, of those from an epoch on and then of those before.
fn merge_one<D: LogDisk>(
    alloc: Global,
    room: &mut Room<D>,
    out: &mut Option<View<D::Eye>>,
    from: u64,
) -> Result<bool, RunFault>
    requires shelf { IsShelf room.old.room out.old }
    requires no_job { room.old.room.job ≡ None }
    ensures { MergesOne (shelf room.old out.old) (shelf room.new out.new) result }
{
    let _whole = room.sealed();
    take_view(room, out);
    let _rested = room.sealed();
    let merged = merge_near(alloc, room, from);
    let _merged = room.sealed();
    match merged {
        Ok(merged) => Ok(merged),
        Err(fault) => Err(of_merge(fault)),
    }
}

/// What the policy is asked of the regions.
fn space_of<D: LogDisk>(room: &Room<D>) -> Space
    ensures is { result ≡ space_of room.now.room }
    ensures short { 1 ≤ result.region_len }
    ensures long { result.region_len ≤ longest_region }
{
    let counts = room.counts();
    Space {
        region_len: room.region_len(),
        free: counts.free,
        is_pressed: room.pressed(),
        spare: SPARE,
        sealed: counts.sealed,
    }
}

/// Takes the view back, if one is out, gathers the parts from an epoch on into one, and erases what is retired.
fn gather_from<D: LogDisk>(
    room: &mut Room<D>,
    out: &mut Option<View<D::Eye>>,
    from: u64,
) -> Result<(), RunFault>
    requires shelf { IsShelf room.old.room out.old }
    requires no_job { room.old.room.job ≡ None }
    ensures { GathersFrom (shelf room.old out.old) (shelf room.new out.new) result }
{
    let _whole = room.sealed();
    take_view(room, out);
    let _rested = room.sealed();
    let gathered = room.gather(from);
    let _gathered = room.sealed();
    match gathered {
        Ok(_done) => {
            let erased = erase_retired(room);
            let _erased = room.sealed();
            match erased {
                Ok(()) => Ok(()),
                Err(fault) => Err(of_merge(fault)),
            }
        }
        Err(fault) => Err(of_room(fault)),
    }
}

/// Gathers the youngest parts, where the policy names some.
fn gather_young<D: LogDisk>(
    room: &mut Room<D>,
    out: &mut Option<View<D::Eye>>,
) -> Result<(), RunFault>
    requires shelf { IsShelf room.old.room out.old }
    requires no_job { room.old.room.job ≡ None }
    ensures { GathersNamed (shelf room.old out.old) (shelf room.new out.new) result }
{
    let _whole = room.sealed();
    match young_run(room.parts().as_slice(), space_of(room)) {
        Some(from) => gather_from(room, out, from),
        None => Ok(()),
    }
}

/// Merges neighbours as long as the policy names some and some fit.
fn merge_named<D: LogDisk>(
    alloc: Global,
    room: &mut Room<D>,
    out: &mut Option<View<D::Eye>>,
) -> Result<(), RunFault>
    requires shelf { IsShelf room.old.room out.old }
    requires no_job { room.old.room.job ≡ None }
    ensures { MergesNamed (shelf room.old out.old) (shelf room.new out.new) result }
{
    let _whole = room.sealed();
    while let Some(from) = named(room) {
        match merge_one(alloc, room, out, from) {
            Ok(merged) => {
                if !merged {
                    return Ok(());
                }
            }
            Err(fault) => return Err(fault),
        }
    }
    Ok(())
}

/// Gathers the youngest parts where the policy names some, and merges neighbours as long as it names some and some fit, as is done behind a seal. Where it names
/// none the call changes nothing, and the view stays out. Nothing is sealed or added, and all that waits still waits.
///
/// `Disk` comes only where the disk or a read failed in this call, or where the room was shut before. After `Memory` and `Damaged` the room is open, and no
/// call failed. `Damaged` names a row or an index entry of a live part that is bad by what was read. With each fault, what was gathered or merged before stays so.
pub fn tidy<D: LogDisk>(
    alloc: Global,
    room: &mut Room<D>,
    out: &mut Option<View<D::Eye>>,
) -> Result<(), RunFault>
    requires shelf { IsShelf room.old.room out.old }
    requires no_job { room.old.room.job ≡ None }
    ensures { Tidies (shelf room.old out.old) (shelf room.new out.new) result }
{
    match gather_young(room, out) {
        Ok(()) => merge_named(alloc, room, out),
        Err(fault) => Err(fault),
    }
}

/// Merges neighbours until a region is free for a new epoch: true, or false where none fit any more.
pub(crate) fn free_region<D: LogDisk>(
    alloc: Global,
    room: &mut Room<D>,
    out: &mut Option<View<D::Eye>>,
) -> Result<bool, RunFault>
    requires shelf { IsShelf room.old.room out.old }
    requires no_job { room.old.room.job ≡ None }
    requires opened { room.old.room.is_shut ≡ false }
    ensures { Frees (shelf room.old out.old) (shelf room.new out.new) result }
{
    let _whole = room.sealed();
    while room.counts().free < SPARE {
        let from = named(room).unwrap_or(1);
        match merge_one(alloc, room, out, from) {
            Ok(merged) => {
                if !merged {
                    return Ok(SPARE <= room.counts().free);
                }
            }
            Err(fault) => return Err(fault),
        }
    }
    Ok(true)
}
