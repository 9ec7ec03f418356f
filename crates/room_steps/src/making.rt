//! Room for the rows of a transaction.

ghost use Rattle.std.specs.Prelude.{◌≡◌, ◌<◌, ◌≤◌, None, false};
ghost use Rattle.room_shelf.specs.Shelves.{IsShelf, shelf};
ghost use Rattle.room_steps.specs.Merging.{FindsRegion, SealsAndTidies, SealsIfFull, is_epoch_full};
ghost use Rattle.run_laws.specs.Needs.{HasNoRegion};
ghost use Rattle.room_steps.specs.Steps.{MakesRoom};

use crate::merging::{free_region, tidy};
use crate::sealing::seal_waiting;
use epoch_room::{Fit, Room};
use fine_model::{RunFault, Why};
use log_disk::LogDisk;
use partition_hold::View;
use std::alloc::Global;

/// Whether the open epoch alone is why rows do not fit.
fn is_epoch_full(fit: Fit) -> bool
    ensures { result ≡ is_epoch_full fit }
{
    match fit {
        Fit::Fits => false,
        Fit::Shut { epoch: _ } => false,
        Fit::Number { epoch: _, place: _ } => false,
        Fit::TooLarge { need: _, room: _ } => false,
        Fit::Full {
            free: _,
            live: _,
            retired: _,
        } => false,
        Fit::EpochFull { need: _, room: _ } => true,
    }
}

/// Seals what waits, and gathers and merges what the policy names behind it.
fn seal_and_tidy<D: LogDisk>(
    alloc: Global,
    room: &mut Room<D>,
    out: &mut Option<View<D::Eye>>,
) -> Result<(), RunFault>
    requires shelf { IsShelf room.old.room out.old }
    requires no_job { room.old.room.job ≡ None }
    requires waiting { 1 ≤ room.old.room.waiting }
    ensures { SealsAndTidies (shelf room.old out.old) (shelf room.new out.new) result }
{
    match seal_waiting(room, out) {
        Ok(_epoch) => tidy(alloc, room, out),
        Err(fault) => Err(fault),
    }
}

/// Seals what waits where it leaves too little of its region for rows of a cost.
fn seal_if_full<D: LogDisk>(
    alloc: Global,
    room: &mut Room<D>,
    out: &mut Option<View<D::Eye>>,
    cost: u64,
) -> Result<(), RunFault>
    requires shelf { IsShelf room.old.room out.old }
    requires no_job { room.old.room.job ≡ None }
    ensures { SealsIfFull cost (shelf room.old out.old) (shelf room.new out.new) result }
{
    let _whole = room.sealed();
    if is_epoch_full(room.fit(cost)) {
        seal_and_tidy(alloc, room, out)
    } else {
        Ok(())
    }
}

/// Finds a region for a new epoch, where fewer than two are free and nothing waits: `None`, or the refusal.
fn find_region<D: LogDisk>(
    alloc: Global,
    room: &mut Room<D>,
    out: &mut Option<View<D::Eye>>,
    full: &mut bool,
) -> Result<Option<Why>, RunFault>
    requires shelf { IsShelf room.old.room out.old }
    requires no_job { room.old.room.job ≡ None }
    requires opened { room.old.room.is_shut ≡ false }
    requires no_region { HasNoRegion room.old.room }
    ensures { FindsRegion (shelf room.old out.old) (shelf room.new out.new) full.old full.new result }
{
    let _whole = room.sealed();
    if *full {
        return Ok(Some(Why::Full));
    }
    match free_region(alloc, room, out) {
        Ok(found) => {
            if found {
                Ok(None)
            } else {
                *full = true;
                Ok(Some(Why::Full))
            }
        }
        Err(fault) => Err(fault),
    }
}

/// Makes room for the rows of a transaction, which take so many bytes in a partition beside its header: `None` where they may be appended now, or else why
/// the transaction is refused. `full` is the flag that the log is full.
///
/// Where they fit at once, nothing is changed, and the view stays out. Where what waits leaves too little of its region, it is sealed, and the parts are
/// gathered and merged that the policy names then. Where a new epoch would take the last free region, neighbours are merged until one more is free.
///
/// `Large`: the rows alone need more bytes than a region has; nothing is changed. `Number`: no number of epochs or of places is left. `Full`: nothing waits,
/// fewer than two regions are free, nothing is retired, and no neighbours fit what is free; then the flag is set, and with it set the same refusal comes without a merge.
///
/// `Disk` comes only where the disk or a read failed in this call, or where the room was shut before, and then nothing is changed. After `Memory` and
/// `Damaged` the room is open, and no call failed. With each fault, what was sealed, gathered or merged before stays so, and the flag is as it was.
pub fn make_room<D: LogDisk>(
    alloc: Global,
    room: &mut Room<D>,
    out: &mut Option<View<D::Eye>>,
    full: &mut bool,
    cost: u64,
) -> Result<Option<Why>, RunFault>
    requires shelf { IsShelf room.old.room out.old }
    requires no_job { room.old.room.job ≡ None }
    ensures { MakesRoom cost (shelf room.old out.old) (shelf room.new out.new) full.old full.new result }
{
    match seal_if_full(alloc, room, out, cost) {
        Ok(()) => {
            let _whole = room.sealed();
            match room.fit(cost) {
                Fit::Fits => Ok(None),
                Fit::Shut { epoch: _ } => Err(RunFault::Disk),
                Fit::Number { epoch: _, place: _ } => Ok(Some(Why::Number)),
                Fit::TooLarge { need: _, room: _ } => Ok(Some(Why::Large)),
                Fit::EpochFull { need: _, room: _ } => Ok(Some(Why::Large)),
                Fit::Full {
                    free: _,
                    live: _,
                    retired: _,
                } => find_region(alloc, room, out, full),
            }
        }
        Err(fault) => Err(fault),
    }
}
