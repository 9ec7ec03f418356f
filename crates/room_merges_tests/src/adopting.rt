//! Rows that a room takes in over several regions, and what a crash leaves of them.

ghost use Rattle.std.specs.Prelude.{◌≡◌, ◌<◌, ◌≤◌, [], ◌∷◌, None, IfOk, OnOk};
ghost use Rattle.std.specs.List.{AllByRecursion};
ghost use Rattle.fine_model.specs.RowBytes.{FitsRow};
ghost use Rattle.fine_model.specs.declared.Mark.TheVariants as mark;

use crate::fixtures::{Refusal, new_room, row_of, stop_at};
use crate::stops::left_by;
use epoch_room::{AdoptFault, Room, RoomFault};
use fine_model::{Items, Part, Range, Rows};
use log_disk::{FaultPlan, MemDisk};
use partition_merge::is_ordered;
use std::alloc::Global;

// A row of 279 bytes behind others.
fn push_row(rows: &mut Rows, alloc: Global, number: u32) -> Result<(), Refusal>
    requires low { 1 ≤ number }
    requires high { number < 100 }
    requires fit { AllByRecursion (FitsRow mark.Two) rows.old }
    ensures { OnOk result (AllByRecursion (FitsRow mark.Two) rows.new) }
{
    match rows.push(row_of(alloc, number, 256)?) {
        Ok(()) => Ok(()),
        Err(_refused) => Err("memory"),
    }
}

// Rows of 279 bytes, of so many nodes from 1 on.
fn rows_of(alloc: Global, count: u32) -> Result<Rows, Refusal>
    requires { count < 99 }
    ensures { IfOk result (AllByRecursion (FitsRow mark.Two)) }
{
    let mut rows = Items::new(alloc);
    for i in 0..count {
        push_row(&mut rows, alloc, i + 1)?;
    }
    Ok(rows)
}

// Takes so many rows in as the epochs 1 to 3.
fn adopt(room: &mut Room<MemDisk>, rows: &Rows) -> Result<Result<(), AdoptFault>, Refusal>
    requires none { room.old.room.places ≡ 0 }
    requires board { room.old.room.board ≡ None ∷ None ∷ None ∷ [] }
    requires no_job { room.old.room.job ≡ None }
    requires rows { AllByRecursion (FitsRow mark.Two) rows.now }
    ensures board { room.new.room.board ≡ None ∷ None ∷ None ∷ [] }
    ensures no_job { room.new.room.job ≡ None }
{
    if room.counts().sealed != 0 || !is_ordered(rows.as_slice()) {
        return Err("order");
    }
    Ok(room.adopt(Range { first: 1, last: 3 }, rows))
}

// So of so many rows.
fn adopt_rows(
    room: &mut Room<MemDisk>,
    alloc: Global,
    count: u32,
) -> Result<Result<(), AdoptFault>, Refusal>
    requires count { count < 99 }
    requires none { room.old.room.places ≡ 0 }
    requires board { room.old.room.board ≡ None ∷ None ∷ None ∷ [] }
    requires no_job { room.old.room.job ≡ None }
    ensures board { room.new.room.board ≡ None ∷ None ∷ None ∷ [] }
    ensures no_job { room.new.room.job ≡ None }
{
    let rows = rows_of(alloc, count)?;
    adopt(room, &rows)
}

// Where the first part lies, and over how many regions.
fn first_place(parts: &[Part]) -> Option<(u32, u8)> {
    let part = parts.first().copied()?;
    Some((part.region, part.header.regions))
}

// What taking in so many rows answers, how many regions are free then, and where the part lies.
type Adopted = (Result<(), AdoptFault>, u32, Option<(u32, u8)>);

fn adopt_and_look(room: &mut Room<MemDisk>, alloc: Global, count: u32) -> Result<Adopted, Refusal>
    requires count { count < 99 }
    requires none { room.old.room.places ≡ 0 }
    requires board { room.old.room.board ≡ None ∷ None ∷ None ∷ [] }
    requires no_job { room.old.room.job ≡ None }
{
    let answer = adopt_rows(room, alloc, count)?;
    let place = first_place(room.parts().as_slice());
    Ok((answer, room.counts().free, place))
}

// So in a new room.
fn adopted(alloc: Global, count: u32) -> Result<Adopted, Refusal>
    requires { count < 99 }
{
    let mut room = new_room(alloc, FaultPlan::none(alloc))?;
    adopt_and_look(&mut room, alloc, count)
}

#[test]
fn rows_are_taken_in_over_the_lowest_regions(rt: HostRuntime) {
    let full = Err(AdoptFault::Full { free: 8, need: 8 });
    for (count, answer, free, place) in [
        (1, Ok(()), 7, Some((0, 1))),
        (13, Ok(()), 7, Some((0, 1))),
        (14, Ok(()), 6, Some((0, 2))),
        (27, Ok(()), 6, Some((0, 2))),
        (28, Ok(()), 5, Some((0, 3))),
        (97, Ok(()), 1, Some((0, 7))),
        (98, full, 8, None),
    ] {
        assert_eq!(rt; adopted(rt.alloc(), count), Ok((answer, free, place)));
    }
}

// Takes 24 rows in where the calls fail from a number on, and what a crash then leaves of them.
fn stopped(
    alloc: Global,
    stop: u64,
    byte: u8,
    len: usize,
) -> Result<(Result<(), AdoptFault>, (u64, u32)), Refusal> {
    let mut room = new_room(alloc, stop_at(alloc, stop))?;
    let answer = adopt_rows(&mut room, alloc, 24);
    let left = left_by(alloc, room, byte, len)?;
    Ok((answer?, left))
}

#[test]
fn a_crash_leaves_all_rows_or_none(rt: HostRuntime) {
    let failed = Err(AdoptFault::Room(RoomFault::Disk));
    // The sixth call writes the lead's gate, and the seventh syncs it. Where what was not synced is as it was, a failed gate is none; where
    // each byte that was being written stands, it is open.
    for (byte, len, opened) in [(0, 0, 8), (0xa7, 8192, 6)] {
        for stop in 1..9 {
            let answer = if stop < 8 { failed } else { Ok(()) };
            let shown = if stop < opened { (0, 0) } else { (3, 24) };
            assert_eq!(rt; stopped(rt.alloc(), stop, byte, len), Ok((answer, shown)));
        }
    }
}
