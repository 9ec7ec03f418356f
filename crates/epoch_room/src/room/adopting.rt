//! Rows that are taken in as one part: so the rows of a log of an earlier format, or of a bulk load, become epochs.

ghost use Rattle.std.specs.Prelude.{◌≡◌, ◌+◌, ◌*◌, ◌^◌, ◌<◌, ◌≤◌, IsTrue, List, ℕ, None, OnOk, drop, length};
ghost use Rattle.std.specs.List.{AllByRecursion};
ghost use Rattle.fine_model.specs.declared.Mark.TheVariants as mark;
ghost use Rattle.fine_model.specs.declared.Row.{Row};
ghost use Rattle.fine_model.specs.Becomes.{Becomes};
ghost use Rattle.fine_model.specs.Merge.{encoded_len, is_ordered, nodes_in, regions_for};
ghost use Rattle.fine_model.specs.RowBytes.{FitsRec, FitsRow, greatest, index_entry, longest_region, most_regions, rows_len, short_header};
ghost use Rattle.log_disk.specs.Disk.{SameBeside};
ghost use Rattle.log_disk.specs.Moments.{ContinuesOn};
ghost use Rattle.log_partition.specs.Encoding.{saturated};
ghost use Rattle.epoch_room.specs.Adopting.{Adoption, AdoptsOr, AreNext, HoldsRows, ShownBoth, StandsAfter, StandsForBoth, most_room, need_over, part_over, taken_for};
ghost use Rattle.epoch_room.specs.Gate.{KeepsBeside};

use super::Room;
use super::merging::{mark_for, regions_needed};
use crate::answers::{AdoptFault, RoomFault};
use crate::led_parts::add_part;
use crate::row_writes::seal_rows;
use fine_model::format::{BODY_START, INDEX_ENTRY, LONG_BODY_START, MOST_REGIONS};
use fine_model::{Header, Part, Range, Row, Rows};
use log_disk::{DiskRefusal, LogDisk};
use log_partition::encoded_len;
use node_record::row_len;
use partition_hold::RegionSet;
use std::snapshot::Snapshot;

/// More bytes than any number of regions have for rows.
const TOO_MANY: u64 = 1 << 35;

/// The least number of regions, up to eight, that rows need. `len` is how many bytes they take in a region of their own, or the greatest
/// number of 64 bits where it is more.
fn regions_for(region_len: u64, len: u64) -> Option<u8>
    requires header { short_header ≤ len }
    requires short { 1 ≤ region_len }
    requires long { region_len ≤ longest_region }
    ensures { (rows : List Row) → len ≡ saturated (encoded_len rows) → result ≡ regions_for region_len rows }
{
    if TOO_MANY <= len {
        return None;
    }
    regions_needed(region_len, len - BODY_START)
}

/// How many bytes eight regions have, but for the first bytes of those behind the lead.
fn room_of_most(region_len: u64) -> u64
    requires short { 1 ≤ region_len }
    requires long { region_len ≤ longest_region }
    ensures { result ≡ most_room region_len }
{
    region_len + u64::from(MOST_REGIONS - 1) * (region_len - 1)
}

/// How many bytes rows take in several regions, where they take so many in one.
fn need_of(len: u64) -> u64
    ensures { (rows : List Row) → len ≡ saturated (encoded_len rows) → result ≡ need_over rows }
{
    len.saturating_add(LONG_BODY_START - BODY_START)
}

/// The sum of the lengths of rows.
fn area_of(rows: &[Row]) -> u32
    requires fit { AllByRecursion (λ row. FitsRec row.rec) rows.now }
    requires small { rows_len rows.now < 2 ^ 32 }
    ensures { result ≡ rows_len rows.now }
{
    let mut area = 0;
    for row in rows {
        area += row_len(row);
    }
    area
}

/// How many index entries stand behind so many bytes of rows, where both take so many bytes in a region of their own.
fn entries_in(len: u64, area: u32) -> u32
    requires header { short_header + area ≤ len }
    requires small { len < 2 ^ 32 }
    ensures { (n : ℕ) → len ≡ short_header + (area + index_entry * n) → result ≡ n }
{
    ((len - BODY_START - u64::from(area)) / INDEX_ENTRY as u64) as u32
}

/// A part of rows over the lowest free regions, of which there are enough. `len` is how many bytes the rows take in a region of their own.
#[tactic(auto, unfolding(crate::specs::Adopting::part_over))]
fn part_over(free: &mut RegionSet, range: Range, rows: &Rows, len: u64, regions: u8) -> Part
    requires some { 1 ≤ regions }
    requires most { regions ≤ most_regions }
    requires enough { regions ≤ length free.old }
    requires fit { AllByRecursion (λ row. FitsRec row.rec) rows.now }
    requires len { len ≡ encoded_len rows.now }
    requires small { encoded_len rows.now < 2 ^ 32 }
    ensures free { free.new ≡ drop regions free.old }
    ensures part { result ≡ part_over regions free.old range rows.now }
{
    let area = area_of(rows.as_slice());
    let nodes = entries_in(len, area);
    let region = free.take_lowest().unwrap_or(0);
    let mut more = [0; 7];
    free.take_into(&mut more[..usize::from(regions - 1)]);
    Part {
        region,
        header: Header {
            mark: mark_for(regions),
            range,
            rows: rows.len() as u32,
            nodes,
            area,
            regions,
            more,
        },
    }
}

impl<D: LogDisk> Room<D> {
    /// Seals rows of the next epochs as one live part, over as many of the lowest free regions as they need, up to eight; one region besides
    /// stays free. `range` are these epochs, up to 2^62. No entry was appended since the room was made, and no merge is out.
    ///
    /// The rows ascend strictly by bucket, number and version. After `Ok` the room stands for the log with these rows behind it, as if it
    /// had been made on the disk as it is then: the clock at entry is that on return. The refusals, in this order: `Shut` comes exactly where
    /// an earlier call answered `Disk`; `TooLarge` where eight regions are too few; `Full` where no region would stay free; these change
    /// nothing. After `NoMemory` the room stands for what it stood for. `Disk` comes only where the disk failed in this call, and shuts the
    /// room: the part's regions are lost. A crash at any moment of the call leaves an image that shows the log as it was, or all of these
    /// rows behind it. Whatever it answers, a read gives the same in all other regions.
    pub fn adopt(&mut self, range: Range, rows: &Rows) -> Result<(), AdoptFault>
        requires none { self.old.room.places ≡ 0 }
        requires no_job { self.old.room.job ≡ None }
        requires next { range.first ≡ self.old.room.sealed + 1 }
        requires order { range.first ≤ range.last }
        requires high { range.last ≤ greatest }
        requires ordered { IsTrue (is_ordered rows.now) }
        requires rows { AllByRecursion (FitsRow mark.Two) rows.now }
        ensures room { AdoptsOr range rows.now self.old self.new result }
        ensures stands { OnOk result (StandsForBoth self.old self.new range rows.now) }
        ensures holds { OnOk result (HoldsRows self.old self.new range rows.now) }
        ensures refused { StandsAfter self.old self.new result }
        ensures inside { ShownBoth self.old self.new range rows.now }
        ensures becomes { Becomes self.old.room self.new.room }
        ensures time { ContinuesOn self.old.disk self.new.disk }
        ensures beside { SameBeside self.old.disk self.new.disk }
        ensures read { KeepsBeside (taken_for self.old.room rows.now) self.old.disk self.new.disk }
    {
        self.adopt_rows(range, rows)
    }

    /// Takes rows in; all that `adopt` says of it, in one clause.
    fn adopt_rows(&mut self, range: Range, rows: &Rows) -> Result<(), AdoptFault>
        requires { AreNext self.old.room range rows.now }
        ensures { Adoption range rows.now self.old self.new result }
    {
        if self.is_shut {
            return Err(AdoptFault::Room(RoomFault::Shut { epoch: self.sealed }));
        }
        let region_len = self.disk.region_len();
        let len = encoded_len(rows);
        let Some(regions) = regions_for(region_len, len) else {
            return Err(AdoptFault::TooLarge {
                need: need_of(len),
                room: room_of_most(region_len),
            });
        };
        if self.free.len() <= u32::from(regions) {
            return Err(AdoptFault::Full {
                free: self.free.len(),
                need: u32::from(regions),
            });
        }
        let part = part_over(&mut self.free, range, rows, len, regions);
        if self.parts.push(part).is_err() {
            add_part(&mut self.free, &part);
            return Err(AdoptFault::Room(RoomFault::NoMemory));
        }
        match seal_rows(self.alloc, &mut self.disk, &part, rows) {
            Ok(()) => {
                self.sealed = range.last;
                self.entry = Snapshot::of(&self.disk);
                Ok(())
            }
            Err(refusal) => {
                self.parts.truncate(self.parts.len() - 1);
                match refusal {
                    DiskRefusal::Failed => {
                        add_part(&mut self.lost, &part);
                        self.is_shut = true;
                        Err(AdoptFault::Room(RoomFault::Disk))
                    }
                    DiskRefusal::NoMemory => {
                        add_part(&mut self.free, &part);
                        Err(AdoptFault::Room(RoomFault::NoMemory))
                    }
                }
            }
        }
    }
}
