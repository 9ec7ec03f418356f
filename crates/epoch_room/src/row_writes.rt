//! Rows that are written as one part: blocks of their bytes, their index, and then the header and the gate.

ghost use Rattle.std.specs.Prelude.{◌≡◌, ◌+◌, ◌<◌, ◌≤◌, ◌++◌, IfOk, IsTrue, OnOk, length, map, vec_len};
ghost use Rattle.std.specs.List.{AllByRecursion};
ghost use Rattle.fine_model.specs.Chain.{regions_of};
ghost use Rattle.fine_model.specs.Merge.{is_ordered};
ghost use Rattle.fine_model.specs.Regions.{body_bytes, body_len, index_bytes};
ghost use Rattle.fine_model.specs.RowBytes.{FitsRec, row_len, rows_bytes, rows_len};
ghost use Rattle.epoch_room.specs.BodyWrites.{HasPlace, WritesBody};
ghost use Rattle.epoch_room.specs.RowWrites.{AreCounted, SealsRows, WritesFull, WritesRows};

use crate::answers::DiskResult;
use crate::body::write_body;
use crate::sealing::{header_len, seal_region};
use fine_model::format::INDEX_ENTRY;
use fine_model::{NoMemory, Part, Row, Rows};
use log_disk::{DiskRefusal, LogDisk};
use log_partition::header_bytes;
use node_record::{row_len, write_row};
use partition_index::{build, entry_bytes};
use std::alloc::Global;

/// As soon as so many bytes of rows are gathered they are written.
const BLOCK: usize = 65536;

/// The lengths of rows.
fn lengths_of(alloc: Global, rows: &[Row]) -> Result<Vec<u32>, NoMemory>
    requires { AllByRecursion (λ row. FitsRec row.rec) rows.now }
    ensures { IfOk result (λ lens. lens.items ≡ map row_len rows.now) }
{
    let mut lens = Vec::with_capacity(alloc, rows.len())?;
    for row in rows {
        lens.push(row_len(row))?;
    }
    Ok(lens)
}

/// Appends the bytes of the index of rows. After `NoMemory` what is there is not told.
fn put_index(alloc: Global, rows: &Rows, out: &mut Vec<u8>) -> Result<(), NoMemory>
    requires fit { AllByRecursion (λ row. FitsRec row.rec) rows.now }
    requires ordered { IsTrue (is_ordered rows.now) }
    requires small { rows_len rows.now < 4294967296 }
    ensures { OnOk result (out.new.items ≡ out.old.items ++ index_bytes rows.now) }
{
    let lens = lengths_of(alloc, rows.as_slice())?;
    let entries = build(alloc, rows, lens.as_slice())?;
    out.reserve(INDEX_ENTRY * entries.len())?;
    for entry in entries.iter() {
        out.extend_from_slice(&entry_bytes(entry))?;
    }
    Ok(())
}

/// Writes bytes of a part's body, however many, by pieces that are shorter than a region.
fn write_long<D: LogDisk>(disk: &mut D, part: &Part, at: u32, bytes: &[u8]) -> DiskResult<()>
    requires place { HasPlace (D.state disk.old) part.now }
    requires within { at + length bytes.now ≤ body_len part.now.header }
    ensures { WritesBody (regions_of part.now) part.now at bytes.now result (D.state disk.old) (D.state disk.new) }
{
    let most = disk.region_len() as usize - 1;
    let mut left = bytes;
    let mut next = at;
    while !left.is_empty() {
        let (front, back) = left.split_at(most.min(left.len()));
        write_body(disk, part, next, front)?;
        next += front.len() as u32;
        left = back;
    }
    Ok(())
}

/// Writes a block of a part's body once it is full, and empties it. Answers where the next byte stands.
fn write_full<D: LogDisk>(
    disk: &mut D,
    part: &Part,
    at: u32,
    block: &mut Vec<u8>,
) -> DiskResult<u32>
    requires place { HasPlace (D.state disk.old) part.now }
    requires within { at + vec_len block.old ≤ body_len part.now.header }
    ensures { WritesFull part.now at block.old.items block.new.items result (D.state disk.old) (D.state disk.new) }
{
    if block.len() < BLOCK {
        return Ok(at);
    }
    write_long(disk, part, at, block.as_slice())?;
    let next = at + block.len() as u32;
    block.clear();
    Ok(next)
}

/// Writes the rows of a part and their index, in blocks.
fn write_rows<D: LogDisk>(alloc: Global, disk: &mut D, part: &Part, rows: &Rows) -> DiskResult<()>
    requires place { HasPlace (D.state disk.old) part.now }
    requires counted { AreCounted part.now.header rows.now }
    ensures { WritesRows part.now (body_bytes rows.now) result (D.state disk.old) (D.state disk.new) }
{
    let mut block = Vec::new(alloc);
    let mut at: u32 = 0;
    for row in rows.as_slice() {
        if write_row(&mut block, row).is_err() {
            return Err(DiskRefusal::NoMemory);
        }
        at = write_full(disk, part, at, &mut block)?;
    }
    if put_index(alloc, rows, &mut block).is_err() {
        return Err(DiskRefusal::NoMemory);
    }
    write_long(disk, part, at, block.as_slice())
}

/// Seals rows as a part whose regions are free: writes its body behind their gates, then the header behind the gate of the lead, syncs, writes
/// the gate, and syncs.
///
/// A crash at any moment leaves what it could leave before, torn behind the gates that were there, or all of the part with any byte at the
/// gate of the lead. After `NoMemory` no gate was touched. It takes memory for the index of the rows and for a block of them.
pub fn seal_rows<D: LogDisk>(
    alloc: Global,
    disk: &mut D,
    part: &Part,
    rows: &Rows,
) -> DiskResult<()>
    requires place { HasPlace (D.state disk.old) part.now }
    requires counted { AreCounted part.now.header rows.now }
    ensures { SealsRows part.now rows.now result (D.state disk.old) (D.state disk.new) }
{
    write_rows(alloc, disk, part, rows)?;
    let bytes = header_bytes(&part.header, disk.region_len());
    seal_region(disk, part.region, &bytes[..header_len(part.header.mark)])
}
