//! Bodies, read.

ghost use Rattle.std.specs.Prelude.{◌≡◌, ◌+◌, ◌*◌, ◌<◌, ◌≤◌, ◌++◌, ◌∷◌, [], IsTrue, length, map, take, drop, ◌↔◌, IfOk, IfErr, OnOk, true};
ghost use Rattle.fine_model.specs.RowBytes.{row_len, index_entry};
ghost use Rattle.fine_model.specs.Merge.{is_ordered};
ghost use Rattle.fine_model.specs.Regions.{body_len};
ghost use Rattle.partition_index.specs.Entries.{bytes_of};
ghost use Rattle.partition_index.specs.Index.{entries_of};
ghost use Rattle.log_partition.specs.Bodies.{HasRows, NamesBadItem, NamesBadRow, AreTheRows, IsTheIndex, HaveLengths};

use crate::fault::DecodeFault;
use crate::header::field;
use fine_model::format::INDEX_ENTRY;
use fine_model::{Header, Items, NoMemory, Row, Rows};
use node_record::{RowFault, read_row, row_len};
use partition_index::{IndexEntry, build, entry_bytes};
use std::alloc::Global;

/// Whether rows that ascend strictly still do so with one more.
fn is_next(rows: &Rows, row: &Row) -> bool
    requires { is_ordered rows.now ≡ true }
    ensures { result ≡ is_ordered (rows.now ++ row.now ∷ []) }
{
    match rows.as_slice().last() {
        Some(last) => {
            let order = last.node.cmp(&row.node);
            order.then(last.version.cmp(&row.version)).is_lt()
        }
        None => true,
    }
}

/// Reads the rows of a body.
fn read_rows(alloc: Global, header: &Header, body: &[u8]) -> Result<Rows, DecodeFault>
    requires { header.now.area ≤ length body.now }
    ensures ok { IfOk result (AreTheRows header.now body.now) }
    ensures err { IfErr result (NamesBadRow header.now body.now) }
{
    let area = &body[..header.area as usize];
    let mut rows = Items::new(alloc);
    let mut at = 0;
    for _ in 0..header.rows {
        let (row, end) = match read_row(alloc, area, at, header.mark) {
            Ok(found) => found,
            Err(RowFault::Bad { at: _ }) => return Err(DecodeFault::Bad { at: at as u32 }),
            Err(RowFault::NoMemory) => return Err(DecodeFault::NoMemory),
        };
        if !is_next(&rows, &row) {
            return Err(DecodeFault::Bad { at: at as u32 });
        }
        rows.push(row)?;
        at = end;
    }
    if at < area.len() {
        return Err(DecodeFault::Bad { at: at as u32 });
    }
    Ok(rows)
}

/// The lengths of rows.
pub fn lens_of(alloc: Global, rows: &Rows) -> Result<Vec<u32>, NoMemory>
    requires { HaveLengths rows.now }
    ensures { IfOk result (λ lens. lens.items ≡ map row_len rows.now) }
{
    let mut lens = Vec::with_capacity(alloc, rows.len())?;
    for row in rows.as_slice() {
        lens.push(row_len(row))?;
    }
    Ok(lens)
}

/// Whether an index entry stands at a place.
fn stands_at(body: &[u8], at: usize, entry: &IndexEntry) -> bool
    requires { at + index_entry ≤ length body.now }
    ensures { IsTrue result ↔ (take index_entry (drop at body.now) ≡ bytes_of entry.now) }
{
    field::<INDEX_ENTRY>(body, at) == entry_bytes(entry)
}

/// Compares the index of a body with that of its rows.
fn test_index(
    header: &Header,
    body: &[u8],
    rows: &Rows,
    entries: &[IndexEntry],
) -> Result<(), DecodeFault>
    requires rows { AreTheRows header.now body.now rows.now }
    requires entries { entries.now ≡ entries_of rows.now }
    requires long { length body.now ≡ body_len header.now }
    requires small { body_len header.now < 4294967296 }
    requires some { header.now.nodes ≡ 0 → header.now.rows ≡ 0 }
    ensures ok { OnOk result (IsTheIndex header.now body.now rows.now) }
    ensures err { IfErr result (NamesBadItem header.now body.now) }
{
    let nodes = header.nodes as usize;
    let both = nodes.min(entries.len());
    for i in 0..both {
        let at = header.area + INDEX_ENTRY as u32 * i as u32;
        if !stands_at(body, at as usize, &entries[i]) {
            return Err(DecodeFault::Bad { at });
        }
    }
    if both < nodes {
        let at = header.area + INDEX_ENTRY as u32 * both as u32;
        return Err(DecodeFault::Bad { at });
    }
    if both < entries.len() {
        let at = header.area + INDEX_ENTRY as u32 * (nodes - 1) as u32;
        return Err(DecodeFault::Bad { at });
    }
    Ok(())
}

/// Reads the rows and the index of a body, by the header of its partition.
///
/// Ok exactly where the body is in the grammar of the header's mark. Else `Bad` has the offset in the body at which the first bad row
/// or index entry starts, in the order rows, index entries, unless memory ran out.
pub fn decode_body(alloc: Global, header: &Header, body: &[u8]) -> Result<Rows, DecodeFault>
    requires long { length body.now ≡ body_len header.now }
    requires small { body_len header.now < 4294967296 }
    requires some { header.now.nodes ≡ 0 → header.now.rows ≡ 0 }
    ensures ok { IfOk result (HasRows header.now body.now) }
    ensures bad { IfErr result (NamesBadItem header.now body.now) }
{
    let rows = read_rows(alloc, header, body)?;
    let lens = lens_of(alloc, &rows)?;
    let entries = build(alloc, &rows, &lens)?;
    test_index(header, body, &rows, &entries)?;
    Ok(rows)
}
