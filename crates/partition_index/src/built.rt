//! The index of rows.

ghost use Rattle.std.specs.Prelude.{◌≡◌, ◌<◌, IsTrue, IfOk, IfSome, OnOk, Some, map};
ghost use Rattle.fine_model.specs.RowBytes.{row_len, rows_len};
ghost use Rattle.partition_index.specs.Index.{is_rising, entries_of, opened, closed, IndexLaw, RisingLaw, NextNodeLaw, PiecesLaw};

use crate::entries::IndexEntry;
use fine_model::{NoMemory, NodeId, Rows};
use std::alloc::Global;

// The last entry after a row more, which starts at an offset. The entry of another node is put behind those that are whole.
fn next_entry(
    whole: &mut Vec<IndexEntry>,
    last: Option<IndexEntry>,
    node: NodeId,
    offset: u32,
) -> Result<IndexEntry, NoMemory>
    requires { IfSome last (λ e. e.rows < 4294967295) }
    ensures { IfOk result (λ e. (whole.new.items, e) ≡ opened whole.old.items last node offset) }
{
    if let Some(entry) = last {
        if entry.node == node {
            return Ok(IndexEntry {
                node: entry.node,
                offset: entry.offset,
                rows: entry.rows + 1,
            });
        }
        whole.push(entry)?;
    }
    Ok(IndexEntry {
        node,
        offset,
        rows: 1,
    })
}

// Puts the last entry behind those that are whole.
fn close(whole: &mut Vec<IndexEntry>, last: Option<IndexEntry>) -> Result<(), NoMemory>
    ensures { OnOk result (whole.new.items ≡ closed whole.old.items last) }
{
    if let Some(entry) = last {
        whole.push(entry)?;
    }
    Ok(())
}

/// The index of rows: for each node, in order, the offset of its first row and the number of its rows. `lens` has the lengths of
/// the rows. The rows are gone over once.
pub fn build(alloc: Global, rows: &Rows, lens: &[u32]) -> Result<Vec<IndexEntry>, NoMemory>
    requires order { IsTrue (is_rising rows.now) }
    requires lens { lens.now ≡ map row_len rows.now }
    requires small { rows_len rows.now < 4294967296 }
    ensures { IfOk result (λ entries. entries.items ≡ entries_of rows.now) }
{
    let mut whole = Vec::new(alloc);
    let mut last: Option<IndexEntry> = None;
    let mut offset: u32 = 0;
    for (i, row) in rows.as_slice().iter().enumerate() {
        last = Some(next_entry(&mut whole, last, row.node, offset)?);
        offset += lens[i];
    }
    close(&mut whole, last)?;
    Ok(whole)
}

/// The bytes of the entries of rows are the bytes of their index, and rows in strict order are in the order that is asked.
///
/// An index can be written node by node: the rows of a higher node put one entry behind those that stand there, at the offset at
/// which the rows before it end, and change no other.
pub fn index_law()
    ensures bytes { IndexLaw }
    ensures strict { RisingLaw }
    ensures next { NextNodeLaw }
    ensures pieces { PiecesLaw }
{}
