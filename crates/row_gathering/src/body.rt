//! Bodies that are tested where they lie: rows by their frames, and the index by the keys of the rows.

ghost use Rattle.std.specs.Prelude.{◌≡◌, ◌↔◌, ℕ, ◌+◌, ◌<◌, ◌≤◌, false, IfOk, IfSome, IsTrue, List, drop, length, take};
ghost use Rattle.fine_model.specs.declared.Row.{Row};
ghost use Rattle.fine_model.specs.Regions.{IsBadItem, IsBadRow, body_len};
ghost use Rattle.log_partition.specs.Bodies.{AreTheRows, IsTheIndex};
ghost use Rattle.fine_model.specs.RowBytes.{index_entry};
ghost use Rattle.partition_index.specs.Entries.{bytes_of};
ghost use Rattle.partition_index.specs.Index.{closed, opened};
ghost use Rattle.partition_index.specs.declared.entries.IndexEntry.{IndexEntry};
ghost use Rattle.row_gathering.specs.Steps.{AddsBody, FindsRows, IsBadBody, Passes, is_next, keys_from};

use fine_model::format::INDEX_ENTRY;
use fine_model::{Header, NodeId};
use node_record::{RowAt, frame_at};
use partition_index::{IndexEntry, entry_of};
use std::alloc::AllocError;

/// Whether a body is in the grammar. If so, the keys of its rows, the first of which has the offset `start`, stand behind those that are there. It takes no memory but for the keys.
pub fn test_body(
    header: &Header,
    body: &[u8],
    start: u32,
    keys: &mut Vec<RowAt>,
) -> Result<bool, AllocError>
    requires long { length body.now ≡ body_len header.now }
    requires small { start + body_len header.now < 4294967296 }
    ensures good { IfOk result (λ good. IsTrue good → AddsBody header.now body.now start keys.old.items keys.new.items) }
    ensures bad { IfOk result (λ good. good ≡ false → IsBadBody header.now body.now) }
{
    let first = keys.len();
    if !find_rows(header, body, start, keys)? {
        return Ok(false);
    }
    let good = has_index(header, body, &keys[first..]);
    Ok(good)
}

/// Finds the rows of a body, and puts their keys behind those that are there: false where one is bad.
fn find_rows(
    header: &Header,
    body: &[u8],
    start: u32,
    keys: &mut Vec<RowAt>,
) -> Result<bool, AllocError>
    requires long { header.now.area ≤ length body.now }
    requires small { start + header.now.area < 4294967296 }
    ensures good { IfOk result (λ good. IsTrue good → FindsRows header.now body.now start keys.old.items keys.new.items) }
    ensures bad { IfOk result (λ good. good ≡ false → (at : ℕ) × IsBadRow header.now body.now at) }
{
    let area = &body[..header.area as usize];
    let mut last = None;
    let mut at = 0;
    for _ in 0..header.rows {
        let Ok(frame) = frame_at(area, at, header.mark) else {
            return Ok(false);
        };
        let key = RowAt {
            node: frame.node,
            version: frame.version,
            at: start + at as u32,
            len: (frame.end - at) as u32,
        };
        if !is_next(last, key) {
            return Ok(false);
        }
        keys.push(key)?;
        last = Some(key);
        at = frame.end;
    }
    Ok(at == area.len())
}

/// Whether a key is above the last one, where there is one.
fn is_next(last: Option<RowAt>, key: RowAt) -> bool
    ensures { result ≡ is_next last key }
{
    match last {
        Some(last) => last
            .node
            .cmp(&key.node)
            .then(last.version.cmp(&key.version))
            .is_lt(),
        None => true,
    }
}

/// Whether the index of a body is that of its rows, which have these keys.
fn has_index(header: &Header, body: &[u8], keys: &[RowAt]) -> bool
    requires long { length body.now ≡ body_len header.now }
    requires small { body_len header.now < 4294967296 }
    requires rows { (start : ℕ) × (rows : List Row) × AreTheRows header.now body.now rows × (keys.now ≡ keys_from start rows) }
    ensures good { IsTrue result → (start : ℕ) (rows : List Row) → AreTheRows header.now body.now rows → keys.now ≡ keys_from start rows → IsTheIndex header.now body.now rows }
    ensures bad { result ≡ false → (header.now.nodes ≡ 0 → header.now.rows ≡ 0) → (at : ℕ) × IsBadItem header.now body.now at }
{
    let mut last = None;
    let mut count = 0;
    let mut offset: u32 = 0;
    for key in keys {
        let Some(next) = pass(header, body, count, ended(last, key.node)) else {
            return false;
        };
        count = next;
        last = Some(entry_with(last, key.node, offset));
        offset += key.len;
    }
    match pass(header, body, count, last) {
        Some(all) => all == header.nodes,
        None => false,
    }
}

/// The last entry, where a row of a node does not belong to it.
fn ended(last: Option<IndexEntry>, node: NodeId) -> Option<IndexEntry>
    ensures { (whole : List IndexEntry) (offset : ℕ) → closed whole result ≡ (opened whole last node offset).0 }
{
    match last {
        Some(entry) => {
            if entry.node == node {
                None
            } else {
                Some(entry)
            }
        }
        None => None,
    }
}

/// The last entry with a row of a node more, which starts at an offset.
fn entry_with(last: Option<IndexEntry>, node: NodeId, offset: u32) -> IndexEntry
    requires { IfSome last (λ e. e.rows < 4294967295) }
    ensures { (whole : List IndexEntry) → result ≡ (opened whole last node offset).1 }
{
    if let Some(entry) = last {
        if entry.node == node {
            return IndexEntry {
                rows: entry.rows + 1,
                ..entry
            };
        }
    }
    IndexEntry {
        node,
        offset,
        rows: 1,
    }
}

/// How many entries stand in the index of a body, with one that is whole, where there is one: none where it does not stand behind the others.
fn pass(header: &Header, body: &[u8], count: u32, whole: Option<IndexEntry>) -> Option<u32>
    requires long { length body.now ≡ body_len header.now }
    requires small { body_len header.now < 4294967296 }
    ensures { Passes header.now body.now count whole result }
{
    let Some(entry) = whole else {
        return Some(count);
    };
    if count < header.nodes && stands_at(body, header.area + INDEX_ENTRY as u32 * count, &entry) {
        return Some(count + 1);
    }
    None
}

/// Whether an index entry stands at a place.
fn stands_at(body: &[u8], at: u32, entry: &IndexEntry) -> bool
    requires { at + index_entry ≤ length body.now }
    ensures { IsTrue result ↔ (take index_entry (drop at body.now) ≡ bytes_of entry.now) }
{
    let at = at as usize;
    let mut bytes = [0; INDEX_ENTRY];
    bytes.copy_from_slice(&body[at..at + INDEX_ENTRY]);
    are_in_range(
        entry.node.bucket,
        entry.node.number,
        entry.offset,
        entry.rows,
    );
    // numbers are compared with fewer steps than bytes
    entry_of(bytes) == *entry
}

/// The numbers of an entry are within their types. It does nothing.
fn are_in_range(bucket: u16, number: u32, offset: u32, rows: u32)
    ensures { (bucket < 65536) × (number < 4294967296) × (offset < 4294967296) × (rows < 4294967296) }
{}
