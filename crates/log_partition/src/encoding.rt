//! Partitions, written.

ghost use Rattle.std.specs.Prelude.{◌≡◌, ℕ, ◌+◌, ◌*◌, ◌≤◌, ◌++◌, List, IfOk, if◌then◌else◌, length, vec_len, vec_capacity};
ghost use Rattle.fine_model.specs.declared.Row.{Row};
ghost use Rattle.fine_model.specs.RowBytes.{rows_bytes, rows_len, longest_region, index_entry};
ghost use Rattle.fine_model.specs.Merge.{encoded_len};
ghost use Rattle.fine_model.specs.Regions.{header_of, index_bytes};
ghost use Rattle.node_record.specs.Keys.{AreKeysOf};
ghost use Rattle.log_partition.specs.Bodies.{HaveLengths};
ghost use Rattle.log_partition.specs.Encoding.{saturated, names, IsGreatestOf, greater, is_last, AreRowsAt, HasIndexRoom, IsEncoded, EncodeLaw};

use crate::write_header::header_bytes;
use fine_model::format::{BODY_START, INDEX_ENTRY};
use fine_model::{Header, Mark, NoMemory, NodeId, Range, Row, Rows};
use node_record::{RowAt, row_len};
use partition_index::Indexer;
use std::alloc::Global;
use std::cmp::Ordering;

/// The bytes of a header of mark `FLP2`, which stands between the gate and the body.
const FRONT: usize = BODY_START as usize - 1;

/// How many bytes rows take as a partition of one region: 41, their lengths, and 14 for each node that they name. A sum above the
/// greatest number of 64 bits counts as that number.
///
/// The rows may stand in any order. Those that ascend by bucket and number are gone over once; for each row of a node below one before
/// it, the rows before it are looked through. Takes no memory.
pub fn encoded_len(rows: &Rows) -> u64
    requires fit { HaveLengths rows.now }
    ensures { result ≡ saturated (encoded_len rows.now) }
{
    let rows = rows.as_slice();
    let mut len = BODY_START;
    let mut greatest: Option<NodeId> = None;
    for (i, row) in rows.iter().enumerate() {
        len = len.saturating_add(entry_len(&rows[..i], greatest, row.node));
        len = len.saturating_add(u64::from(row_len(row)));
        greatest = greater(greatest, row.node);
    }
    len
}

/// How many bytes the index grows by for a row of a node behind these rows, of which the greatest node is given.
fn entry_len(rows: &[Row], greatest: Option<NodeId>, node: NodeId) -> u64
    requires { IsGreatestOf rows.now greatest }
    ensures { result ≡ (if names node rows.now then 0 else index_entry) }
{
    let Some(greatest) = greatest else {
        return INDEX_ENTRY as u64;
    };
    match greatest.cmp(&node) {
        Ordering::Less => INDEX_ENTRY as u64,
        Ordering::Equal => 0,
        Ordering::Greater => {
            if is_named(rows, node) {
                0
            } else {
                INDEX_ENTRY as u64
            }
        }
    }
}

/// Whether rows name a node.
fn is_named(rows: &[Row], node: NodeId) -> bool
    ensures { result ≡ names node rows.now }
{
    for row in rows {
        if node == row.node {
            return true;
        }
    }
    false
}

/// The greater one of a node and the greatest so far.
fn greater(greatest: Option<NodeId>, node: NodeId) -> Option<NodeId>
    ensures { result ≡ greater greatest node }
{
    match greatest {
        Some(other) => {
            if other.cmp(&node).is_lt() {
                Some(node)
            } else {
                Some(other)
            }
        }
        None => Some(node),
    }
}

/// A partition of one region: its header, and its bytes from byte 1 of the region on.
#[derive(Drop)]
pub struct Partition {
    pub header: Header,
    pub bytes: Vec<u8>,
}

/// A partition of one region, of mark `FLP2`, of rows that lie in bytes where their keys say.
///
/// The keys ascend by bucket, number and version, where equal ones may follow each other, and the partition fits a region. Each row is
/// copied as it stands and nothing is read but its key. Memory is taken once, and nothing else is refused.
pub fn encode(
    alloc: Global,
    range: Range,
    bytes: &[u8],
    keys: &[RowAt],
    region_len: u64,
) -> Result<Partition, NoMemory>
    requires rows { (rows : List Row) × AreRowsAt region_len bytes.now keys.now rows }
    requires region_len { region_len ≤ longest_region }
    ensures { (rows : List Row) → AreRowsAt region_len bytes.now keys.now rows → IfOk result (IsEncoded region_len range rows) }
{
    let header = header_for(range, keys);
    let body = header.area as usize + INDEX_ENTRY * header.nodes as usize;
    let mut out = Vec::with_capacity(alloc, FRONT + body)?;
    put(&mut out, &header_bytes(&header, region_len)[..FRONT]);
    put_rows(&mut out, bytes, keys);
    let bytes = put_index(out, keys);
    Ok(Partition { header, bytes })
}

/// The header of rows that have these keys.
fn header_for(range: Range, keys: &[RowAt]) -> Header
    requires { (bytes : List ℕ) × (rows : List Row) × AreRowsAt longest_region bytes keys.now rows }
    ensures { (bytes : List ℕ) (rows : List Row) → AreRowsAt longest_region bytes keys.now rows → result ≡ header_of range rows }
{
    let mut last = None;
    let mut nodes = 0;
    let mut area = 0;
    for key in keys {
        nodes += entries_more(last, key.node);
        area += key.len;
        last = Some(key.node);
    }
    Header {
        mark: Mark::Two,
        range,
        rows: keys.len() as u32,
        nodes,
        area,
        regions: 1,
        more: [0; 7],
    }
}

/// How many index entries a row of a node brings behind one of the last node.
fn entries_more(last: Option<NodeId>, node: NodeId) -> u32
    ensures { result ≡ (if is_last last node then 0 else 1) }
{
    match last {
        Some(other) => { if other == node { 0 } else { 1 } }
        None => 1,
    }
}

/// Puts bytes for which there is room behind those that stand there.
fn put(out: &mut Vec<u8>, bytes: &[u8])
    requires { vec_len out.old + length bytes.now ≤ vec_capacity out.old }
    ensures items { out.new.items ≡ out.old.items ++ bytes.now }
    ensures capacity { vec_capacity out.old ≤ vec_capacity out.new }
{
    let _room = out.extend_from_slice(bytes);
}

/// Puts rows for which there is room behind what stands there.
fn put_rows(out: &mut Vec<u8>, bytes: &[u8], keys: &[RowAt])
    requires { (rows : List Row) × AreKeysOf bytes.now rows keys.now × (vec_len out.old + rows_len rows ≤ vec_capacity out.old) }
    ensures items { (rows : List Row) → AreKeysOf bytes.now rows keys.now → out.new.items ≡ out.old.items ++ rows_bytes rows }
    ensures capacity { vec_capacity out.old ≤ vec_capacity out.new }
{
    for key in keys {
        let at = key.at as usize;
        put(out, &bytes[at..at + key.len as usize]);
    }
}

/// Puts the index of rows, for which there is room, behind what stands there.
fn put_index(out: Vec<u8>, keys: &[RowAt]) -> Vec<u8>
    requires { HasIndexRoom (vec_len out) (vec_capacity out) keys.now }
    ensures { (bytes : List ℕ) (rows : List Row) → AreRowsAt longest_region bytes keys.now rows → result.items ≡ out.items ++ index_bytes rows }
{
    let mut indexer = Indexer::new(out);
    for key in keys {
        indexer.feed(key.node, key.len);
    }
    indexer.finish()
}

/// Behind an open gate, the bytes of a partition of rows that ascend strictly are in the grammar, with its range and its rows.
pub fn encode_law()
    ensures { EncodeLaw }
{}
