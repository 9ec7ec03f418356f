//! What no clause says: worked merges, and merging ten thousand nodes from a disk in memory, of which a read may fail.

ghost use Rattle.std.specs.Prelude.{◌≡◌, ◌<◌, ◌≤◌, [], length, IsTrue, IfOk, OnOk};
ghost use Rattle.fine_model.specs.RowBytes.{FitsRec};
ghost use Rattle.fine_model.specs.Merge.{is_ordered};
ghost use Rattle.partition_index.specs.Parts.{IsSeen};
ghost use Rattle.partition_merge.specs.Merging.{FitRows};
ghost use Rattle.partition_merge.specs.Mergers.{AreKept, older_part, newer_part};

use fine_model::{
    Bytes, Copied, FetchFault, Header, Items, NoMemory, NodeId, Part, Rec, Row, Rows,
};
use log_disk::{DiskRefusal, FaultPlan, LogDisk, LogEye, MemDisk, MemEye};
use node_record::write_row;
use partition_index::{IndexEntry, entry_bytes};
use partition_index_tests::ONE_ROW;
use partition_merge::{Blocks, Measure, Merger, merge_rows};
use std::alloc::{AllocError, Global};
use std::test::*;

/// A text of one byte.
fn text(alloc: Global, byte: u8) -> Result<Bytes, NoMemory>
    ensures { IfOk result (λ text. length text ≡ 1) }
{
    Bytes::from_slice(alloc, &[byte])
}

/// What a row says of the key `a`: a put of a value, a deletion, or the image of a leaf that has this key alone, or none.
#[derive(Clone, Copy)]
enum Says {
    Put(u8),
    Del,
    Leaf(u8),
    EmptyLeaf,
}

use Says::{Del, EmptyLeaf, Leaf, Put};

fn put_of(alloc: Global, value: u8) -> Result<Rec, NoMemory>
    ensures { IfOk result FitsRec }
{
    let key = text(alloc, b'a')?;
    let value = text(alloc, value)?;
    Ok(Rec::Put { key, value })
}

fn del_of(alloc: Global) -> Result<Rec, NoMemory>
    ensures { IfOk result FitsRec }
{
    let key = text(alloc, b'a')?;
    Ok(Rec::Del { key })
}

/// The image of a leaf of one pair.
fn leaf_of(alloc: Global, value: u8) -> Result<Rec, NoMemory>
    ensures { IfOk result FitsRec }
{
    let pair = (text(alloc, b'a')?, text(alloc, value)?);
    let mut pairs = Items::new(alloc);
    pairs.push(pair)?;
    Ok(Rec::LeafImage { pairs })
}

fn rec_of(alloc: Global, says: Says) -> Result<Rec, NoMemory>
    ensures { IfOk result FitsRec }
{
    match says {
        Put(value) => put_of(alloc, value),
        Del => del_of(alloc),
        Leaf(value) => leaf_of(alloc, value),
        EmptyLeaf => Ok(Rec::LeafImage {
            pairs: Items::new(alloc),
        }),
    }
}

/// The number of a node, a version, and what a row says.
type Line = (u32, u64, Says);

fn row_of(alloc: Global, line: Line) -> Result<Row, NoMemory>
    ensures rec { IfOk result (λ row. FitsRec row.rec) }
    ensures node { IfOk result (λ row. row.node ≡ record { bucket = 97; number = line.0 }) }
{
    let (number, version, says) = line;
    let rec = rec_of(alloc, says)?;
    Ok(Row {
        node: NodeId { bucket: 97, number },
        version,
        rec,
    })
}

/// Adds a row to a list that has none. Lists are lent to small functions, as here: the drop of one at each exit of a function that owns it
/// costs a check seconds.
fn add(alloc: Global, rows: &mut Rows, line: Line) -> Result<(), NoMemory>
    requires { rows.old ≡ [] }
    ensures order { OnOk result (IsTrue (is_ordered rows.new)) }
    ensures fit { OnOk result (FitRows rows.new) }
{
    rows.push(row_of(alloc, line)?)?;
    Ok(())
}

/// The same, if there is one.
fn add_some(alloc: Global, rows: &mut Rows, line: Option<Line>) -> Result<(), NoMemory>
    requires { rows.old ≡ [] }
    ensures order { OnOk result (IsTrue (is_ordered rows.new)) }
    ensures fit { OnOk result (FitRows rows.new) }
{
    match line {
        Some(line) => add(alloc, rows, line),
        None => Ok(()),
    }
}

/// Whether a row is the one that a line tells.
fn is_told(alloc: Global, row: &Row, line: Line) -> Result<bool, NoMemory> {
    let told = row_of(alloc, line)?;
    Ok(*row == told)
}

/// Whether rows are those that lines tell.
fn are_told(alloc: Global, rows: &Rows, lines: &[Line]) -> Result<bool, NoMemory> {
    if rows.len() != lines.len() {
        return Ok(false);
    }
    for (row, line) in rows.as_slice().iter().zip(lines) {
        if !is_told(alloc, row, *line)? {
            return Ok(false);
        }
    }
    Ok(true)
}

/// Whether two lists are merged to the rows that lines tell.
fn merge_into(alloc: Global, older: &Rows, newer: &Rows, lines: &[Line]) -> Result<bool, NoMemory>
    requires older_order { IsTrue (is_ordered older.now) }
    requires newer_order { IsTrue (is_ordered newer.now) }
    requires older { FitRows older.now }
    requires newer { FitRows newer.now }
{
    let merged = merge_rows(alloc, older, newer)?;
    are_told(alloc, &merged, lines)
}

/// What merging is tried on: a row of the older part and one of the newer part, each if there is one.
type Given = (Option<Line>, Option<Line>);

/// The same, once these rows are in the lists.
fn given_become(
    alloc: Global,
    older: &mut Rows,
    newer: &mut Rows,
    given: Given,
    lines: &[Line],
) -> Result<bool, NoMemory>
    requires older { older.old ≡ [] }
    requires newer { newer.old ≡ [] }
{
    add_some(alloc, older, given.0)?;
    add_some(alloc, newer, given.1)?;
    merge_into(alloc, older, newer, lines)
}

/// Whether two rows, or one, are merged to those that lines tell.
fn merges(alloc: Global, given: Given, lines: &[Line]) -> Result<bool, NoMemory> {
    let mut older = Items::new(alloc);
    let mut newer = Items::new(alloc);
    given_become(alloc, &mut older, &mut newer, given, lines)
}

/// Two puts of 48 bytes become an image of 25.
#[test]
fn two_puts_become_the_image_of_their_node(rt: HostRuntime) -> Result<(), Fail> {
    let puts = (Some((1, 1, Put(b'1'))), Some((1, 2, Put(b'2'))));
    assert!(rt; merges(rt.alloc(), puts, &[(1, 2, Leaf(b'2'))])?);
    Ok(())
}

/// Puts in two nodes stay in the order of nodes, and so do two in one node where a version is wanting between them. The image of one put is
/// longer than the put by one byte.
#[test]
fn puts_without_an_image_stay(rt: HostRuntime) -> Result<(), Fail> {
    let low = (1, 1, Put(b'1'));
    let high = (2, 1, Put(b'2'));
    let behind = (1, 3, Put(b'2'));
    let cases = [(low, high, high), (high, low, high), (low, behind, behind)];
    for (older, newer, last) in cases {
        assert!(rt; merges(rt.alloc(), (Some(older), Some(newer)), &[low, last])?);
    }
    assert!(rt; merges(rt.alloc(), (Some(low), None), &[low])?);
    Ok(())
}

/// A node without a pair is shorter than the deletion that left it so.
#[test]
fn a_deletion_becomes_an_empty_leaf(rt: HostRuntime) -> Result<(), Fail> {
    let deletion = (None, Some((1, 1, Del)));
    assert!(rt; merges(rt.alloc(), deletion, &[(1, 1, EmptyLeaf)])?);
    Ok(())
}

/// The first of ten thousand nodes, and the version and the value of the put in each.
type Puts = (u32, u64, u8);

/// Adds puts to a list that has none.
fn add_many(alloc: Global, rows: &mut Rows, puts: Puts) -> Result<(), NoMemory>
    requires low { puts.0 < 1000000 }
    requires none { rows.old ≡ [] }
    ensures order { OnOk result (IsTrue (is_ordered rows.new)) }
    ensures fit { OnOk result (FitRows rows.new) }
{
    let (first, version, value) = puts;
    for i in 0..10_000u32 {
        let row = row_of(alloc, (first + i, version, Put(value)))?;
        rows.push(row)?;
    }
    Ok(())
}

/// Whether rows are merged with none to themselves.
fn stay(alloc: Global, rows: &Rows, none: &Rows) -> Result<bool, NoMemory>
    requires order { IsTrue (is_ordered rows.now) }
    requires fit { FitRows rows.now }
    requires none { none.now ≡ [] }
{
    let merged = merge_rows(alloc, rows, none)?;
    Ok(merged == *rows)
}

fn is_image(rec: &Rec) -> bool {
    matches!(rec, Rec::LeafImage { .. })
}

/// How many rows two lists are merged to, and whether each of these is a leaf's image of version 2.
fn merged_images(alloc: Global, older: &Rows, newer: &Rows) -> Result<(usize, bool), NoMemory>
    requires older_order { IsTrue (is_ordered older.now) }
    requires newer_order { IsTrue (is_ordered newer.now) }
    requires older { FitRows older.now }
    requires newer { FitRows newer.now }
{
    let merged = merge_rows(alloc, older, newer)?;
    let mut are_images = true;
    for row in merged.as_slice() {
        are_images = are_images && is_image(&row.rec) && row.version == 2;
    }
    Ok((merged.len(), are_images))
}

/// Of a put of each of ten thousand nodes, and of a second one: whether the first stay, and what both are merged to.
fn merge_many(
    alloc: Global,
    older: &mut Rows,
    newer: &mut Rows,
) -> Result<(bool, (usize, bool)), NoMemory>
    requires older { older.old ≡ [] }
    requires newer { newer.old ≡ [] }
{
    add_many(alloc, older, (1, 1, b'1'))?;
    let stay = stay(alloc, older, newer)?;
    add_many(alloc, newer, (1, 2, b'2'))?;
    Ok((stay, merged_images(alloc, older, newer)?))
}

fn merged_many(alloc: Global) -> Result<(bool, (usize, bool)), NoMemory> {
    let mut older = Items::new(alloc);
    let mut newer = Items::new(alloc);
    merge_many(alloc, &mut older, &mut newer)
}

/// A put alone stays, since its image is longer by one byte, and of two puts the image of the second stays.
#[test]
fn ten_thousand_nodes_are_merged(rt: HostRuntime) -> Result<(), Fail> {
    assert_eq!(rt; merged_many(rt.alloc())?, (true, (10_000, true)));
    Ok(())
}

const LEN: u64 = 524_288;

/// Ten thousand nodes of one put each.
const TEN_THOUSAND: Header = Header {
    rows: 10_000,
    nodes: 10_000,
    area: 240_000,
    ..ONE_ROW
};

const OLDER: Part = Part {
    region: 0,
    header: TEN_THOUSAND,
};

const NEWER: Part = Part { region: 1, ..OLDER };

/// Writes the body of rows of 24 bytes, one in each node.
fn write_body(body: &mut Vec<u8>, rows: &Rows) -> Result<(), NoMemory>
    requires { FitRows rows.now }
{
    for row in rows.as_slice() {
        write_row(body, row)?;
    }
    let mut offset = 0u32;
    for row in rows.as_slice() {
        let entry = entry_bytes(&IndexEntry {
            node: row.node,
            offset,
            rows: 1,
        });
        body.extend_from_slice(&entry)?;
        offset = offset.saturating_add(24);
    }
    Ok(())
}

/// A plan by which one read of the first eye fails.
fn plan_of(alloc: Global, fails: u64) -> Result<FaultPlan, AllocError> {
    let mut plan = FaultPlan::none(alloc);
    plan.eye_reads.push((1, fails))?;
    Ok(plan)
}

/// Writes two bodies.
fn fill(disk: &mut MemDisk, older: &[u8], newer: &[u8]) -> Result<(), DiskRefusal>
    requires older { length older.now ≤ 400000 }
    requires newer { length newer.now ≤ 400000 }
    requires count { disk.old.disk.regions ≡ 2 }
    requires len { disk.old.disk.region_len ≡ 524288 }
    requires eyes { disk.old.disk.eyes ≡ [] }
    ensures count { OnOk result (disk.new.disk.regions ≡ 2) }
    ensures len { OnOk result (disk.new.disk.region_len ≡ 524288) }
    ensures synced { OnOk result (disk.new.disk.unsynced ≡ []) }
{
    disk.write(0, 41, older)?;
    disk.write(1, 41, newer)?;
    disk.sync()?;
    Ok(())
}

/// A disk in memory, of whose eye the read of one number fails.
fn disk_of(alloc: Global, fails: u64) -> Result<MemDisk, DiskRefusal>
    ensures count { IfOk result (λ disk. disk.disk.regions ≡ 2) }
    ensures len { IfOk result (λ disk. disk.disk.region_len ≡ 524288) }
    ensures eyes { IfOk result (λ disk. disk.disk.eyes ≡ []) }
{
    let plan = plan_of(alloc, fails)?;
    let disk = MemDisk::new(alloc, 2, LEN, plan)?;
    Ok(disk)
}

/// An eye on two parts, once their bodies are written.
fn open(disk: &mut MemDisk, older: &[u8], newer: &[u8]) -> Result<MemEye, DiskRefusal>
    requires older { length older.now ≤ 400000 }
    requires newer { length newer.now ≤ 400000 }
    requires count { disk.old.disk.regions ≡ 2 }
    requires len { disk.old.disk.region_len ≡ 524288 }
    requires eyes { disk.old.disk.eyes ≡ [] }
    ensures seen { IfOk result (λ eye. IsSeen eye.eye OLDER × IsSeen eye.eye NEWER) }
    ensures len { IfOk result (λ eye. eye.eye.region_len ≡ 524288) }
{
    fill(disk, older, newer)?;
    let _regions = disk.regions();
    let eye = disk.eye(&[0, 1])?;
    Ok(eye)
}

/// An eye on two parts of a disk in memory, of which the read of one number fails.
fn look(alloc: Global, older: &[u8], newer: &[u8], fails: u64) -> Result<MemEye, DiskRefusal>
    requires older { length older.now ≤ 400000 }
    requires newer { length newer.now ≤ 400000 }
    ensures older { IfOk result (λ eye. IsSeen eye.eye OLDER) }
    ensures newer { IfOk result (λ eye. IsSeen eye.eye NEWER) }
    ensures len { IfOk result (λ eye. eye.eye.region_len ≡ 524288) }
{
    let mut disk = disk_of(alloc, fails)?;
    open(&mut disk, older, newer)
}

/// The puts of two parts of ten thousand nodes each, of which five thousand are in both.
const OLD: Puts = (1, 1, b'1');

const NEW: Puts = (5_001, 2, b'2');

/// Adds the rows of these two parts to two lists that have none.
fn add_overlapping(alloc: Global, older: &mut Rows, newer: &mut Rows) -> Result<(), NoMemory>
    requires older { older.old ≡ [] }
    requires newer { newer.old ≡ [] }
    ensures order { OnOk result (IsTrue (is_ordered older.new) × IsTrue (is_ordered newer.new)) }
    ensures fit { OnOk result (FitRows older.new × FitRows newer.new) }
{
    add_many(alloc, older, OLD)?;
    add_many(alloc, newer, NEW)
}

/// Adds puts to a list that has none, and writes their body.
fn add_and_write(
    alloc: Global,
    rows: &mut Rows,
    body: &mut Vec<u8>,
    puts: Puts,
) -> Result<(), NoMemory>
    requires low { puts.0 < 1000000 }
    requires none { rows.old ≡ [] }
{
    add_many(alloc, rows, puts)?;
    write_body(body, rows)
}

fn write_many(alloc: Global, body: &mut Vec<u8>, puts: Puts) -> Result<(), NoMemory>
    requires { puts.0 < 1000000 }
{
    let mut rows = Items::new(alloc);
    add_and_write(alloc, &mut rows, body, puts)
}

/// Writes the bodies of the two parts, and opens an eye on them, of which the read of one number fails.
fn look_through(
    alloc: Global,
    older: &mut Vec<u8>,
    newer: &mut Vec<u8>,
    fails: u64,
) -> Result<MemEye, Fail>
    ensures older { IfOk result (λ eye. IsSeen eye.eye OLDER) }
    ensures newer { IfOk result (λ eye. IsSeen eye.eye NEWER) }
    ensures len { IfOk result (λ eye. eye.eye.region_len ≡ 524288) }
{
    write_many(alloc, older, OLD)?;
    write_many(alloc, newer, NEW)?;
    if older.len() > 400_000 || newer.len() > 400_000 {
        return Err(Fail::from("a long body"));
    }
    match look(alloc, older, newer, fails) {
        Ok(eye) => Ok(eye),
        Err(_) => Err(Fail::from("memory")),
    }
}

/// An eye on these two parts, of which the read of one number fails.
fn look_at_overlapping(alloc: Global, fails: u64) -> Result<MemEye, Fail>
    ensures older { IfOk result (λ eye. IsSeen eye.eye OLDER) }
    ensures newer { IfOk result (λ eye. IsSeen eye.eye NEWER) }
    ensures len { IfOk result (λ eye. eye.eye.region_len ≡ 524288) }
{
    let mut older = Vec::new(alloc);
    let mut newer = Vec::new(alloc);
    look_through(alloc, &mut older, &mut newer, fails)
}

fn push_all(all: &mut Rows, rows: &[Row]) -> Result<(), NoMemory> {
    for row in rows {
        all.push(row.copy()?)?;
    }
    Ok(())
}

/// Adds the rows of all calls to a list.
fn node_by_node<E: LogEye>(
    alloc: Global,
    eye: &mut E,
    mut merger: Merger,
    all: &mut Rows,
) -> Result<(), FetchFault>
    requires older { IsSeen (E.LogEye.state eye.old) (older_part merger) }
    requires newer { IsSeen (E.LogEye.state eye.old) (newer_part merger) }
    requires region_len { merger.region_len ≡ (E.LogEye.state eye.old).region_len }
    requires kept { AreKept (E.LogEye.state eye.old).told merger }
{
    while let Some(rows) = merger.next_node(alloc, eye)? {
        if push_all(all, rows.as_slice()).is_err() {
            return Err(FetchFault::NoMemory);
        }
    }
    Ok(())
}

/// How many blocks there are, and how many bytes they have together.
fn count_blocks<E: LogEye>(
    alloc: Global,
    eye: &mut E,
    blocks: &mut Blocks,
) -> Result<(usize, usize), FetchFault>
    requires older { IsSeen (E.LogEye.state eye.old) (older_part blocks.old.merger) }
    requires newer { IsSeen (E.LogEye.state eye.old) (newer_part blocks.old.merger) }
    requires region_len { blocks.old.merger.region_len ≡ (E.LogEye.state eye.old).region_len }
    requires kept { AreKept (E.LogEye.state eye.old).told blocks.old.merger }
{
    let mut bytes = 0usize;
    for count in 0..1_000usize {
        if !blocks.next(alloc, eye)? {
            return Ok((count, bytes));
        }
        bytes = bytes.saturating_add(blocks.block().len());
    }
    Ok((1_000, bytes))
}

/// Whether the two parts are merged to the rows of a list, once their rows are in two others.
fn merge_to(alloc: Global, older: &mut Rows, newer: &mut Rows, all: &Rows) -> Result<bool, NoMemory>
    requires older { older.old ≡ [] }
    requires newer { newer.old ≡ [] }
{
    add_overlapping(alloc, older, newer)?;
    let whole = merge_rows(alloc, older, newer)?;
    Ok(whole == *all)
}

/// What measuring the two parts gives, and how many bytes were taken then. All calls hand out their rows to a list.
fn measure_and_merge(
    alloc: Global,
    eye: &mut MemEye,
    all: &mut Rows,
) -> Result<(Measure, u64), FetchFault>
    requires older { IsSeen eye.old.eye OLDER }
    requires newer { IsSeen eye.old.eye NEWER }
    requires len { eye.old.eye.region_len ≡ 524288 }
{
    let mut merger = Merger::new(OLDER, NEWER, LEN);
    let measure = merger.measure(alloc, eye)?;
    let taken = eye.taken();
    node_by_node(alloc, eye, merger, all)?;
    Ok((measure, taken))
}

fn measured_and_merged(alloc: Global, all: &mut Rows) -> Result<(Measure, u64), Fail> {
    let mut eye = look_at_overlapping(alloc, 0)?;
    Ok(measure_and_merge(alloc, &mut eye, all)?)
}

/// The same, and whether what was handed out is what merging the lists gives.
fn compare(
    alloc: Global,
    older: &mut Rows,
    newer: &mut Rows,
    all: &mut Rows,
) -> Result<((Measure, u64), bool), Fail>
    requires older { older.old ≡ [] }
    requires newer { newer.old ≡ [] }
{
    let measured = measured_and_merged(alloc, all)?;
    Ok((measured, merge_to(alloc, older, newer, all)?))
}

fn compared(alloc: Global) -> Result<((Measure, u64), bool), Fail> {
    let mut older = Items::new(alloc);
    let mut newer = Items::new(alloc);
    let mut all = Items::new(alloc);
    compare(alloc, &mut older, &mut newer, &mut all)
}

/// Five thousand nodes are in both parts, which have ten thousand each. Measuring takes each byte of both once, and leaves the merger at
/// the first node, and what all calls hand out then is what merging the lists gives.
#[test]
fn parts_are_merged_node_by_node(rt: HostRuntime) -> Result<(), Fail> {
    let measure = Measure {
        rows: 15_000,
        nodes: 15_000,
        area: 10_000 * 24 + 5_000 * 25,
        ordered: true,
    };
    let measured = (measure, 14 * 20_000 + 480_000);
    assert_eq!(rt; compared(rt.alloc())?, (measured, true));
    Ok(())
}

/// The number and the bytes of the blocks of the two parts.
fn blocks_through(alloc: Global, eye: &mut MemEye) -> Option<(usize, usize)>
    requires older { IsSeen eye.old.eye OLDER }
    requires newer { IsSeen eye.old.eye NEWER }
    requires len { eye.old.eye.region_len ≡ 524288 }
{
    match Blocks::new(alloc, OLDER, NEWER, LEN, 65_536) {
        Ok(mut blocks) => count_blocks(alloc, eye, &mut blocks).ok(),
        Err(_) => None,
    }
}

fn blocks(alloc: Global) -> Result<Option<(usize, usize)>, Fail> {
    let mut eye = look_at_overlapping(alloc, 0)?;
    Ok(blocks_through(alloc, &mut eye))
}

/// The rows of fifteen thousand nodes, and an entry for each.
#[test]
fn the_body_comes_in_blocks(rt: HostRuntime) -> Result<(), Fail> {
    assert_eq!(rt; blocks(rt.alloc())?, Some((9, 365_000 + 14 * 15_000)));
    Ok(())
}

/// Merges the two parts through an eye of which the read of one number fails.
fn merge_failing(alloc: Global, fails: u64) -> Result<Result<(), FetchFault>, Fail> {
    let mut eye = look_at_overlapping(alloc, fails)?;
    let mut all = Items::new(alloc);
    let merger = Merger::new(OLDER, NEWER, LEN);
    Ok(node_by_node(alloc, &mut eye, merger, &mut all))
}

/// The first reads and the last one fail in turn; of each node its entry, the next one and its rows are read.
#[test]
fn a_failed_read_is_told(rt: HostRuntime) -> Result<(), Fail> {
    for fails in [1, 2, 3, 4, 5, 6, 7, 59_998, 59_999] {
        let merged = merge_failing(rt.alloc(), fails)?;
        let failed = matches!(merged, Err(FetchFault::Failed));
        assert_eq!(rt; (fails, failed), (fails, fails < 59_999));
    }
    Ok(())
}
