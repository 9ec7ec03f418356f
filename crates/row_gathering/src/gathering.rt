//! Gathering the rows of parts.

ghost use Rattle.std.specs.Prelude.{◌≡◌, ◌≢◌, ◌⊎◌, ◌+◌, ◌<◌, ◌≤◌, [], Any, IfNone, IfOk, IfSome, IsErrOf, IsTrue, List, drop, false, length, take};
ghost use Rattle.std.specs.List.{AllByRecursion};
ghost use Rattle.fine_model.specs.declared.Row.{Row};
ghost use Rattle.fine_model.specs.Regions.{body_len};
ghost use Rattle.fine_model.specs.RowBytes.{short_header};
ghost use Rattle.log_disk.specs.Disk.{OnlyFails};
ghost use Rattle.log_disk.specs.declared.refusal.DiskRefusal.TheVariants as DiskRefusal;
ghost use Rattle.node_record.specs.Keys.{AreRows};
ghost use Rattle.partition_index.specs.Parts.{LiesIn};
ghost use Rattle.row_gathering.specs.Gathering.{Declines, GathersRows, OnlyReads, bodies_len};
ghost use Rattle.row_gathering.specs.Steps.{AddsRows, AreRead, Arranges, FitTogether, IsAlone, LacksPart, NoneInOrder, are_up, keys_from};

use crate::body::test_body;
use fine_model::format::{BODY_START, INDEX_ENTRY, ROW_FRONT};
use fine_model::{Header, Part, body_start};
use log_disk::{DiskRefusal, LogDisk, NoMemory};
use node_record::RowAt;
use std::alloc::Global;

/// Rows of a partition: their bytes, part behind part, and where each row lies in them, in the order of node and version.
#[derive(Drop)]
pub struct Gathered {
    pub bytes: Vec<u8>,
    pub keys: Vec<RowAt>,
}

/// The rows of parts that follow each other, for one part that has them all, in one region: of each node those of the first part, then those of the next.
///
/// Each part has its header, as `parts` tells it, and lies in regions of the disk. `None`: a part lies over several regions, the bodies of all parts
/// do not fit one region, a body is not in the grammar, or the rows of all parts, in this order, are not in the order of their versions at some node. `Failed` comes only
/// where a read of the disk failed in this call; nothing of the disk is changed but its counts, whatever the answer. Each body is read once.
pub fn gather<D: LogDisk>(
    alloc: Global,
    disk: &mut D,
    parts: &[Part],
) -> Result<Option<Gathered>, DiskRefusal>
    requires lie { AllByRecursion (λ p. LiesIn (D.state disk.old).region_len p.header) parts.now }
    requires there { AllByRecursion (λ p. p.region < (D.state disk.old).regions) parts.now }
    ensures disk { OnlyReads (IsErrOf result DiskRefusal.Failed) (D.state disk.old) (D.state disk.new) }
    ensures rows { IfOk result (λ found. IfSome found (GathersRows (D.state disk.old) parts.now)) }
    ensures none { IfOk result (λ found. IfNone found (Declines (D.state disk.old) parts.now)) }
{
    let Some(len) = bodies_len(parts, disk.region_len()) else {
        return Ok(None);
    };
    // Each index is read behind the rows of its part, and leaves its place to the rows of the next.
    let mut bytes = zeros(alloc, len)?;
    let mut keys = Vec::with_capacity(alloc, most_rows(parts, len))?;
    let Some(end) = read_parts(disk, parts, &mut bytes[..], &mut keys)? else {
        return Ok(None);
    };
    bytes.truncate(end);
    let found = arrange(bytes, keys)?;
    Ok(found)
}

/// So many zeros.
fn zeros(alloc: Global, len: u64) -> Result<Vec<u8>, NoMemory>
    ensures { IfOk result (λ bytes. length bytes.items ≡ len) }
{
    let bytes = vec![in alloc; 0; len as usize]?;
    Ok(bytes)
}

/// How many bytes the bodies of parts have together, where each lies in one region and all fit one.
fn bodies_len(parts: &[Part], region_len: u64) -> Option<u64>
    requires { AllByRecursion (λ p. LiesIn region_len p.header) parts.now }
    ensures fit { IfSome result (FitTogether region_len parts.now) }
    ensures none { IfNone result (Any (λ p. p.header.regions ≢ 1) parts.now ⊎ (region_len < short_header + bodies_len parts.now)) }
{
    let mut end = BODY_START;
    for part in parts {
        if part.header.regions != 1 {
            return None;
        }
        if end > region_len {
            return None;
        }
        end += body_len(&part.header);
    }
    (end <= region_len).then_some(end - BODY_START)
}

/// How many bytes the body of a part has.
fn body_len(header: &Header) -> u64
    ensures { result ≡ body_len header.now }
{
    u64::from(header.area) + INDEX_ENTRY as u64 * u64::from(header.nodes)
}

/// How many rows the headers of parts count, but no more than so many bytes can have.
fn most_rows(parts: &[Part], len: u64) -> usize {
    let mut rows: usize = 0;
    for part in parts {
        rows = rows.saturating_add(part.header.rows as usize);
    }
    rows.min(len as usize / ROW_FRONT)
}

/// Reads the rows of all parts into bytes, part behind part, and adds their keys. It answers where they end: none where a body is not in the grammar.
fn read_parts<D: LogDisk>(
    disk: &mut D,
    parts: &[Part],
    bytes: &mut [u8],
    keys: &mut Vec<RowAt>,
) -> Result<Option<usize>, DiskRefusal>
    requires alone { AllByRecursion (IsAlone (D.state disk.old).region_len) parts.now }
    requires there { AllByRecursion (λ p. p.region < (D.state disk.old).regions) parts.now }
    requires long { length bytes.old ≡ bodies_len parts.now }
    requires small { bodies_len parts.now < 4294967296 }
    requires none { keys.old.items ≡ [] }
    ensures len { length bytes.new ≡ length bytes.old }
    ensures within { IfOk result (λ found. IfSome found (λ end. end ≤ length bytes.new)) }
    ensures rows { IfOk result (λ found. IfSome found (λ end. AreRead (D.state disk.old) parts.now (take end bytes.new) keys.new.items)) }
    ensures lacks { IfOk result (λ found. IfNone found (Any (LacksPart (D.state disk.old)) parts.now)) }
    ensures same { (IsErrOf result DiskRefusal.Failed → ⊥) → D.state disk.new ≡ D.state disk.old }
    ensures failed { IsErrOf result DiskRefusal.Failed → OnlyFails (D.state disk.old) (D.state disk.new) }
{
    let mut at = 0;
    for part in parts {
        if !read_part(disk, part, bytes, at, keys)? {
            return Ok(None);
        }
        at += part.header.area as usize;
    }
    Ok(Some(at))
}

/// Reads the body of a part behind the first bytes, and adds the keys of its rows: false where it is not in the grammar.
fn read_part<D: LogDisk>(
    disk: &mut D,
    part: &Part,
    bytes: &mut [u8],
    start: usize,
    keys: &mut Vec<RowAt>,
) -> Result<bool, DiskRefusal>
    requires alone { IsAlone (D.state disk.old).region_len part.now }
    requires there { part.now.region < (D.state disk.old).regions }
    requires within { start + body_len part.now.header ≤ length bytes.old }
    requires small { length bytes.old < 4294967296 }
    ensures front { take start bytes.new ≡ take start bytes.old }
    ensures len { length bytes.new ≡ length bytes.old }
    ensures rows { IfOk result (λ good. IsTrue good → AddsRows (D.state disk.old) part.now start bytes.new keys.old.items keys.new.items) }
    ensures lacks { IfOk result (λ good. good ≡ false → LacksPart (D.state disk.old) part.now) }
    ensures same { (IsErrOf result DiskRefusal.Failed → ⊥) → D.state disk.new ≡ D.state disk.old }
    ensures failed { IsErrOf result DiskRefusal.Failed → OnlyFails (D.state disk.old) (D.state disk.new) }
{
    let (_, behind) = bytes.split_at_mut(start);
    let (body, _) = behind.split_at_mut(body_len(&part.header) as usize);
    disk.read(part.region, body_start(part.header.mark), body)?;
    let good = test_body(&part.header, body, start as u32, keys)?;
    Ok(good)
}

/// Rows in the order of their nodes, each node's as they stand: none where its versions do not ascend.
fn arrange(bytes: Vec<u8>, keys: Vec<RowAt>) -> Result<Option<Gathered>, NoMemory>
    requires rows { (rows : List Row) × AreRows bytes.items rows × (keys.items ≡ keys_from 0 rows) }
    ensures rows { (rows : List Row) → AreRows bytes.items rows → keys.items ≡ keys_from 0 rows → IfOk result (λ found. IfSome found (Arranges bytes.items rows)) }
    ensures none { (rows : List Row) → AreRows bytes.items rows → keys.items ≡ keys_from 0 rows → IfOk result (λ found. IfNone found (NoneInOrder rows)) }
{
    let mut keys = keys;
    keys.sort_by(|a, b| a.node.cmp(&b.node))?;
    if !ascend(keys.as_slice()) {
        return Ok(None);
    }
    Ok(Some(Gathered { bytes, keys }))
}

/// Whether keys ascend strictly by node and version.
fn ascend(keys: &[RowAt]) -> bool
    ensures { result ≡ are_up keys.now }
{
    keys.is_sorted_by(|a, b| a.node.cmp(&b.node).then(a.version.cmp(&b.version)).is_lt())
}
