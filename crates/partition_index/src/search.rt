//! The search for a node in the index of a part, through an eye.

ghost use Rattle.std.specs.Prelude.{◌≡◌, ◌⊎◌, ℕ, ◌+◌, ◌*◌, ◌<◌, IfOk, IfErr, IfSome, IsErrOf, List, Option, None, Some, Ok, Err, slice_get};
ghost use Rattle.fine_model.specs.declared.NodeId.{NodeId};
ghost use Rattle.fine_model.specs.declared.Row.{Row};
ghost use Rattle.fine_model.specs.Merge.{nodes_in};
ghost use Rattle.fine_model.specs.Regions.{Image, body_len};
ghost use Rattle.fine_model.specs.Seek.{is_entry, entry_place, most_taken, span_at};
ghost use Rattle.fine_model.specs.RowBytes.{index_entry};
ghost use Rattle.partition_index.specs.declared.entries.SeekFault.TheVariants as fault;
ghost use Rattle.partition_index.specs.Entries.{model_of, entry_for};
ghost use Rattle.partition_index.specs.Parts.{IsSeen};
ghost use Rattle.partition_index.specs.Asking.{AsksEntry};
ghost use Rattle.partition_index.specs.Search.{Searches, IfTold, IsEntryAt, IsNoEntryAt, IsEndOf, IsRangeAt, IsSpanAt, IsSoughtSpan, IsBadAt, LacksNode, MeetsBad, TellsRows, span_for, sought};

use crate::entries::{IndexEntry, SeekFault, Span, entry_of};
use crate::places::read_body;
use fine_model::format::{BUCKETS, INDEX_ENTRY, NODE_NUMBERS};
use fine_model::{Header, NodeId, Part};
use log_disk::LogEye;
use std::cmp::Ordering;

// Whether an entry may stand behind a header.
fn may_stand(header: &Header, entry: &IndexEntry) -> bool
    ensures { result ≡ is_entry header.now (model_of entry.now) }
{
    entry.node.bucket < BUCKETS
        && entry.node.number < NODE_NUMBERS
        && entry.offset < header.area
        && 1 <= entry.rows
        && entry.rows <= header.rows
}

/// The offset in a part's body of an entry of its index, by the entry's number.
pub fn entry_place(header: &Header, i: u32) -> u32
    requires { entry_place header.now i < 4294967296 }
    ensures { result ≡ entry_place header.now i }
{
    header.area + INDEX_ENTRY as u32 * i
}

/// The entry that bytes spell, by its number, if it may stand there.
///
/// Where the bytes are those of the body at the entry's place, so is the entry. `BadIndex` is the only fault, and comes with that
/// place, only where no entry with these bytes may stand there. Nothing is read, and no memory is taken.
pub fn entry_in(part: &Part, i: u32, bytes: [u8; INDEX_ENTRY]) -> Result<IndexEntry, SeekFault>
    requires there { i < part.now.header.nodes }
    requires small { body_len part.now.header < 4294967296 }
    ensures unread { IsErrOf result fault.Failed → ⊥ }
    ensures ok { (known : Option Image) → IsRangeAt known part.now (entry_place part.now.header i) bytes → IfOk result (IsEntryAt known part.now i) }
    ensures bad { (known : Option Image) → IsRangeAt known part.now (entry_place part.now.header i) bytes
        → (at : ℕ) → IsErrOf result (fault.BadIndex at) → IsBadAt known part.now at }
    ensures none { (known : Option Image) → IsRangeAt known part.now (entry_place part.now.header i) bytes
        → (at : ℕ) → IsErrOf result (fault.BadIndex at) → IsNoEntryAt known part.now i at }
{
    let entry = entry_of(bytes);
    if !may_stand(&part.header, &entry) {
        return Err(SeekFault::BadIndex {
            at: entry_place(&part.header, i),
        });
    }
    Ok(entry)
}

// The entry of a number, if it may stand there.
fn read_entry<E: LogEye>(
    eye: &mut E,
    part: &Part,
    i: u32,
    region_len: u64,
) -> Result<IndexEntry, SeekFault>
    requires asked { AsksEntry (E.LogEye.state eye.old) part.now i region_len }
    ensures eye { Searches (IsErrOf result fault.Failed) index_entry (E.LogEye.state eye.old) (E.LogEye.state eye.new) }
    ensures ok { IfOk result (IsEntryAt (E.LogEye.state eye.old).told part.now i) }
    ensures bad { (at : ℕ) → IsErrOf result (fault.BadIndex at) → IsBadAt (E.LogEye.state eye.old).told part.now at }
    ensures none { (at : ℕ) → IsErrOf result (fault.BadIndex at) → IsNoEntryAt (E.LogEye.state eye.old).told part.now i at }
{
    let at = entry_place(&part.header, i);
    let mut bytes = [0; INDEX_ENTRY];
    if read_body(eye, part, region_len, at, &mut bytes).is_err() {
        return Err(SeekFault::Failed);
    }
    entry_in(part, i, bytes)
}

// The end of the span of an entry: the offset of the next one, or the end of the rows.
fn end_of<E: LogEye>(eye: &mut E, part: &Part, i: u32, region_len: u64) -> Result<u32, SeekFault>
    requires asked { AsksEntry (E.LogEye.state eye.old) part.now i region_len }
    ensures eye { Searches (IsErrOf result fault.Failed) index_entry (E.LogEye.state eye.old) (E.LogEye.state eye.new) }
    ensures ok { IfOk result (IsEndOf (E.LogEye.state eye.old).told part.now i) }
    ensures bad { (at : ℕ) → IsErrOf result (fault.BadIndex at) → IsBadAt (E.LogEye.state eye.old).told part.now at }
    ensures next { (at : ℕ) → IsErrOf result (fault.BadIndex at) → (i + 1 < part.now.header.nodes) × IsNoEntryAt (E.LogEye.state eye.old).told part.now (i + 1) at }
{
    if i + 1 < part.header.nodes {
        let next = read_entry(eye, part, i + 1, region_len)?;
        return Ok(next.offset);
    }
    Ok(part.header.area)
}

/// The span of an entry, by its number, from the end that the next entry or the row area gives.
///
/// It goes from the entry's offset to this end. `BadIndex` is the only fault, and comes with the entry's place, only where the span
/// is empty. Nothing is read, and no memory is taken.
pub fn span_in(part: &Part, i: u32, entry: &IndexEntry, end: u32) -> Result<Span, SeekFault>
    requires there { i < part.now.header.nodes }
    requires small { body_len part.now.header < 4294967296 }
    ensures unread { IsErrOf result fault.Failed → ⊥ }
    ensures lies { IfOk result (λ span. (span.at ≡ entry.now.offset) × (span.end ≡ end)) }
    ensures ok { (known : Option Image) → IsEntryAt known part.now i entry.now → IsEndOf known part.now i end → IfOk result (IsSpanAt known part.now i) }
    ensures bad { (known : Option Image) → IsEntryAt known part.now i entry.now → IsEndOf known part.now i end
        → (at : ℕ) → IsErrOf result (fault.BadIndex at) → IsBadAt known part.now at }
    ensures none { (known : Option Image) → IsEntryAt known part.now i entry.now → IsEndOf known part.now i end
        → (at : ℕ) → IsErrOf result (fault.BadIndex at) → IfTold known part.now (λ body. span_at part.now.header body i ≡ Err at) }
{
    if end <= entry.offset {
        return Err(SeekFault::BadIndex {
            at: entry_place(&part.header, i),
        });
    }
    Ok(Span {
        at: entry.offset,
        end,
        rows: entry.rows,
    })
}

// The span of an entry.
fn span_of<E: LogEye>(
    eye: &mut E,
    part: &Part,
    i: u32,
    entry: &IndexEntry,
    region_len: u64,
) -> Result<Span, SeekFault>
    requires asked { AsksEntry (E.LogEye.state eye.old) part.now i region_len }
    requires entry { IsEntryAt (E.LogEye.state eye.old).told part.now i entry.now }
    ensures eye { Searches (IsErrOf result fault.Failed) index_entry (E.LogEye.state eye.old) (E.LogEye.state eye.new) }
    ensures ok { IfOk result (IsSpanAt (E.LogEye.state eye.old).told part.now i) }
    ensures bad { (at : ℕ) → IsErrOf result (fault.BadIndex at) → IsBadAt (E.LogEye.state eye.old).told part.now at }
    ensures none { (at : ℕ) → IsErrOf result (fault.BadIndex at) → IfTold (E.LogEye.state eye.old).told part.now (λ body. span_at part.now.header body i ≡ Err at) }
{
    let end = end_of(eye, part, i, region_len)?;
    span_in(part, i, entry, end)
}

/// An entry of a part's index, by its number, and its span.
///
/// `Failed` comes only where the eye's count of faults rose in this call. `BadIndex` comes only where, by the bytes read in this
/// call, the entry at that offset of the body is none, or the span of the one sought is empty. No memory is taken.
pub fn entry_at<E: LogEye>(
    eye: &mut E,
    part: &Part,
    i: u32,
    region_len: u64,
) -> Result<(IndexEntry, Span), SeekFault>
    requires seen { IsSeen (E.LogEye.state eye.old) part.now }
    requires region_len { region_len ≡ (E.LogEye.state eye.old).region_len }
    requires there { i < part.now.header.nodes }
    ensures eye { Searches (IsErrOf result fault.Failed) (2 * index_entry) (E.LogEye.state eye.old) (E.LogEye.state eye.new) }
    ensures entry { IfOk result (λ r. IsEntryAt (E.LogEye.state eye.old).told part.now i r.0) }
    ensures span { IfOk result (λ r. IsSpanAt (E.LogEye.state eye.old).told part.now i r.1) }
    ensures bad { (at : ℕ) → IsErrOf result (fault.BadIndex at) → IsBadAt (E.LogEye.state eye.old).told part.now at }
    ensures exact { (rows : List Row) → TellsRows (E.LogEye.state eye.old) part.now rows
        → (result ≡ Err fault.Failed) ⊎ ((id : NodeId) × (slice_get (nodes_in rows) i ≡ Some id) × (result ≡ Ok (entry_for rows id, span_for rows id))) }
{
    let entry = read_entry(eye, part, i, region_len)?;
    let span = span_of(eye, part, i, &entry, region_len)?;
    Ok((entry, span))
}

/// The span of a node's rows, or None where the index has no entry of it.
///
/// The index is searched by halves, one entry at a time. In a region in the grammar the answer is exact. On other bytes it is decided by the
/// bytes too, where the eye tells them: it is by the entry to which `sought_entry` comes. A span is that of an entry which names the node, and None comes only
/// where an entry of a lower node and one of a higher node follow each other, or stand at the ends of the index, by the bytes read in this call. `Failed` comes only where the eye's count of faults rose in this call. `BadIndex` comes
/// only where, by the bytes read in this call, the entry at that offset of the body is none, or the span of the one sought is
/// empty. No memory is taken.
pub fn seek<E: LogEye>(
    eye: &mut E,
    part: &Part,
    node: NodeId,
    region_len: u64,
) -> Result<Option<Span>, SeekFault>
    requires seen { IsSeen (E.LogEye.state eye.old) part.now }
    requires region_len { region_len ≡ (E.LogEye.state eye.old).region_len }
    ensures eye { Searches (IsErrOf result fault.Failed) (most_taken part.now.header.nodes) (E.LogEye.state eye.old) (E.LogEye.state eye.new) }
    ensures span { IfOk result (λ found. IfSome found (IsSoughtSpan (E.LogEye.state eye.old).told part.now node)) }
    ensures none { result ≡ Ok None → LacksNode (E.LogEye.state eye.old).told part.now node }
    ensures bad { (at : ℕ) → IsErrOf result (fault.BadIndex at) → IsBadAt (E.LogEye.state eye.old).told part.now at }
    ensures meets { (at : ℕ) → IsErrOf result (fault.BadIndex at) → MeetsBad (E.LogEye.state eye.old).told part.now node at }
    ensures exact { (rows : List Row) → TellsRows (E.LogEye.state eye.old) part.now rows
        → (result ≡ Err fault.Failed) ⊎ (result ≡ Ok (sought rows node)) }
{
    let mut low = 0;
    let mut high = part.header.nodes;
    while low < high {
        let middle = low + (high - low) / 2;
        let entry = read_entry(eye, part, middle, region_len)?;
        match entry.node.cmp(&node) {
            Ordering::Less => low = middle + 1,
            Ordering::Greater => high = middle,
            Ordering::Equal => {
                let span = span_of(eye, part, middle, &entry, region_len)?;
                return Ok(Some(span));
            }
        }
    }
    Ok(None)
}
