//! Entries and rows of a part that are read through windows on its body.

ghost use Rattle.std.specs.Prelude.{◌≡◌, ℕ, ◌+◌, ◌-◌, ◌*◌, ◌<◌, ◌≤◌, IfErr, IfOk, IfSome, IsErrOf, List, Option, OnOk};
ghost use Rattle.partition_merge.specs.Cited.{AsksEntry, CountsFaults, IsBadRowOf, IsEndOf, IsEntryAt, IsSeen, IsSpanAt, NoDamage, Row, SameEye, TellsRows, body_len, entry_place, span_for};
ghost use Rattle.fine_model.specs.declared.FetchFault.TheVariants as fetch_fault;
ghost use Rattle.partition_merge.specs.Pieces.{FindsRows};
ghost use Rattle.partition_merge.specs.Heads.{ReadsIndex, end_before};
ghost use Rattle.partition_merge.specs.Windows.{HoldsWindow, rows_left};

use crate::piece::{Piece, is_put};
use crate::window::{Fetched, Window};
use fine_model::format::INDEX_ENTRY;
use fine_model::{FetchFault, NodeId, Part};
use log_disk::LogEye;
use node_fetch::{bad_index, frames_of_span};
use partition_index::{IndexEntry, SeekFault, Span, entry_in, entry_place, span_in};

/// An entry of an index that was read before it is asked for, and its number.
#[derive(Clone, Copy)]
pub(crate) struct NumberedEntry {
    pub(crate) number: u32,
    pub(crate) entry: IndexEntry,
}

// An entry of a part's index, by its number: the one that was read before, if it has this number.
#[inline(always)]
fn read_entry<E: LogEye>(
    index: &mut Window,
    next: Option<NumberedEntry>,
    eye: &mut E,
    part: &Part,
    i: u32,
    region_len: u64,
) -> Fetched<IndexEntry>
    requires asked { AsksEntry (E.LogEye.state eye.old) part.now i region_len }
    requires holds { HoldsWindow (E.LogEye.state eye.old).told part.now (body_len part.now.header) index.old }
    requires next { IfSome next (λ n. IsEntryAt (E.LogEye.state eye.old).told part.now n.number n.entry) }
    ensures reads { ReadsIndex (E.LogEye.state eye.old) (E.LogEye.state eye.new) part.now i i region_len index.old index.new result }
    ensures ok { IfOk result (IsEntryAt (E.LogEye.state eye.old).told part.now i) }
{
    if let Some(next) = next {
        if next.number == i {
            return Ok(next.entry);
        }
    }
    let at = entry_place(&part.header, i);
    let len = INDEX_ENTRY as u32;
    let end = part.header.area + len * part.header.nodes;
    index.reach(eye, part, region_len, at, len, end)?;
    let mut bytes = [0; INDEX_ENTRY];
    bytes.copy_from_slice(index.range(at, len));
    match entry_in(part, i, bytes) {
        Ok(entry) => Ok(entry),
        Err(SeekFault::Failed) => Err(FetchFault::Failed),
        Err(SeekFault::BadIndex { at }) => Err(bad_index(part, region_len, at)),
    }
}

// The entry behind one, if there is one.
#[inline(always)]
fn entry_behind<E: LogEye>(
    index: &mut Window,
    eye: &mut E,
    part: &Part,
    i: u32,
    region_len: u64,
) -> Fetched<Option<NumberedEntry>>
    requires asked { AsksEntry (E.LogEye.state eye.old) part.now i region_len }
    requires holds { HoldsWindow (E.LogEye.state eye.old).told part.now (body_len part.now.header) index.old }
    ensures reads { ReadsIndex (E.LogEye.state eye.old) (E.LogEye.state eye.new) part.now i (i + 1) region_len index.old index.new result }
    ensures next { IfOk result (λ behind. IfSome behind (λ n. IsEntryAt (E.LogEye.state eye.old).told part.now n.number n.entry)) }
    ensures end { IfOk result (λ behind. IsEndOf (E.LogEye.state eye.old).told part.now i (end_before part.now behind)) }
{
    let number = i + 1;
    if number < part.header.nodes {
        let entry = read_entry(index, None, eye, part, number, region_len)?;
        return Ok(Some(NumberedEntry { number, entry }));
    }
    Ok(None)
}

// The end of the span of an entry: the offset of the one behind it, or the end of the rows.
#[inline(always)]
fn end_before(part: &Part, behind: Option<NumberedEntry>) -> u32
    ensures { result ≡ end_before part.now behind }
{
    match behind {
        Some(behind) => behind.entry.offset,
        None => part.header.area,
    }
}

/// An entry of a part's index, by its number, and its span, through a window on the index. The entry behind it is kept.
///
/// `BadIndex` comes only with the place of an entry, which is bad by the bytes that the eye tells. Where entries are asked for in their
/// order, each is read once.
#[inline(always)]
pub(crate) fn read_head<E: LogEye>(
    index: &mut Window,
    next: &mut Option<NumberedEntry>,
    eye: &mut E,
    part: &Part,
    i: u32,
    region_len: u64,
) -> Fetched<(IndexEntry, Span)>
    requires asked { AsksEntry (E.LogEye.state eye.old) part.now i region_len }
    requires holds { HoldsWindow (E.LogEye.state eye.old).told part.now (body_len part.now.header) index.old }
    requires next { IfSome next.old (λ n. IsEntryAt (E.LogEye.state eye.old).told part.now n.number n.entry) }
    ensures reads { ReadsIndex (E.LogEye.state eye.old) (E.LogEye.state eye.new) part.now i (i + 1) region_len index.old index.new result }
    ensures next { IfSome next.new (λ n. IsEntryAt (E.LogEye.state eye.old).told part.now n.number n.entry) }
    ensures entry { IfOk result (λ r. IsEntryAt (E.LogEye.state eye.old).told part.now i r.0) }
    ensures span { IfOk result (λ r. IsSpanAt (E.LogEye.state eye.old).told part.now i r.1) }
{
    let entry = read_entry(index, *next, eye, part, i, region_len)?;
    let behind = entry_behind(index, eye, part, i, region_len)?;
    *next = behind;
    match span_in(part, i, &entry, end_before(part, behind)) {
        Ok(span) => Ok((entry, span)),
        Err(SeekFault::Failed) => Err(FetchFault::Failed),
        Err(SeekFault::BadIndex { at }) => Err(bad_index(part, region_len, at)),
    }
}

/// The rows of a node, from the span that its index entry gives, through a window on the rows, in which they stay.
///
/// They are as `read_span` of `node_fetch` reads them, and so are the faults but for want of memory. Where spans are asked for in their
/// order, each byte is read once.
#[inline(always)]
pub(crate) fn find_rows<E: LogEye>(
    rows: &mut Window,
    eye: &mut E,
    part: &Part,
    node: NodeId,
    span: Span,
    region_len: u64,
) -> Fetched<Option<Piece>>
    requires seen { IsSeen (E.LogEye.state eye.old) part.now }
    requires region_len { region_len ≡ (E.LogEye.state eye.old).region_len }
    requires some { 1 ≤ part.now.header.nodes }
    requires order { span.at ≤ span.end }
    requires within { span.end ≤ part.now.header.area }
    requires window { HoldsWindow (E.LogEye.state eye.old).told part.now part.now.header.area rows.old }
    ensures same { SameEye (E.LogEye.state eye.old) (E.LogEye.state eye.new) }
    ensures counts { CountsFaults (IsErrOf result fetch_fault.Failed) (E.LogEye.state eye.old) (E.LogEye.state eye.new) }
    ensures window { HoldsWindow (E.LogEye.state eye.old).told part.now part.now.header.area rows.new }
    ensures found { IfOk result (FindsRows (E.LogEye.state eye.old).told part.now node span rows.new) }
    ensures bad_row { (region at : ℕ) → IsErrOf result (fetch_fault.BadRow region at)
        → IsBadRowOf (E.LogEye.state eye.old).told region_len part.now node span (record { region = region; at = at }) }
    ensures good_index { (region at : ℕ) → IsErrOf result (fetch_fault.BadIndex region at) → ⊥ }
    ensures exact { (own : List Row) → TellsRows (E.LogEye.state eye.old) part.now own → span ≡ span_for own node
        → IfErr result NoDamage }
    ensures order { rows.old.from ≤ span.at → OnOk result (rows.new.from ≤ span.at) }
    ensures ahead { rows.old.from ≤ span.at
        → OnOk result ((E.LogEye.state eye.new).taken + rows_left part.now rows.new ≤ (E.LogEye.state eye.old).taken + rows_left part.now rows.old) }
    ensures taken { rows.old.from ≤ span.at → (E.LogEye.state eye.new).taken ≤ (E.LogEye.state eye.old).taken + rows_left part.now rows.old }
{
    let len = span.end - span.at;
    rows.reach(eye, part, region_len, span.at, len, part.header.area)?;
    let bytes = rows.range(span.at, len);
    match frames_of_span(part, node, span, region_len, bytes)? {
        Some(frames) => Ok(Some(Piece {
            span,
            is_put: is_put(bytes),
            is_image: frames.is_image,
            ascend: frames.ascend,
            first: frames.first,
            last: frames.last,
        })),
        None => Ok(None),
    }
}
