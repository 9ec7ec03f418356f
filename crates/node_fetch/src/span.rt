//! The rows of one node in one part.

ghost use Rattle.std.specs.Prelude.{◌≡◌, ℕ, ◌+◌, ◌-◌, ◌≤◌, ◌<◌, IfOk, IfErr, IsOk, IsErrOf, MatchResult, List, Option, length};
ghost use Rattle.std.specs.List.{AllByRecursion};
ghost use Rattle.log_disk.specs.Disk.{Eye};
ghost use Rattle.fine_model.specs.declared.Row.{Row};
ghost use Rattle.fine_model.specs.declared.FetchFault.TheVariants as fetch_fault;
ghost use Rattle.fine_model.specs.Nodes.{rows_of};
ghost use Rattle.fine_model.specs.Regions.{Image, place_of};
ghost use Rattle.fine_model.specs.RowBytes.{FitsRow};
ghost use Rattle.partition_index.specs.Parts.{IsSeen, LiesIn};
ghost use Rattle.partition_index.specs.Search.{Searches, IsRangeAt, TellsRows, span_for};
ghost use Rattle.node_fetch.specs.Spans.{ReadsAll, StopsAt, IsStop, FramesAll};
ghost use Rattle.node_fetch.specs.Fetched.{HoldsRows, IsBadRowOf, IsRowFault, NoDamage, row_fault};

use crate::frames::{Frames, with_frame};
use fine_model::{FetchFault, Items, Mark, NodeId, Part, Rows};
use log_disk::LogEye;
use node_record::{RowFault, frame_at, read_row};
use partition_index::{Span, place_of, read_body};
use std::alloc::Global;

/// So many zeros.
fn zeros(alloc: Global, len: u32) -> Result<Vec<u8>, FetchFault>
    ensures ok { IfOk result (λ bytes. length bytes.items ≡ len) }
    ensures err { IfErr result (λ e. e ≡ fetch_fault.NoMemory) }
{
    let zeros = vec![in alloc; 0; len as usize];
    zeros.map_err(|_| FetchFault::NoMemory)
}

/// The bytes of a span.
fn read_bytes<E: LogEye>(
    alloc: Global,
    eye: &mut E,
    part: &Part,
    span: &Span,
    region_len: u64,
) -> Result<Vec<u8>, FetchFault>
    requires seen { IsSeen (E.LogEye.state eye.old) part.now }
    requires region_len { region_len ≡ (E.LogEye.state eye.old).region_len }
    requires order { span.now.at ≤ span.now.end }
    requires within { span.now.end ≤ part.now.header.area }
    ensures eye { Searches (IsErrOf result fetch_fault.Failed) (span.now.end - span.now.at) (E.LogEye.state eye.old) (E.LogEye.state eye.new) }
    ensures long { IfOk result (λ bytes. length bytes.items ≡ span.now.end - span.now.at) }
    ensures read { IfOk result (λ bytes. IsRangeAt (E.LogEye.state eye.old).told part.now span.now.at bytes.items) }
    ensures err { IfErr result NoDamage }
{
    let mut bytes = zeros(alloc, span.end - span.at)?;
    match read_body(eye, part, region_len, span.at, &mut bytes) {
        Ok(()) => Ok(bytes),
        Err(_) => Err(FetchFault::Failed),
    }
}

/// Reads bytes as so many rows of a node. `Bad` has the place where none stands, or where bytes are left behind the last one.
fn rows_in(
    alloc: Global,
    bytes: &[u8],
    node: NodeId,
    count: u32,
    mark: Mark,
) -> Result<Rows, RowFault>
    ensures found { IfOk result (ReadsAll mark bytes.now node count) }
    ensures bad { IfErr result (StopsAt mark bytes.now node count) }
{
    let mut rows = Items::new(alloc);
    let mut at = 0;
    for _ in 0..count {
        let (row, end) = match read_row(alloc, bytes, at, mark) {
            Ok(found) => found,
            Err(RowFault::Bad { at: _ }) => return Err(RowFault::Bad { at }),
            Err(RowFault::NoMemory) => return Err(RowFault::NoMemory),
        };
        if row.node != node {
            return Err(RowFault::Bad { at });
        }
        rows.push(row)?;
        at = end;
    }
    if at < bytes.len() {
        return Err(RowFault::Bad { at });
    }
    Ok(rows)
}

/// Finds so many rows of a node in bytes, and answers what their frames tell. It takes no memory. The fault is the place where none
/// stands, or where bytes are left behind the last one.
#[inline(always)]
fn frames_in(bytes: &[u8], node: NodeId, count: u32, mark: Mark) -> Result<Option<Frames>, usize>
    ensures found { IfOk result (FramesAll mark bytes.now node count) }
    ensures bad { IfErr result (IsStop mark bytes.now node count) }
{
    let mut frames = None;
    let mut at = 0;
    for _ in 0..count {
        let frame = match frame_at(bytes, at, mark) {
            Ok(frame) => frame,
            Err(_) => return Err(at),
        };
        if frame.node != node {
            return Err(at);
        }
        frames = Some(with_frame(frames, frame));
        at = frame.end;
    }
    if at < bytes.len() {
        return Err(at);
    }
    Ok(frames)
}

/// A bad row at an offset of the bytes of a span.
fn bad_row(part: &Part, region_len: u64, span: Span, at: usize) -> FetchFault
    requires lies { LiesIn region_len part.now.header }
    requires some { 1 ≤ part.now.header.nodes }
    requires within { span.at + at ≤ part.now.header.area }
    ensures { result ≡ row_fault (place_of region_len part.now.region part.now.header (span.at + at)) }
{
    let (region, at) = place_of(part, region_len, span.at + at as u32);
    FetchFault::BadRow { region, at }
}

/// The rows of a node that the bytes of a span spell, as its index entry gives it.
///
/// By these bytes the span is exactly these rows: all of the node, as many as the entry counts, up to the span's end. Where they are the
/// node's span in a region in the grammar, the rows are the node's rows there. `BadRow` comes only where, by these bytes, the place
/// that it names has no row of the node that ends within the span while the entry counts one there, or has bytes behind the last row.
/// Want of memory is the only other fault, and the only one where the bytes spell such rows. Nothing is read.
pub fn rows_of_span(
    alloc: Global,
    part: &Part,
    node: NodeId,
    span: Span,
    region_len: u64,
    bytes: &[u8],
) -> Result<Rows, FetchFault>
    requires lies { LiesIn region_len part.now.header }
    requires some { 1 ≤ part.now.header.nodes }
    requires order { span.at ≤ span.end }
    requires within { span.end ≤ part.now.header.area }
    requires long { length bytes.now ≡ span.end - span.at }
    ensures fit { IfOk result (AllByRecursion (FitsRow part.now.header.mark)) }
    ensures holds { (known : Option Image) → IsRangeAt known part.now span.at bytes.now → IfOk result (HoldsRows known part.now node span) }
    ensures again { (own : List Row) → ReadsAll part.now.header.mark bytes.now node span.rows own → MatchResult result (λ rows. rows ≡ own) (λ e. e ≡ fetch_fault.NoMemory) }
    ensures unread { IsErrOf result fetch_fault.Failed → ⊥ }
    ensures bad_row { (known : Option Image) → IsRangeAt known part.now span.at bytes.now → (region at : ℕ) → IsErrOf result (fetch_fault.BadRow region at)
        → IsBadRowOf known region_len part.now node span (record { region = region; at = at }) }
    ensures good_index { (region at : ℕ) → IsErrOf result (fetch_fault.BadIndex region at) → ⊥ }
    ensures exact { (eye : Eye) (rows : List Row) → IsSeen eye part.now → IsRangeAt eye.told part.now span.at bytes.now → TellsRows eye part.now rows → span ≡ span_for rows node
        → MatchResult result (λ own. own ≡ rows_of node rows) NoDamage }
{
    match rows_in(alloc, bytes, node, span.rows, part.header.mark) {
        Ok(rows) => Ok(rows),
        Err(RowFault::Bad { at }) => Err(bad_row(part, region_len, span, at)),
        Err(RowFault::NoMemory) => Err(FetchFault::NoMemory),
    }
}

/// What the frames of the rows tell that the bytes of a span spell, each of which was found: the versions of the first and of the last,
/// whether the first is an image, and whether the rows are in order. It takes no memory.
///
/// It is refused where `rows_of_span` is, but never for want of memory: `BadRow` is the only fault. What holds of the rows of
/// `rows_of_span` holds of the rows that the bytes spell. There is nothing to tell where the entry counts no row.
#[inline(always)]
pub fn frames_of_span(
    part: &Part,
    node: NodeId,
    span: Span,
    region_len: u64,
    bytes: &[u8],
) -> Result<Option<Frames>, FetchFault>
    requires lies { LiesIn region_len part.now.header }
    requires some { 1 ≤ part.now.header.nodes }
    requires order { span.at ≤ span.end }
    requires within { span.end ≤ part.now.header.area }
    requires long { length bytes.now ≡ span.end - span.at }
    ensures found { IfOk result (FramesAll part.now.header.mark bytes.now node span.rows) }
    ensures holds { (known : Option Image) → IsRangeAt known part.now span.at bytes.now → (own : List Row) → ReadsAll part.now.header.mark bytes.now node span.rows own
        → HoldsRows known part.now node span own }
    ensures bad { IfErr result IsRowFault }
    ensures bad_row { (known : Option Image) → IsRangeAt known part.now span.at bytes.now → (region at : ℕ) → IsErrOf result (fetch_fault.BadRow region at)
        → IsBadRowOf known region_len part.now node span (record { region = region; at = at }) }
    ensures exact { (eye : Eye) (rows : List Row) → IsSeen eye part.now → IsRangeAt eye.told part.now span.at bytes.now → TellsRows eye part.now rows → span ≡ span_for rows node
        → IsOk result × ((own : List Row) → ReadsAll part.now.header.mark bytes.now node span.rows own → own ≡ rows_of node rows) }
{
    match frames_in(bytes, node, span.rows, part.header.mark) {
        Ok(frames) => Ok(frames),
        Err(at) => Err(bad_row(part, region_len, span, at)),
    }
}

/// Reads the rows of a node from the span that its index entry gives.
///
/// By the bytes that were read, which are the disk's where the eye tells them, the span is exactly these rows: all of the node,
/// as many as the entry counts, up to the span's end. In a region in the grammar they are the node's rows in the part. `BadRow`
/// comes only where, by the bytes that were read, the place that it names has no row of the node that ends within the span while
/// the entry counts one there, or has bytes behind the last row. `Failed` comes only where the eye's count of faults rose in this
/// call. The span is read once.
pub fn read_span<E: LogEye>(
    alloc: Global,
    eye: &mut E,
    part: &Part,
    node: NodeId,
    span: Span,
    region_len: u64,
) -> Result<Rows, FetchFault>
    requires seen { IsSeen (E.LogEye.state eye.old) part.now }
    requires region_len { region_len ≡ (E.LogEye.state eye.old).region_len }
    requires some { 1 ≤ part.now.header.nodes }
    requires order { span.at ≤ span.end }
    requires within { span.end ≤ part.now.header.area }
    ensures eye { Searches (IsErrOf result fetch_fault.Failed) (span.end - span.at) (E.LogEye.state eye.old) (E.LogEye.state eye.new) }
    ensures fit { IfOk result (AllByRecursion (FitsRow part.now.header.mark)) }
    ensures holds { IfOk result (HoldsRows (E.LogEye.state eye.old).told part.now node span) }
    ensures bad_row { (region at : ℕ) → IsErrOf result (fetch_fault.BadRow region at)
        → IsBadRowOf (E.LogEye.state eye.old).told region_len part.now node span (record { region = region; at = at }) }
    ensures good_index { (region at : ℕ) → IsErrOf result (fetch_fault.BadIndex region at) → ⊥ }
    ensures exact { (rows : List Row) → TellsRows (E.LogEye.state eye.old) part.now rows → span ≡ span_for rows node
        → MatchResult result (λ own. own ≡ rows_of node rows) NoDamage }
{
    let bytes = read_bytes(alloc, eye, part, &span, region_len)?;
    rows_of_span(alloc, part, node, span, region_len, &bytes)
}
