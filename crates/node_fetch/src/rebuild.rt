//! A node as the parts of a log leave it.

ghost use Rattle.std.specs.Prelude.{◌≡◌, ℕ, ◌+◌, ◌≤◌, IfOk, IfErr, IsErrOf, MatchResult, List, Any};
ghost use Rattle.std.specs.List.{AllByRecursion, list_any};
ghost use Rattle.fine_model.specs.declared.Row.{Row};
ghost use Rattle.fine_model.specs.declared.FetchFault.TheVariants as fetch_fault;
ghost use Rattle.fine_model.specs.BoundLaws.{FitsNode};
ghost use Rattle.fine_model.specs.Merge.{is_image};
ghost use Rattle.fine_model.specs.Nodes.{content, replay, rows_of};
ghost use Rattle.fine_model.specs.RowBytes.{FitsRec, FitsRow, greatest, rows_len};
ghost use Rattle.fine_model.specs.Seek.{most_taken};
ghost use Rattle.partition_index.specs.Parts.{IsSeen};
ghost use Rattle.partition_index.specs.Search.{Searches, TellsRows};
ghost use Rattle.node_fetch.specs.Fetches.{IsFetched, SeesAll};
ghost use Rattle.node_fetch.specs.Fetched.{ReadsRows, IsReplayOf, HasBadRow, HasBadEntry, NoDamage, TellsParts, most_sought, most_read};

use crate::fault::bad_index;
use crate::replay::{base, replayed_moved};
use crate::span::read_span;
use fine_model::{FetchFault, Items, Node, NodeId, Part, Parts, Rec, Row, Rows};
use log_disk::LogEye;
use partition_index::{SeekFault, seek};
use std::alloc::Global;

/// Whether rows have an image, which forgets what stood before.
fn has_image(rows: &[Row]) -> bool
    ensures { result ≡ list_any (λ row. is_image row.rec) rows.now }
{
    rows.iter().any(|row| matches!(
        &row.rec,
        Rec::HeadImage { .. } | Rec::LeafImage { .. } | Rec::InnerImage { .. }
    ))
}

/// The rows of a node in one part.
fn part_rows<E: LogEye>(
    alloc: Global,
    eye: &mut E,
    part: &Part,
    node: NodeId,
    region_len: u64,
) -> Result<Rows, FetchFault>
    requires seen { IsSeen (E.LogEye.state eye.old) part.now }
    requires region_len { region_len ≡ (E.LogEye.state eye.old).region_len }
    ensures eye { Searches (IsErrOf result fetch_fault.Failed) (most_taken part.now.header.nodes + part.now.header.area) (E.LogEye.state eye.old) (E.LogEye.state eye.new) }
    ensures fit { IfOk result (AllByRecursion (FitsRow part.now.header.mark)) }
    ensures read { IfOk result (ReadsRows (E.LogEye.state eye.old) node part.now) }
    ensures bad_row { (region at : ℕ) → IsErrOf result (fetch_fault.BadRow region at) → HasBadRow (E.LogEye.state eye.old).told region_len part.now node (record { region = region; at = at }) }
    ensures bad_index { (region at : ℕ) → IsErrOf result (fetch_fault.BadIndex region at) → HasBadEntry (E.LogEye.state eye.old).told region_len part.now (record { region = region; at = at }) }
    ensures exact { (rows : List Row) → TellsRows (E.LogEye.state eye.old) part.now rows → MatchResult result (λ own. own ≡ rows_of node rows) NoDamage }
    ensures taken { (rows : List Row) → TellsRows (E.LogEye.state eye.old) part.now rows
        → (E.LogEye.state eye.new).taken ≤ (E.LogEye.state eye.old).taken + (most_taken part.now.header.nodes + rows_len (rows_of node rows)) }
{
    let span = match seek(eye, part, node, region_len) {
        Ok(Some(span)) => span,
        Ok(None) => return Ok(Items::new(alloc)),
        Err(SeekFault::Failed) => return Err(FetchFault::Failed),
        Err(SeekFault::BadIndex { at }) => return Err(bad_index(part, region_len, at)),
    };
    read_span(alloc, eye, part, node, span, region_len)
}

/// A node after rows, which are given up.
fn after(alloc: Global, before: (Node, u64), rows: Rows) -> Result<(Node, u64), FetchFault>
    requires node { FitsNode before.0 }
    requires rows { AllByRecursion (λ row. FitsRec row.rec) rows }
    ensures replay { IfOk result (λ after. after ≡ replay before rows) }
    ensures fits { IfOk result (λ after. FitsNode after.0) }
    ensures version { before.1 ≤ greatest → AllByRecursion (λ row. row.version ≤ greatest) rows → IfOk result (λ after. after.1 ≤ greatest) }
    ensures err { IfErr result (λ e. e ≡ fetch_fault.NoMemory) }
{
    replayed_moved(alloc, before, rows).map_err(|_| FetchFault::NoMemory)
}

/// The node as some parts leave it: the newest part is probed first, and those before it only where it has no image of the node.
fn rebuilt<E: LogEye>(
    alloc: Global,
    eye: &mut E,
    parts: &[Part],
    node: NodeId,
    region_len: u64,
) -> Result<(Node, u64), FetchFault>
    requires { SeesAll (E.LogEye.state eye.old) region_len parts.now }
    ensures eye { Searches (IsErrOf result fetch_fault.Failed) (most_read parts.now) (E.LogEye.state eye.old) (E.LogEye.state eye.new) }
    ensures fits { IfOk result (λ found. FitsNode found.0) }
    ensures version { IfOk result (λ found. found.1 ≤ greatest) }
    ensures fetched { IsFetched parts.now node region_len (E.LogEye.state eye.old) (E.LogEye.state eye.new) result }
{
    let Some((newest, older)) = parts.split_last() else {
        return Ok(base(alloc, node));
    };
    let rows = part_rows(alloc, eye, newest, node, region_len)?;
    if has_image(rows.as_slice()) {
        return after(alloc, base(alloc, node), rows);
    }
    let before = rebuilt(alloc, eye, older, node, region_len)?;
    after(alloc, before, rows)
}

/// The content and the version of a node that its rows in the parts leave, in the order of the parts.
///
/// The parts are probed from the newest back, up to one that has an image of the node, and its rows from there on are replayed:
/// those of the spans that the entries of the node give, by the bytes that were read. Where the eye tells its bytes, and each part
/// is in the grammar and has its header, the answer is exact, also where the node is `Broken`; of a part that is so, the rows are exact
/// also where other parts are not. The version is at most 2^62. `BadRow` comes only with a place of
/// the disk that, by the bytes read in this call, has a bad row of the node's span, and `BadIndex` only with the place of an index
/// entry, which is bad by the bytes that the eye tells: neither comes in the grammar. `Failed` comes only where the eye's count of
/// faults rose in this call. The eye is as before but for its counts. In each part, the bytes that it takes are at most 14 for each
/// binary digit of the part's count of entries, 14 more, and the node's rows there.
pub fn fetch<E: LogEye>(
    alloc: Global,
    eye: &mut E,
    parts: &Parts,
    node: NodeId,
    region_len: u64,
) -> Result<(Node, u64), FetchFault>
    requires seen { AllByRecursion (IsSeen (E.LogEye.state eye.old)) parts.now }
    requires region_len { region_len ≡ (E.LogEye.state eye.old).region_len }
    ensures eye { Searches (IsErrOf result fetch_fault.Failed) (most_read parts.now) (E.LogEye.state eye.old) (E.LogEye.state eye.new) }
    ensures fits { IfOk result (λ found. FitsNode found.0) }
    ensures version { IfOk result (λ found. found.1 ≤ greatest) }
    ensures read { IfOk result (IsReplayOf (E.LogEye.state eye.old) parts.now node) }
    ensures bad_row { (region at : ℕ) → IsErrOf result (fetch_fault.BadRow region at) → Any (λ p. HasBadRow (E.LogEye.state eye.old).told region_len p node (record { region = region; at = at })) parts.now }
    ensures bad_index { (region at : ℕ) → IsErrOf result (fetch_fault.BadIndex region at) → Any (λ p. HasBadEntry (E.LogEye.state eye.old).told region_len p (record { region = region; at = at })) parts.now }
    ensures exact { (rows : List Row) → TellsParts (E.LogEye.state eye.old) parts.now rows → MatchResult result (λ found. found ≡ content rows node) NoDamage }
    ensures taken { (rows : List Row) → TellsParts (E.LogEye.state eye.old) parts.now rows
        → (E.LogEye.state eye.new).taken ≤ (E.LogEye.state eye.old).taken + (most_sought parts.now + rows_len (rows_of node rows)) }
{
    rebuilt(alloc, eye, parts.as_slice(), node, region_len)
}
