//! Merging two parts node by node, through an eye.

ghost use Rattle.std.specs.Prelude.{◌≡◌, ℕ, ◌+◌, ◌-◌, ◌*◌, ◌<◌, ◌≤◌, ◌++◌, ◌&&◌, false, IfOk, IfSome, IsErrOf, MatchResult, OnErr, OnOk, List, length, min, Option, Some, None, Ok, option_map};
ghost use Rattle.partition_merge.specs.Cited.{AllFrom, CountsFaults, Eye, HasBadEntry, HasBadRow, Image, IsSeen, NoDamage, Row, SameEye, Searches, TellsRows, body_len, index_entry, is_node_below, merged, rows_len, rows_of};
ghost use Rattle.fine_model.specs.declared.FetchFault.TheVariants as fetch_fault;
ghost use Rattle.partition_merge.specs.Merging.{FitRows, node_at_head, merged_of};
ghost use Rattle.partition_merge.specs.Pieces.{is_above};
ghost use Rattle.partition_merge.specs.Readable.{IsReadable};
ghost use Rattle.partition_merge.specs.Windows.{nothing_ahead};
ghost use Rattle.partition_merge.specs.Mergers.{behind, node_kept, nodes_left, IsKept, AreKept, SourceAt, StandsAt, Answers, older_part, newer_part, both_left, unread, both_unread, next_len, most_for, BlamesRow, BlamesEntry, TakesRows, IsJoinOf, at_front, start_of, IsMeasureOf, measure_of, IsCounted};

use crate::fold::folded;
use crate::lower;
use crate::order::is_above;
use crate::pass::Pass;
use crate::piece::Tally;
use crate::window::Unread;
use fine_model::{FetchFault, Items, NoMemory, NodeId, Part, Rows};
use log_disk::LogEye;
use node_fetch::{bad_index, read_span};
use partition_index::{IndexEntry, SeekFault, Span, entry_at};
use std::alloc::Global;

/// Where reading a part stands: behind so many of its index entries. The next one is kept once it was read, with its span. A source by
/// itself reads nothing ahead.
#[derive(Clone, Copy)]
pub(crate) struct Source {
    pub(crate) part: Part,
    pub(crate) next: u32,
    pub(crate) head: Option<(IndexEntry, Span)>,
    ahead: Unread,
}

impl Source {
    pub(crate) fn at_start(part: Part) -> Source
        ensures part { result.part ≡ part }
        ensures next { result.next ≡ 0 }
        ensures head { result.head ≡ None }
        ensures ahead { result.ahead ≡ nothing_ahead }
    {
        Source {
            part,
            next: 0,
            head: None,
            ahead: Unread,
        }
    }

    /// The next node of the part, which stays the next one.
    fn peek<E: LogEye>(
        &mut self,
        eye: &mut E,
        region_len: u64,
    ) -> Result<Option<NodeId>, FetchFault>
        requires readable { IsReadable (E.LogEye.state eye.old) region_len self.old }
        ensures eye { Searches (IsErrOf result fetch_fault.Failed) (2 * index_entry) (E.LogEye.state eye.old) (E.LogEye.state eye.new) }
        ensures part { self.new.part ≡ self.old.part }
        ensures next { self.new.next ≡ self.old.next }
        ensures kept { IsKept (E.LogEye.state eye.old).told self.new }
        ensures head { IfOk result (λ node. node ≡ option_map (λ head. head.0.node) self.new.head) }
        ensures end { result ≡ Ok None → nodes_left self.old ≡ 0 }
        ensures ready { IfOk result (λ node. self.new.head ≡ None → nodes_left self.new ≡ 0) }
        ensures ahead { IfOk result (λ node. (E.LogEye.state eye.new).taken + 2 * index_entry * unread self.new ≤ (E.LogEye.state eye.old).taken + 2 * index_entry * unread self.old) }
        ensures taken { (E.LogEye.state eye.new).taken ≤ (E.LogEye.state eye.old).taken + 2 * index_entry * unread self.old }
        ensures good_row { (region at : ℕ) → IsErrOf result (fetch_fault.BadRow region at) → ⊥ }
        ensures bad_index { (region at : ℕ) → IsErrOf result (fetch_fault.BadIndex region at) → HasBadEntry (E.LogEye.state eye.old).told region_len self.old.part (record { region = region; at = at }) }
        ensures exact { (left : List Row) → SourceAt (E.LogEye.state eye.old) self.old left → MatchResult result (λ node. node ≡ node_at_head left) NoDamage }
    {
        if let Some((entry, _)) = self.head {
            return Ok(Some(entry.node));
        }
        if self.next >= self.part.header.nodes {
            return Ok(None);
        }
        match entry_at(eye, &self.part, self.next, region_len) {
            Ok((entry, span)) => {
                self.head = Some((entry, span));
                Ok(Some(entry.node))
            }
            Err(SeekFault::Failed) => Err(FetchFault::Failed),
            Err(SeekFault::BadIndex { at }) => Err(bad_index(&self.part, region_len, at)),
        }
    }

    /// The rows of a node, if it is the next one, which is left behind then.
    fn take<E: LogEye>(
        &mut self,
        alloc: Global,
        eye: &mut E,
        node: NodeId,
        region_len: u64,
    ) -> Result<Rows, FetchFault>
        requires readable { IsReadable (E.LogEye.state eye.old) region_len self.old }
        requires ready { self.old.head ≡ None → nodes_left self.old ≡ 0 }
        requires lowest { IfSome self.old.head (λ head. is_node_below head.0.node node ≡ false) }
        ensures eye { Searches (IsErrOf result fetch_fault.Failed) self.old.part.header.area (E.LogEye.state eye.old) (E.LogEye.state eye.new) }
        ensures part { self.new.part ≡ self.old.part }
        ensures kept { IsKept (E.LogEye.state eye.old).told self.new }
        ensures fit { IfOk result FitRows }
        ensures read { IfOk result (TakesRows (E.LogEye.state eye.old).told node self.old self.new) }
        ensures some { IfOk result (λ rows. node_kept self.old.head ≡ Some node → 1 ≤ length rows) }
        ensures unread { unread self.new ≡ unread self.old }
        ensures no_more { nodes_left self.new ≤ nodes_left self.old }
        ensures fewer { node_kept self.old.head ≡ Some node → nodes_left self.new < nodes_left self.old }
        ensures bad_row { (region at : ℕ) → IsErrOf result (fetch_fault.BadRow region at) → HasBadRow (E.LogEye.state eye.old).told region_len self.old.part node (record { region = region; at = at }) }
        ensures good_index { (region at : ℕ) → IsErrOf result (fetch_fault.BadIndex region at) → ⊥ }
        ensures exact { (left : List Row) → SourceAt (E.LogEye.state eye.old) self.old left → AllFrom node left → node_kept self.old.head ≡ node_at_head left
            → MatchResult result (λ own. own ≡ rows_of node left) NoDamage }
        ensures left { (left : List Row) → SourceAt (E.LogEye.state eye.old) self.old left → AllFrom node left → node_kept self.old.head ≡ node_at_head left
            → SourceAt (E.LogEye.state eye.new) self.new (behind node left) }
        ensures taken { (left : List Row) → SourceAt (E.LogEye.state eye.old) self.old left → AllFrom node left → node_kept self.old.head ≡ node_at_head left
            → (E.LogEye.state eye.new).taken ≤ (E.LogEye.state eye.old).taken + rows_len (rows_of node left) }
    {
        let Some((entry, span)) = self.head else {
            return Ok(Items::new(alloc));
        };
        if entry.node != node {
            return Ok(Items::new(alloc));
        }
        self.head = None;
        self.next += 1;
        read_span(alloc, eye, &self.part, node, span, region_len)
    }
}

/// Moves rows behind others.
fn append(rows: &mut Rows, more: Rows) -> Result<(), NoMemory>
    ensures { OnOk result (rows.new ≡ rows.old ++ more) }
{
    for row in more.into_vec() {
        rows.push(row)?;
    }
    Ok(())
}

/// What the rows of a node in both parts are merged into.
pub(crate) fn joined(
    alloc: Global,
    node: NodeId,
    older: Rows,
    newer: Rows,
) -> Result<Rows, NoMemory>
    requires older { FitRows older }
    requires newer { FitRows newer }
    ensures merged { IfOk result (λ rows. rows ≡ merged_of node (older ++ newer)) }
    ensures fit { IfOk result FitRows }
{
    if let Some(image) = folded(alloc, node, older.as_slice(), newer.as_slice())? {
        let mut rows = Items::new(alloc);
        rows.push(image)?;
        return Ok(rows);
    }
    if older.as_slice().is_empty() {
        return Ok(newer);
    }
    let mut rows = older;
    append(&mut rows, newer)?;
    Ok(rows)
}

/// The number of rows and nodes, the bytes of the rows, and whether the rows ascend strictly by bucket, number and version, as those of
/// a partition do.
#[derive(Clone, Copy, Debug, PartialEq, Eq)]
pub struct Measure {
    pub rows: u32,
    pub nodes: u32,
    pub area: u32,
    pub ordered: bool,
}

impl Measure {
    /// Counts the merged rows of one node, which come behind rows that end with the node `last`. A number that is at its greatest stays there.
    fn add(&mut self, last: &mut Option<NodeId>, tally: Tally)
        ensures rows { self.new.rows ≡ min (self.old.rows + tally.rows) 4294967295 }
        ensures nodes { self.new.nodes ≡ min (self.old.nodes + 1) 4294967295 }
        ensures area { self.new.area ≡ min (self.old.area + tally.area) 4294967295 }
        ensures ordered { self.new.ordered ≡ (self.old.ordered && (is_above last.old tally.node && tally.ordered)) }
        ensures last { last.new ≡ Some tally.node }
    {
        let above = is_above(*last, tally.node);
        self.ordered = self.ordered && (above && tally.ordered);
        *last = Some(tally.node);
        self.nodes = self.nodes.saturating_add(1);
        self.rows = self.rows.saturating_add(tally.rows);
        self.area = self.area.saturating_add(tally.area);
    }
}

/// Two parts that are merged node by node. Each of them is read once, from front to back, and no more than one node's rows are
/// kept. A merger is used with one eye, and after a refusal stands where it stood.
#[derive(Clone, Copy)]
pub struct Merger {
    older: Source,
    newer: Source,
    region_len: u64,
}

impl Merger {
    /// A merger of two parts that stands at their first node. It takes no memory.
    pub fn new(older: Part, newer: Part, region_len: u64) -> Merger
        ensures front { result ≡ at_front older newer region_len }
        ensures older { older_part result ≡ older }
        ensures newer { newer_part result ≡ newer }
        ensures region_len { result.region_len ≡ region_len }
        ensures kept { (known : Option Image) → AreKept known result }
        ensures unread { both_unread result ≡ older.header.nodes + newer.header.nodes }
        ensures stands { (eye : Eye) (a b : List Row) → TellsRows eye older a → TellsRows eye newer b → StandsAt eye result a b }
    {
        Merger {
            older: Source::at_start(older),
            newer: Source::at_start(newer),
            region_len,
        }
    }

    /// The merged rows of the next node, or None where no node was left of both parts. With None, and with each refusal, the merger
    /// stands where it stood, with the same entries kept.
    ///
    /// They are what the node's rows are merged into, as they were read of the spans that the next entries give. A part is passed over
    /// only where no node is left of it, or its next entry names a higher node, also where the bytes of the other part are bad. There
    /// is at least one row. Where the eye tells
    /// its bytes, and both parts are in the grammar and have their headers, the lists of all calls together are exactly the merged
    /// rows. `BadRow` comes only with a place of the disk that, by the bytes read for this node, has a bad row, and `BadIndex` only
    /// with the place of an index entry, which is bad by the bytes that the eye tells: neither comes in the grammar. `Failed` comes
    /// only where the eye's count of faults rose in this call. The eye is as before but for its counts. In the grammar it takes at
    /// most 28 bytes for each index entry that this call is the first to read, and the node's rows.
    pub fn next_node<E: LogEye>(
        &mut self,
        alloc: Global,
        eye: &mut E,
    ) -> Result<Option<Rows>, FetchFault>
        requires older { IsSeen (E.LogEye.state eye.old) (older_part self.old) }
        requires newer { IsSeen (E.LogEye.state eye.old) (newer_part self.old) }
        requires region_len { self.old.region_len ≡ (E.LogEye.state eye.old).region_len }
        requires kept { AreKept (E.LogEye.state eye.old).told self.old }
        ensures eye { Searches (IsErrOf result fetch_fault.Failed) (most_for self.old) (E.LogEye.state eye.old) (E.LogEye.state eye.new) }
        ensures older { older_part self.new ≡ older_part self.old }
        ensures newer { newer_part self.new ≡ newer_part self.old }
        ensures region_len { self.new.region_len ≡ self.old.region_len }
        ensures kept { AreKept (E.LogEye.state eye.old).told self.new }
        ensures fit { IfOk result (λ found. IfSome found FitRows) }
        ensures some { IfOk result (λ found. IfSome found (λ rows. 1 ≤ length rows)) }
        ensures read { IfOk result (λ found. IfSome found (IsJoinOf (E.LogEye.state eye.old).told self.old self.new)) }
        ensures end { result ≡ Ok None → both_left self.old ≡ 0 }
        ensures ended { result ≡ Ok None → self.new ≡ self.old }
        ensures refused { OnErr result (self.new ≡ self.old) }
        ensures fewer { IfOk result (λ found. IfSome found (λ rows. both_left self.new < both_left self.old)) }
        ensures bad_row { (region at : ℕ) → IsErrOf result (fetch_fault.BadRow region at) → BlamesRow (E.LogEye.state eye.old).told self.old (record { region = region; at = at }) }
        ensures bad_index { (region at : ℕ) → IsErrOf result (fetch_fault.BadIndex region at) → BlamesEntry (E.LogEye.state eye.old).told self.old (record { region = region; at = at }) }
        ensures exact { (older newer : List Row) → StandsAt (E.LogEye.state eye.old) self.old older newer → MatchResult result (Answers (E.LogEye.state eye.new) self.new older newer) NoDamage }
        ensures ahead { (older newer : List Row) → StandsAt (E.LogEye.state eye.old) self.old older newer
            → IfOk result (λ found. (E.LogEye.state eye.new).taken + 28 * both_unread self.new ≤ (E.LogEye.state eye.old).taken + (28 * both_unread self.old + next_len older newer)) }
        ensures taken { (older newer : List Row) → StandsAt (E.LogEye.state eye.old) self.old older newer
            → (E.LogEye.state eye.new).taken ≤ (E.LogEye.state eye.old).taken + (28 * both_unread self.old + next_len older newer) }
    {
        let mut pass = *self;
        let older = pass.older.peek(eye, self.region_len)?;
        let newer = pass.newer.peek(eye, self.region_len)?;
        let Some(node) = lower(older, newer) else {
            return Ok(None);
        };
        let older = pass.older.take(alloc, eye, node, self.region_len)?;
        let newer = pass.newer.take(alloc, eye, node, self.region_len)?;
        match joined(alloc, node, older, newer) {
            Ok(rows) => {
                *self = pass;
                Ok(Some(rows))
            }
            Err(_) => Err(FetchFault::NoMemory),
        }
    }

    /// The numbers of all merged rows, which are read once from the first node on, and whether they are in order. The merger stays where
    /// it stands.
    ///
    /// Where the eye tells its bytes, both parts are in the grammar and have their headers, and the merged rows have fewer than 2^32
    /// bytes, the answer is exact. Whatever was read, it is that of lists of rows, one a node, as `next_node` hands them out from the
    /// first node on until none is left: the rows and the bytes of all lists, the number of lists, and whether the rows of all lists
    /// together are in order with no node in two lists, where a number above 2^32 - 1 is told as 2^32 - 1. The three numbers are 0
    /// together, and there are no more nodes than rows, and than the headers of both parts say. Both parts are read in blocks, for which
    /// memory is taken at the start: where the eye tells its bytes, in the grammar or not, it takes each byte of both bodies at most once.
    /// The faults are those of `next_node`.
    pub fn measure<E: LogEye>(&mut self, alloc: Global, eye: &mut E) -> Result<Measure, FetchFault>
        requires older { IsSeen (E.LogEye.state eye.old) (older_part self.old) }
        requires newer { IsSeen (E.LogEye.state eye.old) (newer_part self.old) }
        requires region_len { self.old.region_len ≡ (E.LogEye.state eye.old).region_len }
        ensures stays { self.new ≡ self.old }
        ensures sums { IfOk result (IsMeasureOf (E.LogEye.state eye.old).told (start_of self.old)) }
        ensures counted { IfOk result IsCounted }
        ensures few { IfOk result (λ measure. measure.nodes ≤ (older_part self.old).header.nodes + (newer_part self.old).header.nodes) }
        ensures same { SameEye (E.LogEye.state eye.old) (E.LogEye.state eye.new) }
        ensures counts { CountsFaults (IsErrOf result fetch_fault.Failed) (E.LogEye.state eye.old) (E.LogEye.state eye.new) }
        ensures bad_row { (region at : ℕ) → IsErrOf result (fetch_fault.BadRow region at) → BlamesRow (E.LogEye.state eye.old).told self.old (record { region = region; at = at }) }
        ensures bad_index { (region at : ℕ) → IsErrOf result (fetch_fault.BadIndex region at) → BlamesEntry (E.LogEye.state eye.old).told self.old (record { region = region; at = at }) }
        ensures exact { (older newer : List Row) → TellsRows (E.LogEye.state eye.old) (older_part self.old) older → TellsRows (E.LogEye.state eye.old) (newer_part self.old) newer
            → rows_len (merged older newer) < 4294967296 → MatchResult result (λ measure. measure ≡ measure_of (merged older newer)) NoDamage }
        ensures once { (image : Image) → (E.LogEye.state eye.old).told ≡ Some image
            → (E.LogEye.state eye.new).taken ≤ (E.LogEye.state eye.old).taken + (body_len (older_part self.old).header + body_len (newer_part self.old).header) }
        ensures taken { (older newer : List Row) → TellsRows (E.LogEye.state eye.old) (older_part self.old) older → TellsRows (E.LogEye.state eye.old) (newer_part self.old) newer
            → (E.LogEye.state eye.new).taken ≤ (E.LogEye.state eye.old).taken + (28 * ((older_part self.old).header.nodes + (newer_part self.old).header.nodes) + (rows_len older + rows_len newer)) }
    {
        let Ok(mut pass) = Pass::new(alloc, self.older.part, self.newer.part, self.region_len)
        else {
            return Err(FetchFault::NoMemory);
        };
        let mut measure = Measure {
            rows: 0,
            nodes: 0,
            area: 0,
            ordered: true,
        };
        let mut last = None;
        while let Some(found) = pass.next_node(alloc, eye, false)? {
            measure.add(&mut last, found.into_tally());
        }
        Ok(measure)
    }
}
