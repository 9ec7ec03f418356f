//! Reading a part from front to back, its entries and its rows in blocks.

ghost use Rattle.std.specs.Prelude.{◌≡◌, ℕ, ◌+◌, ◌-◌, ◌<◌, ◌≤◌, ◌++◌, false, IfErr, IfOk, IfSome, IsErrOf, List, MatchResult, None, Ok, OnOk, Option, Some, length, option_map, vec_capacity, vec_len};
ghost use Rattle.partition_merge.specs.Cited.{AllFrom, CountsFaults, HasBadEntry, HasBadRow, Image, IsSeen, LiesIn, NoDamage, Row, SameEye, is_node_below};
ghost use Rattle.fine_model.specs.declared.FetchFault.TheVariants as fetch_fault;
ghost use Rattle.partition_merge.specs.Merging.{FitRows, node_at_head};
ghost use Rattle.partition_merge.specs.Mergers.{behind, node_kept, nodes_left, IsKept, SourceAt, start_at};
ghost use Rattle.partition_merge.specs.Pieces.{HasRows, HoldsIn, IsTaken, LiesWithin, StandsIn, bytes_at, span_bytes};
ghost use Rattle.partition_merge.specs.Streams.{IsInOrder, bytes_left};

use crate::merger::Source;
use crate::piece::Piece;
use crate::through::{NumberedEntry, find_rows, read_head};
use crate::window::{Fetched, Window};
use fine_model::format::INDEX_ENTRY;
use fine_model::{Items, NoMemory, NodeId, Part, Rows};
use log_disk::LogEye;
use node_fetch::rows_of_span;
use partition_index::Span;
use std::alloc::Global;
use std::marker::Model;

/// How many bytes of rows, and of the index, are read at once where no more are asked for. Half a block of rows has room for the longest image, so
/// that a window grows only for longer rows of a node. With a block of 64 KiB that is written, the windows of two parts take 128 KiB.
const ROWS_BLOCK: u32 = 24_576;

const INDEX_BLOCK: u32 = 8_192;

/// A source that is read ahead: the rows and the index of its part each through a window, and of the index one entry, which the end of the span
/// before it was told by. Contracts see the source with what was read ahead of its part.
#[derive(Drop)]
pub(crate) struct Reader {
    source: Source,
    rows: Window,
    index: Window,
    next: Option<NumberedEntry>,
}

impl Model for Reader {
    ghost use Rattle.partition_merge.specs.declared.merger.Source.{Source};

    ghost Value = { Source };

    ghost view = { λ r. record { part = r.source.part; next = r.source.next; head = r.source.head; ahead = record { rows = r.rows; index = r.index; next = r.next } } };
}

impl Reader {
    /// A reader at the first node of a part. All memory but that for spans of more than half a block is taken here.
    pub(crate) fn new(alloc: Global, part: Part) -> Result<Reader, NoMemory>
        ensures { IfOk result (λ reader. reader ≡ start_at part) }
    {
        let index_len = part.header.nodes.saturating_mul(INDEX_ENTRY as u32);
        Ok(Reader {
            source: Source::at_start(part),
            rows: Window::new(alloc, part.header.area, ROWS_BLOCK)?,
            index: Window::new(alloc, index_len, INDEX_BLOCK)?,
            next: None,
        })
    }

    /// The next node of the part, which stays the next one.
    #[inline(always)]
    pub(crate) fn peek<E: LogEye>(
        &mut self,
        eye: &mut E,
        region_len: u64,
    ) -> Fetched<Option<NodeId>>
        requires seen { IsSeen (E.LogEye.state eye.old) self.old.part }
        requires region_len { region_len ≡ (E.LogEye.state eye.old).region_len }
        requires kept { IsKept (E.LogEye.state eye.old).told self.old }
        ensures same { SameEye (E.LogEye.state eye.old) (E.LogEye.state eye.new) }
        ensures counts { CountsFaults (IsErrOf result fetch_fault.Failed) (E.LogEye.state eye.old) (E.LogEye.state eye.new) }
        ensures part { self.new.part ≡ self.old.part }
        ensures next { self.new.next ≡ self.old.next }
        ensures kept { IsKept (E.LogEye.state eye.old).told self.new }
        ensures head { IfOk result (λ node. node ≡ option_map (λ head. head.0.node) self.new.head) }
        ensures end { result ≡ Ok None → nodes_left self.old ≡ 0 }
        ensures ended { result ≡ Ok None → self.new ≡ self.old }
        ensures ready { IfOk result (λ node. self.new.head ≡ None → nodes_left self.new ≡ 0) }
        ensures good_row { (region at : ℕ) → IsErrOf result (fetch_fault.BadRow region at) → ⊥ }
        ensures bad_index { (region at : ℕ) → IsErrOf result (fetch_fault.BadIndex region at) → HasBadEntry (E.LogEye.state eye.old).told region_len self.old.part (record { region = region; at = at }) }
        ensures exact { (left : List Row) → SourceAt (E.LogEye.state eye.old) self.old left → MatchResult result (λ node. node ≡ node_at_head left) NoDamage }
        ensures order { (image : Image) → IsInOrder image self.old → IfOk result (λ node. IsInOrder image self.new) }
        ensures ahead { (image : Image) → IsInOrder image self.old → IfOk result (λ node. (E.LogEye.state eye.new).taken + bytes_left self.new ≤ (E.LogEye.state eye.old).taken + bytes_left self.old) }
        ensures taken { (image : Image) → IsInOrder image self.old → (E.LogEye.state eye.new).taken ≤ (E.LogEye.state eye.old).taken + bytes_left self.old }
    {
        if let Some((entry, _)) = self.source.head {
            return Ok(Some(entry.node));
        }
        if self.source.next >= self.source.part.header.nodes {
            return Ok(None);
        }
        let (entry, span) = read_head(
            &mut self.index,
            &mut self.next,
            eye,
            &self.source.part,
            self.source.next,
            region_len,
        )?;
        self.source.head = Some((entry, span));
        Ok(Some(entry.node))
    }

    /// The rows of a node, if it is the next one, which is left behind then, also where they are refused. They stay in the window until more is
    /// taken; none are told where the node is not the next one.
    #[inline(always)]
    pub(crate) fn take<E: LogEye>(
        &mut self,
        eye: &mut E,
        node: NodeId,
        region_len: u64,
    ) -> Fetched<Option<Piece>>
        requires seen { IsSeen (E.LogEye.state eye.old) self.old.part }
        requires region_len { region_len ≡ (E.LogEye.state eye.old).region_len }
        requires kept { IsKept (E.LogEye.state eye.old).told self.old }
        requires ready { self.old.head ≡ None → nodes_left self.old ≡ 0 }
        requires lowest { IfSome self.old.head (λ head. is_node_below head.0.node node ≡ false) }
        ensures same { SameEye (E.LogEye.state eye.old) (E.LogEye.state eye.new) }
        ensures counts { CountsFaults (IsErrOf result fetch_fault.Failed) (E.LogEye.state eye.old) (E.LogEye.state eye.new) }
        ensures part { self.new.part ≡ self.old.part }
        ensures kept { IsKept (E.LogEye.state eye.old).told self.new }
        ensures taken_is { IfOk result (IsTaken (E.LogEye.state eye.old) node self.old self.new) }
        ensures no_more { nodes_left self.new ≤ nodes_left self.old }
        ensures fewer { node_kept self.old.head ≡ Some node → nodes_left self.new < nodes_left self.old }
        ensures bad_row { (region at : ℕ) → IsErrOf result (fetch_fault.BadRow region at) → HasBadRow (E.LogEye.state eye.old).told region_len self.old.part node (record { region = region; at = at }) }
        ensures good_index { (region at : ℕ) → IsErrOf result (fetch_fault.BadIndex region at) → ⊥ }
        ensures exact { (left : List Row) → SourceAt (E.LogEye.state eye.old) self.old left → AllFrom node left → node_kept self.old.head ≡ node_at_head left → IfErr result NoDamage }
        ensures left { (left : List Row) → SourceAt (E.LogEye.state eye.old) self.old left → AllFrom node left → node_kept self.old.head ≡ node_at_head left
            → SourceAt (E.LogEye.state eye.new) self.new (behind node left) }
        ensures order { (image : Image) → (E.LogEye.state eye.old).told ≡ Some image → IsInOrder image self.old → IfOk result (λ piece. IsInOrder image self.new) }
        ensures ahead { (image : Image) → (E.LogEye.state eye.old).told ≡ Some image → IsInOrder image self.old
            → IfOk result (λ piece. (E.LogEye.state eye.new).taken + bytes_left self.new ≤ (E.LogEye.state eye.old).taken + bytes_left self.old) }
        ensures taken { (image : Image) → (E.LogEye.state eye.old).told ≡ Some image → IsInOrder image self.old → (E.LogEye.state eye.new).taken ≤ (E.LogEye.state eye.old).taken + bytes_left self.old }
    {
        let Some((entry, span)) = self.source.head else {
            return Ok(None);
        };
        if entry.node != node {
            return Ok(None);
        }
        self.source.head = None;
        self.source.next += 1;
        find_rows(
            &mut self.rows,
            eye,
            &self.source.part,
            node,
            span,
            region_len,
        )
    }

    /// The bytes of rows that stand in the window.
    pub(crate) fn bytes(&self, span: Span) -> &[u8]
        requires { LiesWithin self.now.ahead.rows span }
        ensures long { length result.now ≡ span.end - span.at }
        ensures bytes { result.now ≡ bytes_at self.now.ahead.rows span }
    {
        self.rows.range(span.at, span.end - span.at)
    }

    /// The same of rows that may be none.
    pub(crate) fn spelled(&self, span: Option<Span>) -> &[u8]
        requires { StandsIn self.now.ahead.rows span }
        ensures { result.now ≡ span_bytes self.now.ahead.rows span }
    {
        match span {
            Some(span) => self.bytes(span),
            None => &[],
        }
    }

    /// The rows that stand in the window, decoded.
    #[inline(never)]
    pub(crate) fn rows(
        &self,
        alloc: Global,
        node: NodeId,
        piece: Option<Piece>,
        region_len: u64,
    ) -> Result<Rows, NoMemory>
        requires lies { LiesIn region_len self.now.part.header }
        requires there { HasRows self.now node piece }
        ensures rows { (own : List Row) → HoldsIn self.now node piece own → IfOk result (λ rows. rows ≡ own) }
        ensures fit { IfOk result FitRows }
    {
        let Some(piece) = piece else {
            return Ok(Items::new(alloc));
        };
        let bytes = self.bytes(piece.span);
        match rows_of_span(
            alloc,
            &self.source.part,
            node,
            piece.span,
            region_len,
            bytes,
        ) {
            Ok(rows) => Ok(rows),
            // These bytes spell rows, so nothing but memory was wanting.
            Err(_) => Err(NoMemory),
        }
    }

    /// Appends the bytes of rows that stand in the window, for which there is room.
    pub(crate) fn put(&self, out: &mut Vec<u8>, span: Option<Span>)
        requires stands { StandsIn self.now.ahead.rows span }
        requires room { vec_len out.old + length (span_bytes self.now.ahead.rows span) ≤ vec_capacity out.old }
        ensures bytes { out.new.items ≡ out.old.items ++ span_bytes self.now.ahead.rows span }
        ensures len { vec_len out.new ≡ vec_len out.old + length (span_bytes self.now.ahead.rows span) }
        ensures capacity { vec_capacity out.old ≤ vec_capacity out.new }
    {
        if let Some(span) = span {
            let _room = out.extend_from_slice(self.bytes(span));
        }
    }

    /// Appends the bytes of rows that stand in the window.
    pub(crate) fn spell(&self, out: &mut Vec<u8>, span: Option<Span>) -> Result<(), NoMemory>
        requires { StandsIn self.now.ahead.rows span }
        ensures { OnOk result (out.new.items ≡ out.old.items ++ span_bytes self.now.ahead.rows span) }
    {
        let Some(span) = span else {
            return Ok(());
        };
        out.extend_from_slice(self.bytes(span))?;
        Ok(())
    }
}
