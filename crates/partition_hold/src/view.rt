//! The view through which a seat reads.

ghost use Rattle.std.specs.Prelude.{◌≡◌, ◌⊎◌, ℕ, ◌+◌, ◌*◌, ◌<◌, ◌≤◌, List, Any, Contains, IfOk, IfSome, IsErr, IsErrOf, MatchResult, None, Ok, OnErr, [], length, true};
ghost use Rattle.partition_hold.specs.Cited.{AllByRecursion, CountsFaults, Eye, FitsNode, IsSeen, LooksAt, Row, Searches, TellsRows, body_len, content, greatest, merged, most_in_log, rows_len, rows_of};
ghost use Rattle.fine_model.specs.declared.FetchFault.TheVariants as fetch_fault;
ghost use Rattle.partition_index.specs.Search.{TellsRows as TellsPart};
ghost use Rattle.node_fetch.specs.Fetched.{HasBadEntry, HasBadRow, IsReplayOf, NoDamage, most_read, most_sought};
ghost use Rattle.partition_merge.specs.Blocks.{Gives, IsAhead, SameBlocks};
ghost use Rattle.partition_merge.specs.Joined.{GivesJoined, IsJoined};
ghost use Rattle.partition_merge.specs.declared.merger.Merger.{Merger};
ghost use Rattle.partition_merge.specs.Mergers.{Answers, AreKept, BlamesEntry, BlamesRow, IsCounted, IsJoinOf, IsMeasureOf, StandsAt, both_left, both_unread, measure_of, most_for, newer_part, next_len, older_part, start_of};
ghost use Rattle.partition_merge.specs.Merging.{FitRows};
ghost use Rattle.partition_hold.specs.Views.{IsView, ViewValue, SameView, ViewNames, ViewTells, ViewTellsEach, ViewTellsPart, state_of};

use fine_model::{FetchFault, Node, NodeId, Part, Parts, Rows, ViewLaw};
use log_disk::{Failed, LogEye};
use partition_merge::{Blocks, Measure, Merger};
use std::alloc::Global;
use std::marker::Model;

/// An eye with the parts that are read through it, the last epoch that they hold, and the place of the view on the board: its seat, which
/// is from 1 on, and one of the seat's three buffers. The eye names every region of every part.
#[derive(Drop)]
pub struct View<E: LogEye> {
    alloc: Global,
    eye: E,
    parts: Parts,
    upto: u64,
    seat: u32,
    buffer: u8,
    region_len: u64,
}

impl<E: LogEye> Model for View<E> {
    ghost use Rattle.partition_hold.specs.Views.{ViewValue, IsView};

    ghost Value = { ViewValue };

    ghost view = { λ v. record { eye = E.state v.eye; parts = v.parts; upto = v.upto; seat = v.seat; buffer = v.buffer; region_len = v.region_len } };

    ghost invariant = { λ v. IsView (record { eye = E.state v.eye; parts = v.parts; upto = v.upto; seat = v.seat; buffer = v.buffer; region_len = v.region_len }) };
}

impl<E: LogEye + Send> ViewLaw for View<E> {
    ghost use Rattle.partition_hold.specs.Views.{state_of};

    ghost state = { λ v. state_of v };
}

impl<E: LogEye> View<E> {
    /// A view of parts through an eye that names all their regions.
    pub fn new(
        alloc: Global,
        eye: E,
        parts: Parts,
        upto: u64,
        seat: u32,
        buffer: u8,
        region_len: u64,
    ) -> View<E>
        requires seen { AllByRecursion (IsSeen (E.LogEye.state eye)) parts }
        requires region_len { region_len ≡ (E.LogEye.state eye).region_len }
        requires small { AllByRecursion (λ region. region < most_in_log) (E.LogEye.state eye).regions }
        requires seat { 1 ≤ seat }
        requires buffer { buffer < 3 }
        ensures made { result ≡ record { eye = E.LogEye.state eye; parts = parts; upto = upto; seat = seat; buffer = buffer; region_len = region_len } }
    {
        View {
            alloc,
            eye,
            parts,
            upto,
            seat,
            buffer,
            region_len,
        }
    }

    /// The parts, in the order in which they were given.
    pub fn parts(&self) -> &Parts
        ensures parts { result.now ≡ self.now.parts }
        ensures whole { IsView self.now }
    {
        &self.parts
    }

    /// The last epoch that the parts hold.
    pub fn upto(&self) -> u64
        ensures { result ≡ self.now.upto }
    {
        self.upto
    }

    /// The seat on the board, from 1 on.
    pub fn seat(&self) -> u32
        ensures seat { result ≡ self.now.seat }
        ensures some { 1 ≤ result }
    {
        self.seat
    }

    /// The buffer of the seat, from 0 to 2.
    pub fn buffer(&self) -> u8
        ensures buffer { result ≡ self.now.buffer }
        ensures few { result < 3 }
    {
        self.buffer
    }

    /// The length of each region in bytes.
    pub fn region_len(&self) -> u64
        ensures { result ≡ self.now.region_len }
    {
        self.region_len
    }

    /// A node as the view's parts leave it: its content and its version.
    ///
    /// The parts are probed from the newest back, up to one that has an image of the node. Where the eye tells its bytes, and each part is
    /// in the grammar and has its header, the answer is exact, also where the node is `Broken`, and no damage is found. `BadRow` and
    /// `BadIndex` come only with a place of the disk that is bad by the bytes read in this call. `Failed` comes only where the eye's count
    /// of faults rose in this call. The view is as before but for its eye's counts.
    pub fn fetch(&mut self, node: NodeId) -> Result<(Node, u64), FetchFault>
        ensures same { SameView self.old self.new }
        ensures eye { Searches (IsErrOf result fetch_fault.Failed) (most_read self.old.parts) self.old.eye self.new.eye }
        ensures fits { IfOk result (λ found. FitsNode found.0) }
        ensures version { IfOk result (λ found. found.1 ≤ greatest) }
        ensures read { IfOk result (IsReplayOf self.old.eye self.old.parts node) }
        ensures bad_row { (region at : ℕ) → IsErrOf result (fetch_fault.BadRow region at)
            → Any (λ p. HasBadRow self.old.eye.told self.old.region_len p node (record { region = region; at = at })) self.old.parts }
        ensures bad_index { (region at : ℕ) → IsErrOf result (fetch_fault.BadIndex region at)
            → Any (λ p. HasBadEntry self.old.eye.told self.old.region_len p (record { region = region; at = at })) self.old.parts }
        ensures exact { (rows : List Row) → TellsRows (state_of self.old) rows → MatchResult result (λ found. found ≡ content rows node) NoDamage }
        ensures taken { (rows : List Row) → TellsRows (state_of self.old) rows
            → self.new.eye.taken ≤ self.old.eye.taken + (most_sought self.old.parts + rows_len (rows_of node rows)) }
    {
        node_fetch::fetch(
            self.alloc,
            &mut self.eye,
            &self.parts,
            node,
            self.region_len,
        )
    }

    /// The merged rows of the next node of two parts of the view, or None where no node was left of both. What the merger says of an eye
    /// holds of the view's. The view is as before but for its eye's counts, and with None and each refusal the merger stands where it
    /// stood.
    pub fn next_node(&mut self, merger: &mut Merger) -> Result<Option<Rows>, FetchFault>
        requires older { Contains self.old.parts (older_part merger.old) }
        requires newer { Contains self.old.parts (newer_part merger.old) }
        requires region_len { merger.old.region_len ≡ self.old.region_len }
        requires kept { AreKept self.old.eye.told merger.old }
        ensures same { SameView self.old self.new }
        ensures eye { Searches (IsErrOf result fetch_fault.Failed) (most_for merger.old) self.old.eye self.new.eye }
        ensures older { older_part merger.new ≡ older_part merger.old }
        ensures newer { newer_part merger.new ≡ newer_part merger.old }
        ensures region_len { merger.new.region_len ≡ merger.old.region_len }
        ensures kept { AreKept self.old.eye.told merger.new }
        ensures fit { IfOk result (λ found. IfSome found FitRows) }
        ensures some { IfOk result (λ found. IfSome found (λ rows. 1 ≤ length rows)) }
        ensures read { IfOk result (λ found. IfSome found (IsJoinOf self.old.eye.told merger.old merger.new)) }
        ensures end { result ≡ Ok None → both_left merger.old ≡ 0 }
        ensures ended { result ≡ Ok None → merger.new ≡ merger.old }
        ensures refused { OnErr result (merger.new ≡ merger.old) }
        ensures fewer { IfOk result (λ found. IfSome found (λ rows. both_left merger.new < both_left merger.old)) }
        ensures bad_row { (region at : ℕ) → IsErrOf result (fetch_fault.BadRow region at) → BlamesRow self.old.eye.told merger.old (record { region = region; at = at }) }
        ensures bad_index { (region at : ℕ) → IsErrOf result (fetch_fault.BadIndex region at) → BlamesEntry self.old.eye.told merger.old (record { region = region; at = at }) }
        ensures exact { (older newer : List Row) → StandsAt self.old.eye merger.old older newer → MatchResult result (Answers self.new.eye merger.new older newer) NoDamage }
        ensures ahead { (older newer : List Row) → StandsAt self.old.eye merger.old older newer
            → IfOk result (λ found. self.new.eye.taken + 28 * both_unread merger.new ≤ self.old.eye.taken + (28 * both_unread merger.old + next_len older newer)) }
        ensures taken { (older newer : List Row) → StandsAt self.old.eye merger.old older newer
            → self.new.eye.taken ≤ self.old.eye.taken + (28 * both_unread merger.old + next_len older newer) }
    {
        merger.next_node(self.alloc, &mut self.eye)
    }

    /// The numbers of all merged rows of two parts of the view, from the first node on. The merger stays where it stands, and the view is
    /// as before but for its eye's counts. What the merger says of an eye holds of the view's.
    pub fn measure(&mut self, merger: &mut Merger) -> Result<Measure, FetchFault>
        requires older { Contains self.old.parts (older_part merger.old) }
        requires newer { Contains self.old.parts (newer_part merger.old) }
        requires region_len { merger.old.region_len ≡ self.old.region_len }
        ensures same { SameView self.old self.new }
        ensures stays { merger.new ≡ merger.old }
        ensures sums { IfOk result (IsMeasureOf self.old.eye.told (start_of merger.old)) }
        ensures counted { IfOk result IsCounted }
        ensures few { IfOk result (λ measure. measure.nodes ≤ (older_part merger.old).header.nodes + (newer_part merger.old).header.nodes) }
        ensures counts { CountsFaults (IsErrOf result fetch_fault.Failed) self.old.eye self.new.eye }
        ensures bad_row { (region at : ℕ) → IsErrOf result (fetch_fault.BadRow region at) → BlamesRow self.old.eye.told merger.old (record { region = region; at = at }) }
        ensures bad_index { (region at : ℕ) → IsErrOf result (fetch_fault.BadIndex region at) → BlamesEntry self.old.eye.told merger.old (record { region = region; at = at }) }
        ensures exact { (older newer : List Row) → TellsPart self.old.eye (older_part merger.old) older → TellsPart self.old.eye (newer_part merger.old) newer
            → rows_len (merged older newer) < 4294967296 → MatchResult result (λ measure. measure ≡ measure_of (merged older newer)) NoDamage }
        ensures taken { (older newer : List Row) → TellsPart self.old.eye (older_part merger.old) older → TellsPart self.old.eye (newer_part merger.old) newer
            → self.new.eye.taken ≤ self.old.eye.taken + (28 * ((older_part merger.old).header.nodes + (newer_part merger.old).header.nodes) + (rows_len older + rows_len newer)) }
    {
        merger.measure(self.alloc, &mut self.eye)
    }

    /// The next block of the body of two merged parts of the view. What the blocks say of an eye holds of the view's, so that all blocks are
    /// taken through one view. The view is as before but for its eye's counts.
    pub fn next_block(&mut self, blocks: &mut Blocks) -> Result<bool, FetchFault>
        requires older { Contains self.old.parts (older_part blocks.old.merger) }
        requires newer { Contains self.old.parts (newer_part blocks.old.merger) }
        requires region_len { blocks.old.merger.region_len ≡ self.old.region_len }
        requires kept { AreKept self.old.eye.told blocks.old.merger }
        ensures same { SameView self.old self.new }
        ensures blocks { SameBlocks blocks.old blocks.new }
        ensures counts { CountsFaults (IsErrOf result fetch_fault.Failed) self.old.eye self.new.eye }
        ensures kept { AreKept self.old.eye.told blocks.new.merger }
        ensures most { length blocks.new.block ≤ blocks.new.most }
        ensures some { result ≡ Ok true → 1 ≤ length blocks.new.block }
        ensures full { IfOk result (λ more. (length blocks.new.block ≡ blocks.new.most) ⊎ ((blocks.new.waiting ≡ []) × (blocks.new.is_whole ≡ true))) }
        ensures bad_row { (region at : ℕ) → IsErrOf result (fetch_fault.BadRow region at) → BlamesRow self.old.eye.told blocks.old.merger (record { region = region; at = at }) }
        ensures bad_index { (region at : ℕ) → IsErrOf result (fetch_fault.BadIndex region at) → BlamesEntry self.old.eye.told blocks.old.merger (record { region = region; at = at }) }
        ensures exact { (handed : List ℕ) (a b : List Row) → IsAhead self.old.eye blocks.old handed a b → MatchResult result (Gives self.new.eye blocks.new handed a b) NoDamage }
        ensures joined { (start : Merger) (handed : List ℕ) → IsJoined self.old.eye.told start blocks.old handed → IfOk result (GivesJoined self.old.eye.told start blocks.new handed) }
    {
        blocks.next(self.alloc, &mut self.eye)
    }

    /// Reads a range of the body of a part of the view, which may lie over several regions. After `Failed`, what `out` holds is not told.
    /// The view is as before but for its eye's counts.
    pub fn read_body(&mut self, part: &Part, at: u32, out: &mut [u8]) -> Result<(), Failed>
        requires part { Contains self.old.parts part.now }
        requires within { at + length out.old ≤ body_len part.now.header }
        ensures same { SameView self.old self.new }
        ensures looks { LooksAt part.now at out.new (IsErr result) self.old.eye self.new.eye }
    {
        partition_index::read_body(&mut self.eye, part, self.region_len, at, out)
    }

    /// Gives the eye back.
    pub fn into_eye(self) -> E
        ensures { E.LogEye.state result ≡ self.eye }
    {
        self.eye
    }
}

/// What a view tells is what its eye tells of its parts, and of each of them: the rows of the view are those of its parts in their order, and
/// what is told of one part as a view tells it is what the eye tells of that part. The eye names all regions of the parts, also as the board
/// has it.
pub fn view_law()
    ensures tells { ViewTells }
    ensures each { ViewTellsEach }
    ensures part { ViewTellsPart }
    ensures names { ViewNames }
{}
