//! The body of two merged parts, in blocks.

ghost use Rattle.std.specs.Prelude.{◌≡◌, ◌⊎◌, ℕ, ◌+◌, ◌-◌, ◌<◌, ◌≤◌, [], ◌++◌, not, nat_le, false, true, IfOk, IsErrOf, List, MatchResult, Ok, OnOk, Option, Some, drop, length, min, take, vec_capacity, vec_len};
ghost use Rattle.partition_merge.specs.Cited.{CountsFaults, Eye, Image, IsSeen, NoDamage, Row, SameEye, TellsRows, body_len, bytes_of, index_entry, merged, rows_len};
ghost use Rattle.fine_model.specs.declared.FetchFault.TheVariants as fetch_fault;
ghost use Rattle.partition_merge.specs.Blocks.{Gives, IsAhead, IsAtStart, SameBlocks, steps_left};
ghost use Rattle.partition_merge.specs.Joined.{GivesJoined, IsJoined};
ghost use Rattle.partition_merge.specs.Mergers.{AreKept, BlamesEntry, BlamesRow, at_front, newer_part, older_part};
ghost use Rattle.partition_merge.specs.Pieces.{CanSpell, merged_bytes, tallied};
ghost use Rattle.partition_merge.specs.Streams.{AreInOrder, both_bytes_left};
ghost use Rattle.partition_merge.specs.declared.merger.Merger.{Merger};

use crate::pass::Pass;
use crate::piece::{Merged, Tally};
use fine_model::format::INDEX_ENTRY;
use fine_model::{FetchFault, NoMemory, Part};
use log_disk::LogEye;
use partition_index::{IndexEntry, entry_bytes};
use std::alloc::Global;
use std::marker::Model;
use std::mem;

/// The body of two merged parts, block by block: the rows first, and then the index. All memory but that of one node's rows is taken
/// by `new`: the block, the index, and at most 24 KiB for the rows and 8 KiB for the index of each part, which are read in blocks. Blocks are
/// used with one eye, from `new` to the last block: what was handed out so far is what this eye tells, and another one, also of the same
/// regions, is not known to tell the same.
#[derive(Drop)]
pub struct Blocks {
    merger: Pass,
    most: u32,
    block: Vec<u8>,
    waiting: Vec<u8>,
    at: usize,
    index: Vec<u8>,
    offset: u32,
    is_whole: bool,
}

impl Model for Blocks {
    ghost use Rattle.std.specs.Prelude.{◌≡◌, ◌+◌, ◌*◌, ◌≤◌, false, drop, vec_capacity, vec_len};
    ghost use Rattle.partition_merge.specs.Blocks.{BlocksValue, HasRoom};

    ghost Value = { BlocksValue };

    ghost view = { λ b. record { merger = b.merger; most = b.most; block = b.block.items; waiting = drop b.at b.waiting.items; index = b.index.items; offset = b.offset; is_whole = b.is_whole } };

    ghost invariant = { λ b. HasRoom b.merger b.most (vec_capacity b.block) b.at (vec_len b.waiting) (vec_len b.index) (vec_capacity b.index) b.is_whole };
}

// Puts the entry of a node's rows behind an index, for which there is room.
fn put_entry(index: &mut Vec<u8>, tally: Tally, offset: u32)
    requires room { vec_len index.old + index_entry ≤ vec_capacity index.old }
    ensures bytes { index.new.items ≡ index.old.items ++ bytes_of (tallied tally offset) }
    ensures len { vec_len index.new ≡ vec_len index.old + index_entry }
    ensures capacity { vec_capacity index.old ≤ vec_capacity index.new }
{
    let entry = IndexEntry {
        node: tally.node,
        offset,
        rows: tally.rows,
    };
    let _room = index.extend_from_slice(&entry_bytes(&entry));
}

// Spells merged rows that were found last, of so many bytes: behind a block, if it has room for them and more, and else where bytes wait.
fn put_rows(
    pass: &Pass,
    merged: &Merged,
    area: u32,
    most: u32,
    block: &mut Vec<u8>,
    waiting: &mut Vec<u8>,
) -> Result<(), NoMemory>
    requires none { waiting.old.items ≡ [] }
    requires few { vec_len block.old ≤ most }
    requires room { most ≤ vec_capacity block.old }
    requires can_spell { CanSpell pass.now merged.now }
    requires area { area ≡ min (length (merged_bytes pass.now merged.now)) 4294967295 }
    ensures spelled { OnOk result (block.new.items ++ waiting.new.items ≡ block.old.items ++ merged_bytes pass.now merged.now) }
    ensures longer { vec_len block.old ≤ vec_len block.new }
    ensures few { vec_len block.new ≤ most }
    ensures room { vec_capacity block.old ≤ vec_capacity block.new }
{
    let room = most - block.len() as u32;
    if area < room {
        pass.put(block, merged);
        return Ok(());
    }
    pass.spell(waiting, merged)
}

impl Blocks {
    /// Blocks of at most `most` bytes each.
    pub fn new(
        alloc: Global,
        older: Part,
        newer: Part,
        region_len: u64,
        most: u32,
    ) -> Result<Blocks, NoMemory>
        requires some { 1 ≤ most }
        ensures made { IfOk result (IsAtStart older newer region_len most) }
        ensures kept { IfOk result (λ blocks. (known : Option Image) → AreKept known blocks.merger) }
        ensures ahead { IfOk result (λ blocks. (eye : Eye) (a b : List Row) → TellsRows eye older a → TellsRows eye newer b → rows_len (merged a b) < 4294967296 → IsAhead eye blocks [] a b) }
        ensures joined { IfOk result (λ blocks. (known : Option Image) → IsJoined known (at_front older newer region_len) blocks []) }
        ensures order { IfOk result (λ blocks. (image : Image) → AreInOrder image blocks.merger) }
        ensures unread { IfOk result (λ blocks. both_bytes_left blocks.merger ≡ body_len older.header + body_len newer.header) }
    {
        let nodes = older.header.nodes as usize + newer.header.nodes as usize;
        Ok(Blocks {
            merger: Pass::new(alloc, older, newer, region_len)?,
            most,
            block: Vec::with_capacity(alloc, most as usize)?,
            waiting: Vec::new(alloc),
            at: 0,
            index: Vec::with_capacity(alloc, INDEX_ENTRY * nodes)?,
            offset: 0,
            is_whole: false,
        })
    }

    /// The block that `next` filled.
    pub fn block(&self) -> &[u8]
        ensures { result.now ≡ self.now.block }
    {
        &self.block
    }

    // Whether the block has as many bytes as it may have.
    fn is_full(&self) -> bool
        ensures { result ≡ nat_le self.now.most (length self.now.block) }
    {
        self.most as usize <= self.block.len()
    }

    // Empties the block.
    fn clear(&mut self)
        ensures cleared { self.new ≡ record self.old { block = [] } }
        ensures some { 1 ≤ self.old.most }
    {
        self.block.clear();
    }

    // Moves to the block what waits, as far as the block has room.
    fn fill(&mut self)
        requires { length self.old.block ≤ self.old.most }
        ensures { self.new ≡ record self.old { block = self.old.block ++ take (self.old.most - length self.old.block) self.old.waiting; waiting = drop (self.old.most - length self.old.block) self.old.waiting } }
    {
        let left = &self.waiting[self.at..];
        let count = left.len().min(self.most as usize - self.block.len());
        let _room = self.block.extend_from_slice(&left[..count]);
        self.at += count;
    }

    // Sees that the block goes on, or that bytes wait: the rows of the next node, and behind the last node the index. False where nothing is
    // left.
    fn supply<E: LogEye>(&mut self, alloc: Global, eye: &mut E) -> Result<bool, FetchFault>
        requires older { IsSeen (E.LogEye.state eye.old) (older_part self.old.merger) }
        requires newer { IsSeen (E.LogEye.state eye.old) (newer_part self.old.merger) }
        requires region_len { self.old.merger.region_len ≡ (E.LogEye.state eye.old).region_len }
        requires kept { AreKept (E.LogEye.state eye.old).told self.old.merger }
        requires few { length self.old.block ≤ self.old.most }
        ensures same { SameBlocks self.old self.new }
        ensures longer { length self.old.block ≤ length self.new.block }
        ensures few { length self.new.block ≤ self.new.most }
        ensures eye { SameEye (E.LogEye.state eye.old) (E.LogEye.state eye.new) }
        ensures counts { CountsFaults (IsErrOf result fetch_fault.Failed) (E.LogEye.state eye.old) (E.LogEye.state eye.new) }
        ensures kept { AreKept (E.LogEye.state eye.old).told self.new.merger }
        ensures no_more { steps_left self.new ≤ steps_left self.old }
        ensures moves { result ≡ Ok true → (1 ≤ length self.new.waiting) ⊎ (steps_left self.new < steps_left self.old) }
        ensures end { result ≡ Ok false → (self.new.waiting ≡ []) × (self.new.is_whole ≡ true) }
        ensures bad_row { (region at : ℕ) → IsErrOf result (fetch_fault.BadRow region at) → BlamesRow (E.LogEye.state eye.old).told self.old.merger (record { region = region; at = at }) }
        ensures bad_index { (region at : ℕ) → IsErrOf result (fetch_fault.BadIndex region at) → BlamesEntry (E.LogEye.state eye.old).told self.old.merger (record { region = region; at = at }) }
        ensures exact { (handed : List ℕ) (a b : List Row) → IsAhead (E.LogEye.state eye.old) self.old (handed ++ self.old.block) a b
            → MatchResult result (λ more. IsAhead (E.LogEye.state eye.new) self.new (handed ++ self.new.block) a b) NoDamage }
        ensures joined { (start : Merger) (handed : List ℕ) → IsJoined (E.LogEye.state eye.old).told start self.old (handed ++ self.old.block)
            → IfOk result (λ more. IsJoined (E.LogEye.state eye.old).told start self.new (handed ++ self.new.block)) }
        ensures order { (image : Image) → (E.LogEye.state eye.old).told ≡ Some image → AreInOrder image self.old.merger → IfOk result (λ more. AreInOrder image self.new.merger) }
        ensures once { (image : Image) → (E.LogEye.state eye.old).told ≡ Some image → AreInOrder image self.old.merger
            → IfOk result (λ more. (E.LogEye.state eye.new).taken + both_bytes_left self.new.merger ≤ (E.LogEye.state eye.old).taken + both_bytes_left self.old.merger) }
        ensures taken { (image : Image) → (E.LogEye.state eye.old).told ≡ Some image → AreInOrder image self.old.merger
            → (E.LogEye.state eye.new).taken ≤ (E.LogEye.state eye.old).taken + both_bytes_left self.old.merger }
    {
        if self.at < self.waiting.len() {
            return Ok(true);
        }
        if self.is_whole {
            return Ok(false);
        }
        let Some(found) = self.merger.next_node(alloc, eye, true)? else {
            mem::swap(&mut self.waiting, &mut self.index);
            self.at = 0;
            self.is_whole = true;
            return Ok(true);
        };
        self.waiting.clear();
        self.at = 0;
        let put = put_rows(
            &self.merger,
            &found.merged,
            found.tally.area,
            self.most,
            &mut self.block,
            &mut self.waiting,
        );
        if put.is_err() {
            return Err(FetchFault::NoMemory);
        }
        put_entry(&mut self.index, found.tally, self.offset);
        self.offset = self.offset.saturating_add(found.tally.area);
        Ok(true)
    }

    /// Fills the next block, and answers whether there is one: false behind the last one.
    ///
    /// Where the eye tells its bytes, both parts are in the grammar and have their headers, and the merged rows have fewer than 2^32
    /// bytes, all blocks together are the body of the merged rows. Whatever was read, a block has at least one byte and at most as many as
    /// `new` was told, and each but the last has as many. Where the eye tells its bytes, each byte of both bodies is taken once at most
    /// by all calls. The faults are those of `Merger::next_node`; after a refusal the blocks are given up.
    pub fn next<E: LogEye>(&mut self, alloc: Global, eye: &mut E) -> Result<bool, FetchFault>
        requires older { IsSeen (E.LogEye.state eye.old) (older_part self.old.merger) }
        requires newer { IsSeen (E.LogEye.state eye.old) (newer_part self.old.merger) }
        requires region_len { self.old.merger.region_len ≡ (E.LogEye.state eye.old).region_len }
        requires kept { AreKept (E.LogEye.state eye.old).told self.old.merger }
        ensures same { SameBlocks self.old self.new }
        ensures eye { SameEye (E.LogEye.state eye.old) (E.LogEye.state eye.new) }
        ensures counts { CountsFaults (IsErrOf result fetch_fault.Failed) (E.LogEye.state eye.old) (E.LogEye.state eye.new) }
        ensures kept { AreKept (E.LogEye.state eye.old).told self.new.merger }
        ensures most { length self.new.block ≤ self.new.most }
        ensures some { result ≡ Ok true → 1 ≤ length self.new.block }
        ensures full { IfOk result (λ more. (length self.new.block ≡ self.new.most) ⊎ ((self.new.waiting ≡ []) × (self.new.is_whole ≡ true))) }
        ensures bad_row { (region at : ℕ) → IsErrOf result (fetch_fault.BadRow region at) → BlamesRow (E.LogEye.state eye.old).told self.old.merger (record { region = region; at = at }) }
        ensures bad_index { (region at : ℕ) → IsErrOf result (fetch_fault.BadIndex region at) → BlamesEntry (E.LogEye.state eye.old).told self.old.merger (record { region = region; at = at }) }
        ensures exact { (handed : List ℕ) (a b : List Row) → IsAhead (E.LogEye.state eye.old) self.old handed a b → MatchResult result (Gives (E.LogEye.state eye.new) self.new handed a b) NoDamage }
        ensures joined { (start : Merger) (handed : List ℕ) → IsJoined (E.LogEye.state eye.old).told start self.old handed → IfOk result (GivesJoined (E.LogEye.state eye.old).told start self.new handed) }
        ensures order { (image : Image) → (E.LogEye.state eye.old).told ≡ Some image → AreInOrder image self.old.merger → IfOk result (λ more. AreInOrder image self.new.merger) }
        ensures once { (image : Image) → (E.LogEye.state eye.old).told ≡ Some image → AreInOrder image self.old.merger
            → IfOk result (λ more. (E.LogEye.state eye.new).taken + both_bytes_left self.new.merger ≤ (E.LogEye.state eye.old).taken + both_bytes_left self.old.merger) }
        ensures taken { (image : Image) → (E.LogEye.state eye.old).told ≡ Some image → AreInOrder image self.old.merger
            → (E.LogEye.state eye.new).taken ≤ (E.LogEye.state eye.old).taken + both_bytes_left self.old.merger }
    {
        self.clear();
        let mut more = true;
        while more && !self.is_full() {
            more = self.supply(alloc, eye)?;
            self.fill();
        }
        Ok(!self.block.is_empty())
    }
}
