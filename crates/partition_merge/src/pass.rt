//! Going over two parts node by node, in blocks.

ghost use Rattle.std.specs.Prelude.{◌≡◌, ℕ, ◌+◌, ◌<◌, ◌≤◌, ◌++◌, IfOk, IfSome, IsErrOf, List, MatchResult, None, Ok, OnOk, Option, Some, length, true, vec_capacity, vec_len};
ghost use Rattle.partition_merge.specs.Cited.{CountsFaults, FitsRec, Image, IsSeen, NoDamage, Row, SameEye, row_bytes};
ghost use Rattle.fine_model.specs.declared.FetchFault.TheVariants as fetch_fault;
ghost use Rattle.partition_merge.specs.Leaves.{IsImageOf, IsMergedInto};
ghost use Rattle.partition_merge.specs.Mergers.{AreKept, BlamesEntry, BlamesRow, StandsAt, at_front, both_left, newer_part, older_part};
ghost use Rattle.partition_merge.specs.Pieces.{BothLie, CanSpell, EndsAt, HandsOver, HaveRows, HoldsIn, IsMergedFrom, may_fold, merged_bytes};
ghost use Rattle.partition_merge.specs.Streams.{AreInOrder, both_bytes_left};

use crate::fold::folded_moved;
use crate::leaf::{NodeImage, leaf_image};
use crate::lower;
use crate::piece::{Found, Merged, NodePieces, Tally, both_len, may_fold, span_of};
use crate::reader::Reader;
use fine_model::{FetchFault, NoMemory, Part, Row};
use log_disk::LogEye;
use node_record::{row_len, write_row};
use std::alloc::Global;
use std::marker::Model;

/// A merger whose two parts are each read in blocks. Contracts see the merger, with what was read ahead of its parts.
#[derive(Drop)]
pub(crate) struct Pass {
    older: Reader,
    newer: Reader,
    region_len: u64,
}

impl Model for Pass {
    ghost use Rattle.partition_merge.specs.declared.merger.Merger.{Merger};

    ghost Value = { Merger };

    ghost view = { λ p. record { older = p.older; newer = p.newer; region_len = p.region_len } };
}

/// The image that stands for the rows of a node, where one does.
type MaybeImage = Result<Option<NodeImage>, NoMemory>;

/// The spelling of a row, if it is asked for.
fn spelled_row(alloc: Global, spells: bool, row: &Row) -> Result<Vec<u8>, NoMemory>
    requires { FitsRec row.now.rec }
    ensures { IfOk result (λ bytes. spells ≡ true → bytes.items ≡ row_bytes row.now) }
{
    let mut bytes = Vec::new(alloc);
    if spells {
        write_row(&mut bytes, row)?;
    }
    Ok(bytes)
}

impl Pass {
    /// A pass over two parts that stands at their first node. All memory but that of one node's rows is taken here: a block for the rows
    /// and one for the index of each part, as far as it has as many bytes.
    pub(crate) fn new(
        alloc: Global,
        older: Part,
        newer: Part,
        region_len: u64,
    ) -> Result<Pass, NoMemory>
        ensures { IfOk result (λ pass. pass ≡ at_front older newer region_len) }
    {
        Ok(Pass {
            older: Reader::new(alloc, older)?,
            newer: Reader::new(alloc, newer)?,
            region_len,
        })
    }

    // The image into which the rows of a node in both windows are merged, as it is spelled, if they put pairs into a leaf: the rows are not decoded.
    #[inline(never)]
    fn leaf_image(&self, alloc: Global, spells: bool, pieces: &NodePieces) -> MaybeImage
        requires rows { HaveRows self.now pieces.now }
        requires may_fold { may_fold pieces.now.older pieces.now.newer ≡ true }
        ensures { (a b : List Row) → HoldsIn self.now.older pieces.now.node pieces.now.older a → HoldsIn self.now.newer pieces.now.node pieces.now.newer b → IfOk result (λ r. IfSome r (λ image. IsImageOf spells pieces.now.node (a ++ b) image.bytes.items image.len)) }
    {
        let len = both_len(&pieces.older, &pieces.newer);
        let older = self.older.spelled(span_of(&pieces.older));
        let newer = self.newer.spelled(span_of(&pieces.newer));
        leaf_image(alloc, spells, pieces.node, older, newer, len)
    }

    // The image that the rows of a node in both windows fold to, if they fold. They are decoded, which few nodes want, so this stands apart: the others do
    // not pay for its place on the stack.
    #[cold]
    #[inline(never)]
    fn read_image(&self, alloc: Global, spells: bool, pieces: &NodePieces) -> MaybeImage
        requires lie { BothLie self.now }
        requires rows { HaveRows self.now pieces.now }
        ensures { (a b : List Row) → HoldsIn self.now.older pieces.now.node pieces.now.older a → HoldsIn self.now.newer pieces.now.node pieces.now.newer b → IfOk result (IsMergedInto spells pieces.now.node (a ++ b)) }
    {
        let node = pieces.node;
        let len = both_len(&pieces.older, &pieces.newer);
        let older = self.older.rows(alloc, node, pieces.older, self.region_len)?;
        let newer = self.newer.rows(alloc, node, pieces.newer, self.region_len)?;
        let Some(row) = folded_moved(alloc, node, older, newer, len)? else {
            return Ok(None);
        };
        Ok(Some(NodeImage {
            len: row_len(&row),
            bytes: spelled_row(alloc, spells, &row)?,
        }))
    }

    // The image that stands for the rows of a node in both windows, where one does, as it is spelled.
    #[inline(always)]
    fn image(&self, alloc: Global, spells: bool, pieces: &NodePieces) -> MaybeImage
        requires lie { BothLie self.now }
        requires rows { HaveRows self.now pieces.now }
        ensures { (a b : List Row) → HoldsIn self.now.older pieces.now.node pieces.now.older a → HoldsIn self.now.newer pieces.now.node pieces.now.newer b → IfOk result (IsMergedInto spells pieces.now.node (a ++ b)) }
    {
        if !may_fold(&pieces.older, &pieces.newer) {
            return Ok(None);
        }
        match self.leaf_image(alloc, spells, pieces)? {
            Some(image) => Ok(Some(image)),
            None => self.read_image(alloc, spells, pieces),
        }
    }

    // What the rows of a node in both windows are merged into. They stay there but where an image stands for them.
    #[inline(always)]
    fn merged(&self, alloc: Global, spells: bool, pieces: &NodePieces) -> Result<Found, NoMemory>
        requires lie { BothLie self.now }
        requires rows { HaveRows self.now pieces.now }
        ensures { (a b : List Row) → HoldsIn self.now.older pieces.now.node pieces.now.older a → HoldsIn self.now.newer pieces.now.node pieces.now.newer b → 1 ≤ length (a ++ b) → IfOk result (IsMergedFrom spells self.now pieces.now.node (a ++ b)) }
    {
        let Some(image) = self.image(alloc, spells, pieces)? else {
            return Ok(Found {
                tally: Tally::of_both(pieces.node, &pieces.older, &pieces.newer),
                merged: Merged::Both {
                    older: span_of(&pieces.older),
                    newer: span_of(&pieces.newer),
                },
            });
        };
        Ok(Found {
            tally: Tally::of_image(pieces.node, image.len),
            merged: Merged::Image(image.bytes),
        })
    }

    /// The merged rows of the next node, as `Merger::next_node` gives them, or None where no node is left of both parts. They stay where they
    /// were read but where an image stands for them, which is spelled if that is asked for. After a refusal the pass is given up: it may stand
    /// behind the node in one part.
    ///
    /// Where the eye tells its bytes, each byte of the two parts is taken once at most.
    pub(crate) fn next_node<E: LogEye>(
        &mut self,
        alloc: Global,
        eye: &mut E,
        spells: bool,
    ) -> Result<Option<Found>, FetchFault>
        requires older { IsSeen (E.LogEye.state eye.old) (older_part self.old) }
        requires newer { IsSeen (E.LogEye.state eye.old) (newer_part self.old) }
        requires region_len { self.old.region_len ≡ (E.LogEye.state eye.old).region_len }
        requires kept { AreKept (E.LogEye.state eye.old).told self.old }
        ensures same { SameEye (E.LogEye.state eye.old) (E.LogEye.state eye.new) }
        ensures counts { CountsFaults (IsErrOf result fetch_fault.Failed) (E.LogEye.state eye.old) (E.LogEye.state eye.new) }
        ensures older { older_part self.new ≡ older_part self.old }
        ensures newer { newer_part self.new ≡ newer_part self.old }
        ensures region_len { self.new.region_len ≡ self.old.region_len }
        ensures kept { AreKept (E.LogEye.state eye.old).told self.new }
        ensures found { IfOk result (λ found. IfSome found (HandsOver spells (E.LogEye.state eye.old) (E.LogEye.state eye.new) self.old self.new)) }
        ensures end { result ≡ Ok None → both_left self.old ≡ 0 }
        ensures ended { result ≡ Ok None → self.new ≡ self.old }
        ensures no_more { both_left self.new ≤ both_left self.old }
        ensures fewer { IfOk result (λ found. IfSome found (λ _. both_left self.new < both_left self.old)) }
        ensures bad_row { (region at : ℕ) → IsErrOf result (fetch_fault.BadRow region at) → BlamesRow (E.LogEye.state eye.old).told self.old (record { region = region; at = at }) }
        ensures bad_index { (region at : ℕ) → IsErrOf result (fetch_fault.BadIndex region at) → BlamesEntry (E.LogEye.state eye.old).told self.old (record { region = region; at = at }) }
        ensures exact { (older newer : List Row) → StandsAt (E.LogEye.state eye.old) self.old older newer → MatchResult result (EndsAt (E.LogEye.state eye.new) self.new older newer) NoDamage }
        ensures order { (image : Image) → (E.LogEye.state eye.old).told ≡ Some image → AreInOrder image self.old → IfOk result (λ found. AreInOrder image self.new) }
        ensures ahead { (image : Image) → (E.LogEye.state eye.old).told ≡ Some image → AreInOrder image self.old
            → IfOk result (λ found. (E.LogEye.state eye.new).taken + both_bytes_left self.new ≤ (E.LogEye.state eye.old).taken + both_bytes_left self.old) }
        ensures taken { (image : Image) → (E.LogEye.state eye.old).told ≡ Some image → AreInOrder image self.old
            → (E.LogEye.state eye.new).taken ≤ (E.LogEye.state eye.old).taken + both_bytes_left self.old }
    {
        let older = self.older.peek(eye, self.region_len)?;
        let newer = self.newer.peek(eye, self.region_len)?;
        let Some(node) = lower(older, newer) else {
            return Ok(None);
        };
        let older = self.older.take(eye, node, self.region_len)?;
        let newer = self.newer.take(eye, node, self.region_len)?;
        let pieces = NodePieces { node, older, newer };
        let Ok(found) = self.merged(alloc, spells, &pieces) else {
            return Err(FetchFault::NoMemory);
        };
        Ok(Some(found))
    }

    /// Appends the bytes of merged rows that were found last, for which there is room.
    pub(crate) fn put(&self, out: &mut Vec<u8>, merged: &Merged)
        requires can_spell { CanSpell self.now merged.now }
        requires room { vec_len out.old + length (merged_bytes self.now merged.now) ≤ vec_capacity out.old }
        ensures bytes { out.new.items ≡ out.old.items ++ merged_bytes self.now merged.now }
        ensures capacity { vec_capacity out.old ≤ vec_capacity out.new }
    {
        match merged {
            Merged::Image(image) => {
                let _room = out.extend_from_slice(image.as_slice());
            }
            Merged::Both { older, newer } => {
                self.older.put(out, *older);
                self.newer.put(out, *newer);
            }
        }
    }

    /// The same, with more room taken where there is none. After `NoMemory` what is there is not told.
    pub(crate) fn spell(&self, out: &mut Vec<u8>, merged: &Merged) -> Result<(), NoMemory>
        requires { CanSpell self.now merged.now }
        ensures { OnOk result (out.new.items ≡ out.old.items ++ merged_bytes self.now merged.now) }
    {
        match merged {
            Merged::Image(image) => {
                out.extend_from_slice(image.as_slice())?;
                Ok(())
            }
            Merged::Both { older, newer } => {
                self.older.spell(out, *older)?;
                self.newer.spell(out, *newer)
            }
        }
    }
}
