//! Scans over all buckets.

ghost use Rattle.std.specs.Prelude.{◌≡◌, ◌≤◌, ◌<◌, ◌+◌, ◌*◌, ◌++◌, ℕ, List, length, [], false, true, take, OnOk, OnErr, IfErr};
ghost use Rattle.fine_model.specs.declared.Call.TheVariants as call_of;
ghost use Rattle.txn_draft.specs.Cited.{AreUsed, Cache, Holds, IsFirstUnfitBetween, IsKept, IsLoaded, IsSound, LoadsOnWalk, OnCleanAnswer, Reads, Row as ModelRow, Serves, SoundReading, buckets, walk_in};
ghost use Rattle.txn_draft.specs.Drafts.{IsAnswered, FitsDraft, IsLost, is_scan};
ghost use Rattle.txn_draft.specs.Uses.{IsUsed};
ghost use Rattle.txn_draft.specs.Answers.{FailsBy};
ghost use Rattle.txn_draft.specs.Scans.{IsFirst, IsCut, IsGathered, KeepsFound, limit_of};

use crate::draft::Draft;
use btree_nodes::{TreeFault, scan};
use fine_model::{Call, Items, NoMemory, Pairs, Reply};
use node_cache::{Bucket, NodeSource};
use std::alloc::Global;
use std::marker::Model;
use std::mem;

/// The pairs that a scan found in the buckets that it has gone through, with no more than are wanted once it was cut.
#[derive(Drop)]
pub struct RangeScan {
    alloc: Global,
    pairs: Pairs,
    next: u16,
}

impl Model for RangeScan {
    ghost use Rattle.txn_draft.specs.Scans.{ScanValue};

    ghost Value = { ScanValue };

    ghost view = { λ s. record { pairs = s.pairs; next = s.next } };
}

/// The first pairs in the byte order of their keys. It takes no memory.
fn first_of(pairs: Pairs, limit: usize) -> Pairs
    ensures { IsFirst limit pairs result }
{
    let mut sorted = pairs.into_vec();
    sorted.sort_unstable_by(|a, b| a.0.as_slice().cmp(b.0.as_slice()));
    sorted.truncate(limit);
    Items::from_vec(sorted)
}

/// The same, where twice as many were gathered as are wanted.
fn cut(pairs: Pairs, limit: usize) -> Pairs
    ensures cut { IsCut limit pairs result }
    ensures few { length result ≤ 2 * limit + 1 }
{
    if pairs.len() / 2 > limit {
        first_of(pairs, limit)
    } else {
        pairs
    }
}

impl RangeScan {
    /// A scan that has gone through no bucket. It takes no memory.
    pub fn new(alloc: Global) -> RangeScan
        ensures { result ≡ record { pairs = []; next = 0 } }
    {
        RangeScan {
            alloc,
            pairs: Items::new(alloc),
            next: 0,
        }
    }

    /// Gathers the first pairs of a range in the next bucket, and keeps no more than some twice `limit` [`few`]. It changes nothing in
    /// the bucket but what is loaded and the order of last use. With a fault nothing was gathered, and the bucket may be tried again.
    pub fn gather<S: NodeSource>(
        &mut self,
        source: &mut S,
        bucket: &mut Bucket,
        low: &[u8],
        high: &[u8],
        limit: u32,
    ) -> Result<(), TreeFault>
        requires bucket { bucket.old.bucket ≡ self.old.next }
        requires next { self.old.next < buckets }
        ensures later { S.later source.old source.new }
        ensures clean { OnCleanAnswer result (S.clean source.old source.new) }
        ensures next { OnOk result (self.new.next ≡ self.old.next + 1) }
        ensures answer { Reads (λ done. IsGathered bucket.new low.now high.now limit self.old.pairs self.new.pairs) (λ failed. S.fails source.old failed source.new) (IsFirstUnfitBetween bucket.new low.now high.now limit) result }
        ensures few { OnOk result (length self.new.pairs ≤ 2 * limit + 1) }
        ensures left { IfErr result (λ fault. self.new ≡ self.old) }
        ensures loads { IsLoaded (S.tells source.old) (S.finds source.old) (S.upper source.old) bucket.old bucket.new }
        ensures on_walk { LoadsOnWalk bucket.old bucket.new low.now high.now limit }
        ensures walked { OnOk result (AreUsed bucket.old bucket.new (walk_in bucket.new low.now high.now limit)) }
        ensures fails { IfErr result (FailsBy (λ failed. S.fails source.old failed source.new)) }
        ensures serves { (rows : List ModelRow) → Serves (S.tells source.old) bucket.old rows → Serves (S.tells source.new) bucket.new rows }
        ensures used { (low_epoch : ℕ) (taken : Cache) (rows : List ModelRow) → IsUsed low_epoch taken bucket.old rows → low_epoch ≤ S.upper source.old → IsUsed low_epoch taken bucket.new rows }
        ensures sound { (rows log : List ModelRow) → Serves (S.tells source.old) bucket.old rows → Holds bucket.old rows log → IsSound (rows ++ log) → SoundReading rows log bucket.new (λ done. IsKept (rows ++ log) low.now high.now limit self.old.next self.old.pairs → IsKept (rows ++ log) low.now high.now limit self.new.next self.new.pairs) result }
    {
        match scan(source, bucket, low, high, limit, &mut self.pairs) {
            Ok(()) => {
                let gathered = mem::replace(&mut self.pairs, Items::new(self.alloc));
                self.pairs = cut(gathered, limit as usize);
                self.next += 1;
                Ok(())
            }
            Err(fault) => Err(fault),
        }
    }
}

/// How many pairs a scan wants.
fn limit_of(call: &Call) -> u32
    ensures { result ≡ limit_of call.now }
{
    match call {
        Call::Scan { limit, .. } => *limit,
        _ => 0,
    }
}

impl Draft {
    /// Keeps a scan with its reply, once all buckets were gone through: the pairs in the byte order of their keys, cut to the limit, moved.
    /// After `NoMemory` the draft is failed.
    pub fn found(&mut self, call: &Call, scan: RangeScan) -> Result<(), NoMemory>
        requires open { self.old.failed ≡ false }
        requires scan { is_scan call.now ≡ true }
        requires all { scan.next ≡ buckets }
        ensures kept { OnOk result (KeepsFound call.now scan.pairs self.old self.new) }
        ensures fits { OnOk result (FitsDraft self.old → FitsDraft self.new) }
        ensures rows { OnOk result (self.new.rows ≡ self.old.rows) }
        ensures left { OnErr result (IsLost self.old self.new) }
        ensures sound { OnOk result ((rows : List ModelRow) (low high : List ℕ) (limit : ℕ) → call.now ≡ call_of.Scan low high limit → IsAnswered rows self.old → IsKept (rows ++ self.old.rows) low high limit 256 scan.pairs → IsAnswered rows self.new) }
    {
        let limit = limit_of(call) as usize;
        let pairs = first_of(scan.pairs, limit);
        match self.note(call, Reply::Found { pairs }, None) {
            Ok(()) => Ok(()),
            Err(refused) => {
                self.failed = true;
                Err(refused)
            }
        }
    }
}
