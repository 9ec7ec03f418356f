//! The buckets of a store.

ghost use Rattle.std.specs.Prelude.{◌≡◌, ◌<◌, ℕ, map, slice_get, IfOk, Some, []};
ghost use Rattle.std.specs.List.{range_with_len};
ghost use Rattle.fine_model.specs.declared.law.Origin.{Origin};
ghost use Rattle.open_txn.specs.Buckets.{new_bucket};

use crate::ending::{settle_touched, undo_touched};
use crate::touched::Touched;
use fine_model::NoMemory;
use node_cache::Bucket;
use std::alloc::Global;
use std::marker::Model;

/// How many buckets there are.
pub const BUCKETS: usize = 256;

/// The 256 buckets of a store, and which of them the open transaction touched. Contracts see both as lists, in the order of the buckets' numbers.
#[derive(Drop)]
pub struct Buckets {
    pub(crate) buckets: Vec<Bucket>,
    pub(crate) touched: Touched,
}

impl Model for Buckets {
    ghost use Rattle.open_txn.specs.Buckets.{BucketsValue, AreBuckets};
    ghost use Rattle.open_txn.specs.Codes.{buckets_code};

    ghost Value = { BucketsValue };

    ghost coded = { buckets_code };

    ghost view = { λ b. record { buckets = b.buckets.items; touched = b.touched } };

    ghost invariant = { λ b. AreBuckets (record { buckets = b.buckets.items; touched = b.touched }) };
}

/// Buckets that cache nothing.
fn new_buckets(alloc: Global) -> Result<Vec<Bucket>, NoMemory>
    ensures { IfOk result (λ made. made.items ≡ map new_bucket (range_with_len 0 256)) }
{
    let mut made = Vec::with_capacity(alloc, BUCKETS)?;
    for number in 0..256u16 {
        made.push(Bucket::new(alloc, number))?;
    }
    Ok(made)
}

impl Buckets {
    ghost use Rattle.node_cache.specs.Cache.{after, before, settled, undone, evicted};
    ghost use Rattle.open_txn.specs.Buckets.{AreBuckets, AreNew, StandAll};
    ghost use Rattle.open_txn.specs.Opened.{EndsTouched, LeavesEach, SettlesAll, UndoesAll};

    /// Buckets that cache nothing [`new`] and of which none is touched. They stand for the history that has not begun, on any log, whatever is published [`stand`].
    /// `NoMemory` is the only refusal.
    pub fn new(alloc: Global) -> Result<Buckets, NoMemory>
        ensures whole { IfOk result AreBuckets }
        ensures new { IfOk result AreNew }
        ensures stand { IfOk result (λ made. (log : Origin) (published : ℕ) → StandAll log published made []) }
    {
        Ok(Buckets {
            buckets: new_buckets(alloc)?,
            touched: Touched::new(alloc)?,
        })
    }

    /// Whether the open transaction touched a bucket.
    pub fn is_touched(&self, bucket: u16) -> bool
        requires { bucket < 256 }
        ensures value { slice_get self.now.touched bucket ≡ Some result }
        ensures whole { AreBuckets self.now }
    {
        self.touched.has(bucket)
    }

    /// Keeps what was done to the buckets that were touched, under the epoch of the transaction's commit, and evicts from these what is published, but for
    /// `keep` nodes of each [`ends`, `left`]. The others stay, and none is touched then. Where all calls of a transaction were answered on buckets that stood
    /// for a history, they stand for it with the commit [`stands`]. It takes no memory.
    pub fn settle(&mut self, epoch: u64, published: u64, keep: usize)
        ensures whole { AreBuckets self.new }
        ensures ends { EndsTouched (λ b. evicted published keep (settled epoch b)) self.old self.new }
        ensures left { LeavesEach published (λ b. after b epoch) self.old self.new }
        ensures stands { SettlesAll epoch published self.old self.new }
    {
        settle_touched(&mut self.buckets, &mut self.touched, epoch, published, keep);
    }

    /// Takes back what was done to the buckets that were touched, and evicts as `settle` does [`ends`, `left`]. The others stay, and none is touched then. They
    /// stand for the history as before the transaction [`stands`]. It takes no memory.
    pub fn undo(&mut self, published: u64, keep: usize)
        ensures whole { AreBuckets self.new }
        ensures ends { EndsTouched (λ b. evicted published keep (undone b)) self.old self.new }
        ensures left { LeavesEach published before self.old self.new }
        ensures stands { UndoesAll published self.old self.new }
    {
        undo_touched(&mut self.buckets, &mut self.touched, published, keep);
    }
}
