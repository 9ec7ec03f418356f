//! Which buckets the open transaction touched.

ghost use Rattle.std.specs.Prelude.{◌≡◌, ◌<◌, IfOk, MatchOption, Some, false, true, slice_get, slice_set};
ghost use Rattle.open_txn.specs.Buckets.{none_touched};
ghost use Rattle.open_txn.specs.Touched.{Clears};

use crate::buckets::BUCKETS;
use fine_model::NoMemory;
use std::alloc::Global;
use std::marker::Model;

/// Of each bucket whether it is touched. Contracts see the list of these flags.
///
/// The numbers of those that are touched are kept beside them, so that the end of a transaction looks at no other bucket.
#[derive(Drop)]
pub(crate) struct Touched {
    flags: Vec<bool>,
    numbers: Vec<u8>,
}

impl Model for Touched {
    ghost use Rattle.std.specs.Prelude.{Bool, List, vec_capacity};
    ghost use Rattle.open_txn.specs.Touched.{AreNumbered};

    ghost Value = { List Bool };

    ghost view = { λ t. t.flags.items };

    ghost invariant = { λ t. AreNumbered t.flags.items t.numbers.items (vec_capacity t.numbers) };
}

/// Flags that say that no bucket is touched.
fn no_flags(alloc: Global) -> Result<Vec<bool>, NoMemory>
    ensures { IfOk result (λ made. made.items ≡ none_touched) }
{
    Ok(vec![in alloc; false; BUCKETS]?)
}

impl Touched {
    /// No bucket is touched. It is the only call that takes memory.
    pub(crate) fn new(alloc: Global) -> Result<Touched, NoMemory>
        ensures { IfOk result (λ made. made ≡ none_touched) }
    {
        Ok(Touched {
            flags: no_flags(alloc)?,
            numbers: Vec::with_capacity(alloc, BUCKETS)?,
        })
    }

    /// Whether a bucket is touched.
    pub(crate) fn has(&self, bucket: u16) -> bool
        requires { bucket < 256 }
        ensures { slice_get self.now bucket ≡ Some result }
    {
        self.flags[usize::from(bucket)]
    }

    /// Notes that a bucket is touched.
    pub(crate) fn add(&mut self, bucket: usize)
        requires { bucket < 256 }
        ensures { self.new ≡ slice_set self.old bucket true }
    {
        if self.flags[bucket] {
            return;
        }
        self.flags[bucket] = true;
        self.numbers.push_reserved(bucket as u8);
    }

    /// Takes the number of a bucket that is touched, which is not touched then. None exactly where none is.
    pub(crate) fn take(&mut self) -> Option<usize>
        ensures { MatchOption result ((self.new ≡ self.old) × (self.old ≡ none_touched)) (Clears self.old self.new) }
    {
        let Some(number) = self.numbers.pop() else {
            return None;
        };
        let bucket = usize::from(number);
        self.flags[bucket] = false;
        Some(bucket)
    }
}
