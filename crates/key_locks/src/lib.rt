//! The buckets that a transaction has taken, by number.
#![tactic(auto)]

ghost use Rattle.std.specs.Prelude.{◌≡◌, ◌≢◌, ◌<◌, ◌≤◌, ℕ, IfOk, IfErr, OnOk, OnErr, MatchBool, MatchOption, None, Some, Option, length, replicate, slice_get, slice_set, vec_len};
ghost use Rattle.fine_model.specs.Trees.{bucket_of as bucket_of_key};
ghost use Rattle.fine_model.specs.Buckets.{IsBucketFor};
ghost use Rattle.fine_hall.specs.Passes.{published, seen, HasPlace, LacksPlace};
ghost use Rattle.fine_hall.specs.Halls.{IsPassOf, begun, FindsHeld};
ghost use Rattle.std.specs.Option.{option_copied_mut};
ghost use Rattle.std.specs.Borrow.{sem};
ghost use Rattle.key_locks.specs.Lent.{LendsBucket};
ghost use Rattle.key_locks.specs.Slots.{EachBy, Empties, LeavesAt, number_filled};
ghost use Rattle.key_locks.specs.Locks.{HasLock, LacksLock, AreLocksOf, AllStand, Wants, Gathers, HasAllBelow, StopsAt, Releases};

use crate::slots::Slots;
use fine_hall::{Conflict, Hall, Pass};
use fine_model::{BucketLaw, NoMemory, RoomLaw, ViewLaw, bucket_of};
use std::alloc::Global;
use std::marker::Model;
use std::snapshot::Snapshot;

mod laws;
mod slots;

pub use laws::{hold_law, stand_law};

/// How many buckets there are.
const BUCKETS: u16 = 256;

/// The contents of the buckets that a pass holds, each in the place of its number. Contracts see the list of the 256 places.
///
/// A bucket that was taken is held until `release_all`.
#[derive(Drop)]
pub struct LockSet<B> {
    slots: Slots<B>,
}

impl<B> Model for LockSet<B> {
    ghost use Rattle.std.specs.Prelude.{List, Option};

    ghost Value = { List (Option B) };

    ghost view = { λ s. s.slots };
}

impl<B: BucketLaw + Drop> LockSet<B> {
    /// A set that holds nothing. It is the only call that takes memory.
    pub fn new(alloc: Global) -> Result<LockSet<B>, NoMemory>
        ensures { IfOk result (λ locks. locks ≡ replicate 256 None) }
    {
        Ok(LockSet {
            slots: Slots::new(alloc)?,
        })
    }

    /// The content of a bucket. None exactly where it is not held.
    pub fn bucket(&mut self, bucket: u16) -> Option<&mut B>
        requires { bucket < 256 }
        ensures value { slice_get self.old bucket ≡ Some (option_copied_mut result) }
        ensures* writes_back { sem 𝓛 (LendsBucket B.row self.entry bucket result) }
    {
        self.slots.get(bucket)
    }

    /// Changes the content of each bucket that is held. It goes over no other place, which no clause says.
    pub fn each<F: Fn(&mut B)>(&mut self, change: F)
        requires { F.IsAlwaysCallable change }
        ensures { EachBy (LeavesAt F.Fn change) self.old self.new }
    {
        self.slots.each(change);
    }

    /// Whether a bucket is held.
    fn is_held(&self, bucket: u16) -> bool
        requires { bucket < 256 }
        ensures { MatchBool result ((content : B) × HasLock self.now bucket content) (LacksLock self.now bucket) }
    {
        self.slots.is_filled(bucket)
    }

    fn keep(&mut self, bucket: u16, content: B)
        requires { (bucket < 256) × LacksLock self.old bucket }
        ensures { self.new ≡ slice_set self.old bucket (Some content) }
    {
        self.slots.fill(bucket, content);
    }

    /// Takes the content of a bucket that is held out of the set. None exactly where none is held.
    fn take_one(&mut self) -> Option<(u16, B)>
        ensures { MatchOption result (((k : ℕ) → k < 256 → LacksLock self.old k) × (self.new ≡ self.old)) (λ taken. Empties self.old self.new taken.0 taken.1) }
    {
        self.slots.take_one()
    }

    /// Takes a bucket where it is not held yet.
    fn take<R: RoomLaw, V: ViewLaw>(
        &mut self,
        hall: &Hall<R, B, V>,
        pass: &mut Pass<V>,
        bucket: u16,
    ) -> Result<(), Conflict>
        requires bucket { bucket < 256 }
        requires pass { IsPassOf R.state R.origin V.state hall.now pass.old × AreLocksOf self.old pass.old }
        ensures pass { IsPassOf R.state R.origin V.state hall.now pass.new × (pass.new.number ≡ pass.old.number) × AreLocksOf self.new pass.new }
        ensures wants { OnOk result (Wants B.bucket B.cached B.is_settled (begun R.state R.origin V.state hall.now).log bucket self.old self.new pass.old pass.new) }
        ensures gathers { OnOk result (Gathers B.bucket B.cached B.is_settled (begun R.state R.origin V.state hall.now).log self.old self.new pass.old pass.new) }
        ensures there { OnOk result ((content : B) × HasLock self.new bucket content) }
        ensures others { (k : ℕ) → k ≢ bucket → slice_get self.new k ≡ slice_get self.old k }
        ensures stands { AllStand B.bucket B.cached B.is_settled (begun R.state R.origin V.state hall.now).log self.old pass.old → AllStand B.bucket B.cached B.is_settled (begun R.state R.origin V.state hall.now).log self.new pass.new }
        ensures conflict { IfErr result (λ conflict. (conflict.bucket ≡ bucket) × LacksLock self.old bucket × FindsHeld (begun R.state R.origin V.state hall.now) bucket conflict.owner pass.old pass.new) }
        ensures same { OnErr result (self.new ≡ self.old) }
    {
        if self.is_held(bucket) {
            return Ok(());
        }
        let content = hall.take_bucket(pass, bucket)?;
        self.keep(bucket, content);
        Ok(())
    }

    /// Takes the bucket of a key of 1 to 64 bytes where it is not held yet. A conflict comes exactly where a try found another seat's
    /// number, the only try that did, and leaves the set as it was. It takes no memory.
    ///
    /// Where each content in the set stood for the whole history that the pass saw, it still does.
    pub fn want<R: RoomLaw, V: ViewLaw>(
        &mut self,
        hall: &Hall<R, B, V>,
        pass: &mut Pass<V>,
        key: &[u8],
    ) -> Result<(), Conflict>
        requires key { (1 ≤ length key.now) × (length key.now ≤ 64) }
        requires pass { IsPassOf R.state R.origin V.state hall.now pass.old × AreLocksOf self.old pass.old }
        ensures pass { IsPassOf R.state R.origin V.state hall.now pass.new × (pass.new.number ≡ pass.old.number) × AreLocksOf self.new pass.new }
        ensures wants { OnOk result (Wants B.bucket B.cached B.is_settled (begun R.state R.origin V.state hall.now).log (bucket_of_key key.now) self.old self.new pass.old pass.new) }
        ensures conflict { IfErr result (λ conflict. (conflict.bucket ≡ bucket_of_key key.now) × LacksLock self.old (bucket_of_key key.now) × FindsHeld (begun R.state R.origin V.state hall.now) (bucket_of_key key.now) conflict.owner pass.old pass.new) }
        ensures stands { AllStand B.bucket B.cached B.is_settled (begun R.state R.origin V.state hall.now).log self.old pass.old → AllStand B.bucket B.cached B.is_settled (begun R.state R.origin V.state hall.now).log self.new pass.new }
        ensures same { OnErr result (self.new ≡ self.old) }
    {
        self.take(hall, pass, bucket_of(key))
    }

    /// Takes all buckets that are not held yet. A conflict at a bucket comes exactly where a try found another seat's number there, the
    /// only try that found any; all buckets below it are then in the set, and it and those above are as they were. It takes no memory.
    ///
    /// Where each content in the set stood for the whole history that the pass saw, it still does.
    pub fn want_all<R: RoomLaw, V: ViewLaw>(
        &mut self,
        hall: &Hall<R, B, V>,
        pass: &mut Pass<V>,
    ) -> Result<(), Conflict>
        requires pass { IsPassOf R.state R.origin V.state hall.now pass.old × AreLocksOf self.old pass.old }
        ensures pass { IsPassOf R.state R.origin V.state hall.now pass.new × (pass.new.number ≡ pass.old.number) × AreLocksOf self.new pass.new }
        ensures all { OnOk result (HasAllBelow 256 self.new) }
        ensures gathers { OnOk result (Gathers B.bucket B.cached B.is_settled (begun R.state R.origin V.state hall.now).log self.old self.new pass.old pass.new) }
        ensures conflict { IfErr result (λ conflict. StopsAt B.bucket B.cached B.is_settled (begun R.state R.origin V.state hall.now) conflict.bucket conflict.owner self.old self.new pass.old pass.new) }
        ensures stands { AllStand B.bucket B.cached B.is_settled (begun R.state R.origin V.state hall.now).log self.old pass.old → AllStand B.bucket B.cached B.is_settled (begun R.state R.origin V.state hall.now).log self.new pass.new }
    {
        for bucket in 0..BUCKETS {
            self.take(hall, pass, bucket)?;
        }
        Ok(())
    }

    /// Gives back a bucket that is held. False exactly where none is.
    fn release_one<R: RoomLaw, V: ViewLaw>(
        &mut self,
        hall: &Hall<R, B, V>,
        pass: &mut Pass<V>,
    ) -> bool
        requires pass { IsPassOf R.state R.origin V.state hall.now pass.old × AreLocksOf self.old pass.old }
        requires stands { AllStand B.bucket B.cached B.is_settled (begun R.state R.origin V.state hall.now).log self.old pass.old }
        ensures pass { IsPassOf R.state R.origin V.state hall.now pass.new × (pass.new.number ≡ pass.old.number) × AreLocksOf self.new pass.new }
        ensures stands { AllStand B.bucket B.cached B.is_settled (begun R.state R.origin V.state hall.now).log self.new pass.new }
        ensures releases { Releases self.old self.new pass.old pass.new }
        ensures fewer { MatchBool result (number_filled self.new < number_filled self.old) ((k : ℕ) → k < 256 → LacksLock self.new k) }
    {
        let Some((bucket, content)) = self.take_one() else {
            return false;
        };
        hall.give_bucket(pass, bucket, content);
        true
    }

    /// Gives all buckets back, and hands out the set as it was, for contracts alone. It takes no memory, and goes over no other place, which no clause says.
    ///
    /// Each content stands for the whole history that the pass saw.
    pub fn release_all<R: RoomLaw, V: ViewLaw>(
        &mut self,
        hall: &Hall<R, B, V>,
        pass: &mut Pass<V>,
    ) -> Snapshot<LockSet<B>>
        requires pass { IsPassOf R.state R.origin V.state hall.now pass.old × AreLocksOf self.old pass.old }
        requires stands { AllStand B.bucket B.cached B.is_settled (begun R.state R.origin V.state hall.now).log self.old pass.old }
        ensures pass { IsPassOf R.state R.origin V.state hall.now pass.new × (pass.new.number ≡ pass.old.number) × AreLocksOf self.new pass.new }
        ensures none { (k : ℕ) → k < 256 → LacksLock self.new k }
        ensures releases { Releases self.old self.new pass.old pass.new }
        ensures given_back { result.value ≡ self.old }
    {
        let given_back = Snapshot::of(self);
        while self.release_one(hall, pass) {}
        given_back
    }
}
