//! Calls of a transaction.

ghost use Rattle.std.specs.Prelude.{◌≡◌, ◌<◌, true, false, IfErr, MatchBool};
ghost use Rattle.fine_model.specs.Bounds.{FitsCall};
ghost use Rattle.partition_hold.specs.Views.{state_of};
ghost use Rattle.txn_draft.specs.Drafts.{is_scan};
ghost use Rattle.fine_hall.specs.Halls.{IsAhead};
ghost use Rattle.node_cache.specs.Cache.{Cache};
ghost use Rattle.key_locks.specs.Locks.{AreLocksOf, HasLock, LacksLock};
ghost use Rattle.hall_rooms.specs.Rooms.{IsRoomPass, beginning_of};
ghost use Rattle.txn_engine.specs.Txns.{CallsOr, HasBuckets, IsOpenTxn, SeesCall, StaysFailed, is_conflict, wants_memory};
ghost use Rattle.txn_engine.specs.Reads.{WereHeldOrTaken, ReadsBuckets};
ghost use Rattle.txn_engine.specs.Turns.{LocksOr, ReadsFront, TakesOr};
ghost use Rattle.txn_engine.specs.Faults.{after_fault, fault_of, source_fault};

use crate::reads::{key_of, read};
use crate::txn::{Txn, TxnFault};
use btree_nodes::TreeFault;
use fine_hall::{Conflict, Pass};
use fine_model::{Call, FetchFault, bucket_of};
use hall_rooms::{HeldBucket, RoomHall};
use key_locks::LockSet;
use log_disk::LogDisk;
use partition_hold::View;

/// Whether a call is a scan.
fn is_scan(call: &Call) -> bool
    ensures { result ≡ is_scan call.now }
{
    match call {
        Call::Scan {
            low: _,
            high: _,
            limit: _,
        } => true,
        _ => false,
    }
}

/// A fault of a source as one of a transaction.
fn as_source_fault(fault: FetchFault) -> TxnFault
    ensures { result ≡ source_fault fault }
{
    match fault {
        FetchFault::Failed => TxnFault::Disk,
        FetchFault::BadRow { region, at } => TxnFault::BadRow { region, at },
        FetchFault::BadIndex { region, at } => TxnFault::BadIndex { region, at },
        FetchFault::NoMemory => TxnFault::NoMemory,
    }
}

/// A fault of a tree as one of a transaction.
fn as_fault(fault: TreeFault) -> TxnFault
    ensures { result ≡ fault_of fault }
{
    match fault {
        TreeFault::Source { fault } => as_source_fault(fault),
        TreeFault::Unfit { node } => TxnFault::Unfit { node },
        TreeFault::BucketFull { next, depth } => TxnFault::BucketFull { next, depth },
        TreeFault::Number { node } => TxnFault::Number { node },
        TreeFault::NoMemory => TxnFault::NoMemory,
    }
}

/// Whether a set has a bucket.
fn has_bucket(locks: &mut LockSet<HeldBucket>, bucket: u16) -> bool
    requires { bucket < 256 }
    ensures has { MatchBool result ((b : Cache) × HasLock locks.old bucket b) (LacksLock locks.old bucket) }
    ensures same { locks.new ≡ locks.old }
{
    match locks.bucket(bucket) {
        Some(_content) => true,
        None => false,
    }
}

/// Takes the buckets of a call: that of its key, unless the set has it, or all of them for a scan.
fn take_buckets<D: LogDisk>(
    locks: &mut LockSet<HeldBucket>,
    hall: &RoomHall<D>,
    pass: &mut Pass<View<D::Eye>>,
    call: &Call,
) -> Result<(), Conflict>
    requires pass { IsRoomPass hall.now pass.old × AreLocksOf locks.old pass.old }
    requires call { FitsCall call.now }
    ensures pass { IsRoomPass hall.now pass.new × (pass.new.number ≡ pass.old.number) × AreLocksOf locks.new pass.new }
    ensures locks { LocksOr (beginning_of hall.now) call.now locks.old locks.new pass.old pass.new result }
{
    if is_scan(call) {
        return locks.want_all(hall, pass);
    }
    let key = key_of(call);
    if has_bucket(locks, bucket_of(key)) {
        return Ok(());
    }
    locks.want(hall, pass, key)
}

impl Txn {
    /// Takes the buckets of a call, and then looks once at the pass's mailbox.
    fn take_for<D: LogDisk>(
        &mut self,
        hall: &RoomHall<D>,
        pass: &mut Pass<View<D::Eye>>,
        call: &Call,
    ) -> Result<(), Conflict>
        requires pass { IsRoomPass hall.now pass.old }
        requires open { IsOpenTxn (beginning_of hall.now) self.old pass.old }
        requires call { FitsCall call.now }
        ensures pass { IsRoomPass hall.now pass.new × (pass.new.number ≡ pass.old.number) }
        ensures takes { TakesOr (beginning_of hall.now) call.now self.old self.new pass.old pass.new result }
        ensures there { WereHeldOrTaken (beginning_of hall.now) self.old self.new.locks pass.new }
    {
        if let Err(conflict) = take_buckets(&mut self.locks, hall, pass, call) {
            return Err(conflict);
        }
        hall.refresh(pass);
        Ok(())
    }

    /// Answers a call through the pass's front.
    fn read_for<D: LogDisk>(
        &mut self,
        hall: &RoomHall<D>,
        pass: &mut Pass<View<D::Eye>>,
        call: &Call,
    ) -> Result<(), TreeFault>
        requires pass { IsRoomPass hall.now pass.old }
        requires open { IsOpenTxn (beginning_of hall.now) self.old pass.old × (self.old.draft.failed ≡ false) }
        requires call { FitsCall call.now × HasBuckets call.now self.old.locks }
        ensures reads { ReadsFront call.now self.old self.new pass.old pass.new result }
    {
        read(
            self.alloc,
            &mut self.draft,
            &mut self.locks,
            pass.view(),
            call,
        )
    }

    /// A fault of a tree as one of a transaction, which is given up where memory ran out.
    fn refused(&mut self, fault: TreeFault) -> TxnFault
        ensures fault { result ≡ fault_of fault }
        ensures after { self.new ≡ after_fault result self.old }
    {
        match as_fault(fault) {
            TxnFault::NoMemory => {
                self.draft.fail();
                TxnFault::NoMemory
            }
            fault => fault,
        }
    }

    /// Answers a call: takes its buckets, looks once at the pass's mailbox, and reads what is not cached through the pass's front. It takes no turn, and waits
    /// for nobody.
    ///
    /// The call then stands behind the others, answered on all that the pass saw [`answer`, `open`]. `Conflict` names the first bucket of the call that another
    /// seat was found to hold, and leaves the draft; the pass keeps what it took, which for a scan is all buckets below that one. `Disk` comes only where a
    /// read through the front failed. `BadRow` and `BadIndex` name a place of a part of the front that is bad by what was read, and `Unfit` the first node on
    /// the call's way that is not fit, by what a bucket gives that is then held, of a scan the first one in some bucket; these do not come where the log at entry was told and sound. There
    /// `BucketFull` and `Number` come only where the definitions refuse the call for this reason, with what the bucket's head says, and with the first node
    /// that is over its bounds. After each of these it may be tried again. Unless a conflict refused it, or memory had run out before it, the pass's front then shows
    /// what the pass saw, up to an epoch not below the published one that it knows [`ahead`]. `NoMemory` leaves the transaction failed, and no other answer does [`failed`]: each
    /// later call answers it too, and changes nothing, until the transaction is aborted.
    ///
    /// Whatever the log is, and again unless a conflict refused it or memory had run out before it, each bucket of the call is what the call made of the one that the transaction
    /// held or took [`reads`]: nodes on the call's way were loaded through the front, and then it was answered on what the bucket gives, and its rows were pushed on that. A scan only
    /// loads, and answers the first pairs that the buckets give then. Each refusal but `NoMemory` only loads; `Unfit`, `BucketFull` and `Number` have their cause in what the bucket gives then. A
    /// conflict leaves the transaction's own buckets as they were; one that was taken rests, and stands for all that the pass then saw [`leaves`].
    pub fn call<D: LogDisk>(
        &mut self,
        hall: &RoomHall<D>,
        pass: &mut Pass<View<D::Eye>>,
        call: &Call,
    ) -> Result<(), TxnFault>
        requires pass { IsRoomPass hall.now pass.old }
        requires open { IsOpenTxn (beginning_of hall.now) self.old pass.old }
        requires call { FitsCall call.now }
        ensures pass { IsRoomPass hall.now pass.new × (pass.new.number ≡ pass.old.number) }
        ensures open { IsOpenTxn (beginning_of hall.now) self.new pass.new }
        ensures failed { self.new.draft.failed ≡ wants_memory result }
        ensures gone { self.old.draft.failed ≡ true → StaysFailed self.old self.new pass.old pass.new result }
        ensures sees { SeesCall (beginning_of hall.now) pass.old pass.new }
        ensures answer { CallsOr (beginning_of hall.now) call.now self.old self.new pass.old pass.new result }
        ensures ahead { self.old.draft.failed ≡ false → is_conflict result ≡ false → IsAhead state_of (beginning_of hall.now) pass.new }
        ensures leaves { self.old.draft.failed ≡ false → is_conflict result ≡ true → WereHeldOrTaken (beginning_of hall.now) self.old self.new.locks pass.new }
        ensures reads { self.old.draft.failed ≡ false → is_conflict result ≡ false → ReadsBuckets (beginning_of hall.now) call.now self.old self.new pass.new result }
    {
        if self.draft.failed() {
            return Err(TxnFault::NoMemory);
        }
        if let Err(conflict) = self.take_for(hall, pass, call) {
            return Err(TxnFault::Conflict {
                bucket: conflict.bucket,
                owner: conflict.owner,
            });
        }
        match self.read_for(hall, pass, call) {
            Ok(()) => Ok(()),
            Err(fault) => Err(self.refused(fault)),
        }
    }
}
