//! A scan over all buckets.

ghost use Rattle.std.specs.Prelude.{◌≡◌, ◌<◌, ◌+◌, false, IfErr, OnOk};
ghost use Rattle.fine_model.specs.declared.Call.TheVariants as call_of;
ghost use Rattle.node_cache.specs.Cache.{Cache};
ghost use Rattle.btree_nodes.specs.Calls.{OnCleanAnswer};
ghost use Rattle.txn_draft.specs.Answers.{FailsBy};
ghost use Rattle.partition_hold.specs.Sources.{Fails, IsClean, IsLater};
ghost use Rattle.key_locks.specs.Locks.{HasLock};
ghost use Rattle.txn_engine.specs.Reads.{EachWalks, GathersBelow, Traces};
ghost use Rattle.txn_engine.specs.Steps.{GathersIn, GathersOr, ScansIn};
ghost use Rattle.txn_engine.specs.Txns.{HasAll};

use btree_nodes::TreeFault;
use fine_model::Call;
use hall_rooms::HeldBucket;
use key_locks::LockSet;
use log_disk::LogEye;
use partition_hold::View;
use std::alloc::Global;
use txn_draft::{Draft, RangeScan};

/// How many buckets there are.
const BUCKETS: u16 = 256;

/// Gathers the first pairs of a range in the next bucket.
fn gather_in<E: LogEye>(
    scan: &mut RangeScan,
    locks: &mut LockSet<HeldBucket>,
    front: &mut View<E>,
    bucket: u16,
    low: &[u8],
    high: &[u8],
    limit: u32,
) -> Result<(), TreeFault>
    requires next { scan.old.next ≡ bucket }
    requires bucket { bucket < 256 }
    requires held { (b : Cache) × HasLock locks.old bucket b × (b.bucket ≡ bucket) }
    ensures later { IsLater front.old front.new }
    ensures clean { OnCleanAnswer result (IsClean front.old front.new) }
    ensures fails { IfErr result (FailsBy (λ failed. Fails front.old failed front.new)) }
    ensures next { OnOk result (scan.new.next ≡ bucket + 1) }
    ensures gathers { GathersIn front.old front.new bucket locks.old locks.new low.now high.now limit scan.old scan.new result }
{
    let Some(content) = locks.bucket(bucket) else {
        unreachable!()
    };
    scan.gather(front, content.bucket(), low, high, limit)
}

/// The same in all buckets, in the order of their numbers, up to the first fault.
fn gather_all<E: LogEye>(
    scan: &mut RangeScan,
    locks: &mut LockSet<HeldBucket>,
    front: &mut View<E>,
    low: &[u8],
    high: &[u8],
    limit: u32,
) -> Result<(), TreeFault>
    requires next { scan.old.next ≡ 0 }
    requires held { HasAll locks.old }
    ensures later { IsLater front.old front.new }
    ensures clean { OnCleanAnswer result (IsClean front.old front.new) }
    ensures fails { IfErr result (FailsBy (λ failed. Fails front.old failed front.new)) }
    ensures gathers { GathersOr front.old front.new locks.old locks.new low.now high.now limit scan.old scan.new result }
    ensures walks { EachWalks 256 front.old locks.old locks.new low.now high.now limit result }
    ensures finds { OnOk result (GathersBelow 256 locks.new low.now high.now limit scan.old.pairs scan.new.pairs) }
{
    for bucket in 0..BUCKETS {
        if let Err(fault) = gather_in(scan, locks, front, bucket, low, high, limit) {
            return Err(fault);
        }
    }
    Ok(())
}

/// Answers a scan in all buckets, which are in the set.
pub(crate) fn scan_all<E: LogEye>(
    alloc: Global,
    draft: &mut Draft,
    locks: &mut LockSet<HeldBucket>,
    front: &mut View<E>,
    call: &Call,
    low: &[u8],
    high: &[u8],
    limit: u32,
) -> Result<(), TreeFault>
    requires open { draft.old.failed ≡ false }
    requires scan { call.now ≡ call_of.Scan low.now high.now limit }
    requires held { HasAll locks.old }
    ensures later { IsLater front.old front.new }
    ensures clean { OnCleanAnswer result (IsClean front.old front.new) }
    ensures fails { IfErr result (FailsBy (λ failed. Fails front.old failed front.new)) }
    ensures scans { ScansIn front.old front.new locks.old locks.new draft.old draft.new call.now result }
    ensures traces { Traces front.old locks.old locks.new draft.old draft.new call.now result }
{
    let mut scan = RangeScan::new(alloc);
    if let Err(fault) = gather_all(&mut scan, locks, front, low, high, limit) {
        return Err(fault);
    }
    match draft.found(call, scan) {
        Ok(()) => Ok(()),
        Err(_) => Err(TreeFault::NoMemory),
    }
}
