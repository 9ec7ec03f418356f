//! A call that is answered through a view.

ghost use Rattle.std.specs.Prelude.{◌≡◌, ◌<◌, true, false, IfErr};
ghost use Rattle.fine_model.specs.Bounds.{FitsCall};
ghost use Rattle.fine_model.specs.Pushed.{key_of};
ghost use Rattle.fine_model.specs.Trees.{bucket_of as bucket_of_key};
ghost use Rattle.node_cache.specs.Cache.{Cache};
ghost use Rattle.btree_nodes.specs.Calls.{OnCleanAnswer};
ghost use Rattle.txn_draft.specs.Answers.{FailsBy};
ghost use Rattle.txn_draft.specs.Drafts.{is_scan};
ghost use Rattle.partition_hold.specs.Sources.{Fails, IsClean, IsLater};
ghost use Rattle.key_locks.specs.Locks.{HasLock};
ghost use Rattle.txn_engine.specs.Reads.{Traces};
ghost use Rattle.txn_engine.specs.Steps.{AnswersIn, ReadsIn};
ghost use Rattle.txn_engine.specs.Txns.{HasBuckets, AreNumbered};

use crate::scans::scan_all;
use btree_nodes::TreeFault;
use fine_model::{Call, bucket_of};
use hall_rooms::HeldBucket;
use key_locks::LockSet;
use log_disk::LogEye;
use partition_hold::View;
use std::alloc::Global;
use txn_draft::Draft;

/// The key of a call; that of a scan is its low bound.
pub(crate) fn key_of(call: &Call) -> &[u8]
    ensures { result.now ≡ key_of call.now }
{
    match call {
        Call::Get { key } => key.as_slice(),
        Call::Put { key, value: _ } => key.as_slice(),
        Call::Del { key } => key.as_slice(),
        Call::Add { key, by: _ } => key.as_slice(),
        Call::Scan {
            low,
            high: _,
            limit: _,
        } => low.as_slice(),
    }
}

/// Answers a call that is no scan in the bucket of its key, which is in the set.
fn answer_in<E: LogEye>(
    draft: &mut Draft,
    locks: &mut LockSet<HeldBucket>,
    front: &mut View<E>,
    bucket: u16,
    call: &Call,
) -> Result<(), TreeFault>
    requires open { draft.old.failed ≡ false }
    requires bucket { (bucket ≡ bucket_of_key (key_of call.now)) × (bucket < 256) }
    requires held { (b : Cache) × HasLock locks.old bucket b × (b.bucket ≡ bucket) }
    requires call { FitsCall call.now }
    requires no_scan { is_scan call.now ≡ false }
    ensures later { IsLater front.old front.new }
    ensures clean { OnCleanAnswer result (IsClean front.old front.new) }
    ensures fails { IfErr result (FailsBy (λ failed. Fails front.old failed front.new)) }
    ensures answers { AnswersIn front.old bucket locks.old locks.new draft.old draft.new call.now result }
{
    let Some(content) = locks.bucket(bucket) else {
        unreachable!()
    };
    draft.answer(front, content.bucket(), call)
}

/// Answers a call in its buckets, which are in the set.
pub(crate) fn read<E: LogEye>(
    alloc: Global,
    draft: &mut Draft,
    locks: &mut LockSet<HeldBucket>,
    front: &mut View<E>,
    call: &Call,
) -> Result<(), TreeFault>
    requires open { draft.old.failed ≡ false }
    requires call { FitsCall call.now }
    requires held { HasBuckets call.now locks.old × AreNumbered locks.old }
    ensures later { IsLater front.old front.new }
    ensures clean { OnCleanAnswer result (IsClean front.old front.new) }
    ensures fails { IfErr result (FailsBy (λ failed. Fails front.old failed front.new)) }
    ensures reads { ReadsIn front.old locks.old locks.new draft.old draft.new call.now result }
    ensures traces { Traces front.old locks.old locks.new draft.old draft.new call.now result }
{
    match call {
        Call::Scan { low, high, limit } => scan_all(
            alloc,
            draft,
            locks,
            front,
            call,
            low.as_slice(),
            high.as_slice(),
            *limit,
        ),
        _ => answer_in(draft, locks, front, bucket_of(key_of(call)), call),
    }
}
