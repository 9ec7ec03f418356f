//! Two transactions on one bucket: one commits, and then one is taken back, while the source tells neither of them.

ghost use Rattle.std.specs.Prelude.{◌≡◌, ◌<◌, ℕ, [], false, List, IfOk, IfSome};
ghost use Rattle.open_txn_tests.specs.Cited.{AreSmall, FitsCall, Holds, IsResting, IsSound, Row as ModelRow, Serves, blank, bucket_of, cached, is_scan, key_of};
ghost use Rattle.open_txn_tests.specs.Twice.{IsTwice};

use crate::tests::calls::put;
use btree_nodes::TreeFault;
use btree_nodes_tests::rows::Rows;
use fine_model::{Call, Entry, Reply, bucket_of};
use node_cache::{Bucket, NodeSource};
use std::alloc::Global;
use std::test::*;
use txn_draft::{Draft, settle, undo};

/// Commits one call under an epoch, and then takes another one back. All that is cached is of later epochs than what is published, so nothing is
/// evicted. The second call is answered on what the first one left, which the source does not tell.
fn commit_and_abort<S: NodeSource>(
    source: &mut S,
    bucket: &mut Bucket,
    first: &mut Draft,
    second: &mut Draft,
    call: &Call,
    next_call: &Call,
    epoch: u64,
    published: u64,
) -> Result<(Entry, Result<(), TreeFault>), TreeFault>
    requires first { (lane : ℕ) × (turn : ℕ) × (first.old ≡ blank lane turn) }
    requires second { (lane : ℕ) × (turn : ℕ) × (second.old ≡ blank lane turn) }
    requires bucket { bucket.old.bucket ≡ bucket_of (key_of call.now) }
    requires same { bucket.old.bucket ≡ bucket_of (key_of next_call.now) }
    requires fits { FitsCall call.now × FitsCall next_call.now }
    requires no_scan { (is_scan call.now ≡ false) × (is_scan next_call.now ≡ false) }
    requires resting { IsResting bucket.old }
    requires later { (published < epoch) × (published < S.upper source.old) }
    requires kept { (n : ℕ) → IfSome (cached bucket.old n) (λ kept. published < kept.epoch) }
    ensures sound { (rows : List ModelRow) → Serves (S.tells source.old) bucket.old rows → Holds bucket.old rows [] → AreSmall rows → IsSound rows → IfOk result (λ p. IsTwice rows call.now next_call.now p.0 second.old second.new bucket.new p.1) }
{
    first.answer(source, bucket, call)?;
    let entry = first.take_entry();
    settle(bucket, epoch, published, 0);
    let answer = second.answer(source, bucket, next_call);
    undo(bucket, published, 0);
    Ok((entry, answer))
}

/// What two transactions that set one key come to: the entry of the first one, how many bytes the second one pushed, and whether it failed.
fn set_twice(alloc: Global) -> Result<(Entry, usize, bool), Fail> {
    let mut source = Rows::none(alloc, 1);
    let key = b"c";
    let mut bucket = Bucket::new(alloc, bucket_of(key));
    let mut first = Draft::new(alloc, 1, 1);
    let mut second = Draft::new(alloc, 1, 2);
    let call = put(alloc, key, b"5")?;
    let done = commit_and_abort(
        &mut source,
        &mut bucket,
        &mut first,
        &mut second,
        &call,
        &call,
        1,
        0,
    );
    let Ok((entry, Ok(()))) = done else {
        return Err(Fail::from("refused"));
    };
    Ok((entry, second.log().bytes().len(), second.failed()))
}

#[test]
fn the_second_transaction_sees_the_first(rt: HostRuntime) -> Result<(), Fail> {
    let (entry, pushed, failed) = set_twice(rt.alloc())?;
    assert!(rt; matches!(entry.replies.as_slice(), [Reply::Stored]));
    assert_eq!(rt; (entry.rows.len(), pushed, failed), (1, 24, false));
    Ok(())
}
