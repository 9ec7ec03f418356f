//! All calls of a transaction.

ghost use Rattle.std.specs.Prelude.{◌≡◌, ◌<◌, ℕ, List, [], ◌∷◌, false, IfErr, OnOk};
ghost use Rattle.std.specs.List.{AllByRecursion};
ghost use Rattle.open_txn.specs.Cited.{Commit, FailsBy, FitsCall, OnCleanAnswer, Origin, blank, bucket_of, is_scan, key_of};
ghost use Rattle.open_txn.specs.OneCall.{AnswersOne};
ghost use Rattle.open_txn.specs.Opened.{AnswersCalls, IsOpen, IsReady, IsRefusal, TouchesOf};
ghost use Rattle.open_txn.specs.Steps.{Advances, Refuses};
ghost use Rattle.open_txn.specs.Traces.{AddsDone, AllDone, StopsAt};

use crate::buckets::Buckets;
use crate::scanning::scan_all;
use btree_nodes::TreeFault;
use fine_model::{Call, bucket_of};
use node_cache::NodeSource;
use txn_draft::Draft;

/// The bucket of a call's key; that of a scan is of its low bound.
fn bucket_for(call: &Call) -> u16
    requires { FitsCall call.now }
    ensures value { result ≡ bucket_of (key_of call.now) }
    ensures range { result < 256 }
{
    match call {
        Call::Get { key } => bucket_of(key.as_slice()),
        Call::Put { key, value: _ } => bucket_of(key.as_slice()),
        Call::Del { key } => bucket_of(key.as_slice()),
        Call::Add { key, by: _ } => bucket_of(key.as_slice()),
        Call::Scan {
            low,
            high: _,
            limit: _,
        } => bucket_of(low.as_slice()),
    }
}

/// Answers a call that is no scan in the bucket of its key, which is touched then.
fn answer_in<S: NodeSource>(
    source: &mut S,
    buckets: &mut Buckets,
    draft: &mut Draft,
    at: usize,
    call: &Call,
) -> Result<(), TreeFault>
    requires open { draft.old.failed ≡ false }
    requires at { (at ≡ bucket_of (key_of call.now)) × (at < 256) }
    requires call { FitsCall call.now }
    requires no_scan { is_scan call.now ≡ false }
    ensures { AnswersOne (S.later source.old source.new) (S.clean source.old source.new) (λ failed. S.fails source.old failed source.new) (S.tells source.old) (S.tells source.new) (S.finds source.old) (S.upper source.old) call.now buckets.old buckets.new draft.old draft.new result }
{
    buckets.touched.add(at);
    let bucket = &mut buckets.buckets[at];
    draft.answer(source, bucket, call)
}

/// Answers a call, in the bucket of its key, or in all of them where it is a scan.
fn answer_one<S: NodeSource>(
    source: &mut S,
    buckets: &mut Buckets,
    draft: &mut Draft,
    call: &Call,
) -> Result<(), TreeFault>
    requires open { draft.old.failed ≡ false }
    requires call { FitsCall call.now }
    ensures { AnswersOne (S.later source.old source.new) (S.clean source.old source.new) (λ failed. S.fails source.old failed source.new) (S.tells source.old) (S.tells source.new) (S.finds source.old) (S.upper source.old) call.now buckets.old buckets.new draft.old draft.new result }
{
    match call {
        Call::Scan { low, high, limit } => {
            let (low, high) = (low.as_slice(), high.as_slice());
            scan_all(source, buckets, draft, call, low, high, *limit)
        }
        _ => answer_in(source, buckets, draft, usize::from(bucket_for(call)), call),
    }
}

/// The same of all calls in order, up to the first refusal.
fn answer_each<S: NodeSource>(
    source: &mut S,
    buckets: &mut Buckets,
    draft: &mut Draft,
    calls: &[Call],
) -> Result<(), TreeFault>
    requires open { draft.old.failed ≡ false }
    requires calls { AllByRecursion FitsCall calls.now }
    ensures later { S.later source.old source.new }
    ensures clean { OnCleanAnswer result (S.clean source.old source.new) }
    ensures fails { IfErr result (FailsBy (λ failed. S.fails source.old failed source.new)) }
    ensures place { (draft.new.lane ≡ draft.old.lane) × (draft.new.turn ≡ draft.old.turn) }
    ensures advances { OnOk result (Advances (S.tells source.old) (S.tells source.new) (S.upper source.old) buckets.old buckets.new draft.old draft.new calls.now) }
    ensures refuses { IfErr result (Refuses (S.tells source.old) (S.upper source.old) buckets.old buckets.new draft.old calls.now) }
    ensures does { OnOk result (AddsDone (S.tells source.old) (S.finds source.old) (S.upper source.old) calls.now draft.old.rows draft.new.rows buckets.old buckets.new) }
    ensures stops { IfErr result (λ fault. StopsAt (S.tells source.old) (S.finds source.old) (S.upper source.old) calls.now fault buckets.old buckets.new) }
{
    for call in calls {
        if let Err(fault) = answer_one(source, buckets, draft, call) {
            return Err(fault);
        }
    }
    Ok(())
}

/// Answers all calls of a transaction in order, each in the bucket of its key, a scan in all of them. The draft then has the calls with their replies and
/// rows; on every disk each reply is the store's on some map, so that a scan's pairs ascend in its range, up to its limit [`answered`]. No bucket is touched
/// but those of the calls [`touches`]. Where the buckets stood for a history which the source tells, they hold it with these rows [`open`].
///
/// On every disk, each call did in each bucket what it does there: it loaded nodes on its way, each as the source finds it, and pushed its rows on what the bucket then
/// gave [`done`].
///
/// With a refusal no later call is answered, and the buckets are to be undone and the draft to be cleared [`refused`]. `Source` has what the source answered
/// [`fails`]. On a sound log, `BucketFull` and `Number` come only where the definitions refuse the calls for this reason, and no node is `Unfit`. On every disk the calls
/// before the refused one were done, and `Unfit` names the first node on its way that is not fit, as its bucket gives it [`stopped`].
pub fn answer_all<S: NodeSource>(
    source: &mut S,
    buckets: &mut Buckets,
    draft: &mut Draft,
    calls: &[Call],
) -> Result<(), TreeFault>
    requires blank { draft.old ≡ blank draft.old.lane draft.old.turn }
    requires calls { AllByRecursion FitsCall calls.now }
    ensures later { S.later source.old source.new }
    ensures clean { OnCleanAnswer result (S.clean source.old source.new) }
    ensures fails { IfErr result (FailsBy (λ failed. S.fails source.old failed source.new)) }
    ensures place { (draft.new.lane ≡ draft.old.lane) × (draft.new.turn ≡ draft.old.turn) }
    ensures touches { TouchesOf calls.now buckets.old buckets.new }
    ensures answered { OnOk result (AnswersCalls calls.now draft.new) }
    ensures open { OnOk result ((log : Origin) (low : ℕ) (history : List Commit) → IsReady (S.tells source.old) (S.upper source.old) log low buckets.old history → IsOpen log low history buckets.old buckets.new draft.new) }
    ensures refused { IfErr result (λ fault. (log : Origin) (low : ℕ) (history : List Commit) → IsReady (S.tells source.old) (S.upper source.old) log low buckets.old history → IsRefusal log low history buckets.old buckets.new calls.now fault) }
    ensures done { OnOk result (AllDone (S.tells source.old) (S.finds source.old) (S.upper source.old) calls.now draft.new.rows buckets.old buckets.new) }
    ensures stopped { IfErr result (λ fault. StopsAt (S.tells source.old) (S.finds source.old) (S.upper source.old) calls.now fault buckets.old buckets.new) }
{
    answer_each(source, buckets, draft, calls)
}
