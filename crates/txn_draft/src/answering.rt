//! Answering calls.

ghost use Rattle.std.specs.Prelude.{◌≡◌, ◌≤◌, ◌++◌, ℕ, List, false, OnOk, IfErr};
ghost use Rattle.txn_draft.specs.Cited.{Cache, FitsCall, Holds, IsChange, OnCleanAnswer, Row as ModelRow, Serves, bucket_of, key_of, option_to_list, pairs_in};
ghost use Rattle.txn_draft.specs.Drafts.{IsAnswered, FitsDraft, Keeps, is_scan};
ghost use Rattle.txn_draft.specs.Uses.{IsUsed, UsedAfter, OnlyLoads, OnKept};
ghost use Rattle.txn_draft.specs.Answers.{AnswersSoundly, KeepsBy, LeavesDraft, FailsBy};
ghost use Rattle.txn_draft.specs.Steps.{IsTried, wants_memory};

use crate::draft::Draft;
use crate::step::step;
use btree_nodes::TreeFault;
use fine_model::Call;
use node_cache::{Bucket, NodeSource};

/// Whether a draft is failed, with this answer.
fn failed_after(before: bool, answer: &Result<(), TreeFault>) -> bool
    ensures { result ≡ wants_memory answer.now before }
{
    match answer {
        Ok(()) => before,
        Err(fault) => match fault {
            TreeFault::NoMemory => true,
            _ => before,
        },
    }
}

impl Draft {
    /// Answers a call, and keeps it with its reply and what it writes. After want of memory some of this may be done.
    fn try_answer<S: NodeSource>(
        &mut self,
        source: &mut S,
        bucket: &mut Bucket,
        call: &Call,
    ) -> Result<(), TreeFault>
        requires bucket { bucket.old.bucket ≡ bucket_of (key_of call.now) }
        requires call { FitsCall call.now }
        ensures later { S.later source.old source.new }
        ensures clean { OnCleanAnswer result (S.clean source.old source.new) }
        ensures place { (self.new.lane ≡ self.old.lane) × (self.new.turn ≡ self.old.turn) }
        ensures tried { IsTried (S.tells source.old) (S.finds source.old) (S.upper source.old) bucket.old bucket.new self.old self.new call.now (λ failed. S.fails source.old failed source.new) result }
    {
        let alloc = *self.calls.allocator();
        match step(alloc, source, bucket, &mut self.log, call) {
            Ok((reply, write)) => Ok(self.note(call, reply, write)?),
            Err(fault) => Err(fault),
        }
    }

    /// Answers a call that is no scan, in the bucket of its key: the call, its reply, what it writes and the rows that it pushes stand behind
    /// those of the earlier calls [`kept`]. They are those of the definitions on the leaf that the key's way leads to [`change`].
    ///
    /// `Source` has what the source answered, `Unfit` names the first node on the way that breaks the rules of a tree, `BucketFull` and `Number`
    /// come where the rows of the call would pass a limit: with these the draft is as it was, and the bucket but for what was loaded. After `NoMemory` the
    /// draft is failed: the buckets are to be undone, and the draft to be cleared.
    pub fn answer<S: NodeSource>(
        &mut self,
        source: &mut S,
        bucket: &mut Bucket,
        call: &Call,
    ) -> Result<(), TreeFault>
        requires open { self.old.failed ≡ false }
        requires bucket { bucket.old.bucket ≡ bucket_of (key_of call.now) }
        requires call { FitsCall call.now }
        requires no_scan { is_scan call.now ≡ false }
        ensures later { S.later source.old source.new }
        ensures clean { OnCleanAnswer result (S.clean source.old source.new) }
        ensures change { IsChange (S.tells source.old) (S.finds source.old) (S.upper source.old) bucket.old bucket.new self.old.rows self.new.rows call.now (λ mid _. KeepsBy (pairs_in mid (key_of call.now)) call.now self.old self.new) (λ failed. S.fails source.old failed source.new) result }
        ensures kept { OnOk result (Keeps call.now self.old self.new) }
        ensures left { IfErr result (LeavesDraft self.old self.new) }
        ensures fits { OnOk result (FitsDraft self.old → FitsDraft self.new) }
        ensures used { (low : ℕ) (taken : Cache) → IsUsed low taken bucket.old self.old.rows → low ≤ S.upper source.old → UsedAfter low taken bucket.new self.new.rows result }
        ensures number { bucket.new.bucket ≡ bucket.old.bucket }
        ensures loads { OnlyLoads (S.tells source.old) (S.finds source.old) (S.upper source.old) bucket.old bucket.new result }
        ensures serves { (rows : List ModelRow) → Serves (S.tells source.old) bucket.old rows → OnKept result (Serves (S.tells source.new) bucket.new rows) }
        ensures fails { IfErr result (FailsBy (λ failed. S.fails source.old failed source.new)) }
        ensures sound { (rows : List ModelRow) → Serves (S.tells source.old) bucket.old rows → IsAnswered rows self.old → Holds bucket.old rows self.old.rows → AnswersSoundly rows call.now self.old self.new bucket.new result }
    {
        let answer = self.try_answer(source, bucket, call);
        self.failed = failed_after(self.failed, &answer);
        answer
    }
}
