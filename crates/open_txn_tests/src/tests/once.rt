//! One transaction on a bucket that stands for a history.

ghost use Rattle.std.specs.Prelude.{◌≡◌, ◌≤◌, ℕ, List, false};
ghost use Rattle.open_txn_tests.specs.Cited.{Commit, FitsCall, Origin, blank, bucket_of, is_scan, key_of};
ghost use Rattle.open_txn_tests.specs.Once.{IsReady, IsRun};

use crate::tests::calls::put;
use btree_nodes::TreeFault;
use btree_nodes_tests::rows::Rows;
use fine_model::{Call, Entry, Reply, bucket_of};
use node_cache::{Bucket, NodeSource};
use std::test::*;
use txn_draft::{Draft, settle, undo};

/// Answers one call, and commits it under an epoch or takes it back. The bucket stands for the history with what was committed.
fn run_once<S: NodeSource>(
    source: &mut S,
    bucket: &mut Bucket,
    draft: &mut Draft,
    call: &Call,
    epoch: u64,
    published: u64,
    keep: usize,
    commits: bool,
) -> Result<Option<Entry>, TreeFault>
    requires draft { (lane : ℕ) × (turn : ℕ) × (draft.old ≡ blank lane turn) }
    requires bucket { bucket.old.bucket ≡ bucket_of (key_of call.now) }
    requires fits { FitsCall call.now }
    requires no_scan { is_scan call.now ≡ false }
    requires upper { published ≤ S.upper source.old }
    ensures run { (log : Origin) (history : List Commit) → IsReady log published epoch (S.tells source.old) (S.upper source.old) bucket.old history → IsRun log bucket.old.bucket published epoch bucket.new history result }
{
    match draft.answer(source, bucket, call) {
        Ok(()) => {
            if commits {
                let entry = draft.take_entry();
                settle(bucket, epoch, published, keep);
                Ok(Some(entry))
            } else {
                undo(bucket, published, keep);
                draft.clear();
                Ok(None)
            }
        }
        Err(fault) => {
            undo(bucket, published, keep);
            draft.clear();
            Err(fault)
        }
    }
}

#[test]
fn a_transaction_is_committed_on_its_own(rt: HostRuntime) -> Result<(), Fail> {
    let alloc = rt.alloc();
    let mut source = Rows::none(alloc, 1);
    let call = put(alloc, b"c", b"5")?;
    let mut bucket = Bucket::new(alloc, bucket_of(b"c"));
    let mut draft = Draft::new(alloc, 1, 1);
    let done = run_once(&mut source, &mut bucket, &mut draft, &call, 1, 0, 0, true);
    let Ok(Some(entry)) = done else {
        return Err(Fail::from("refused"));
    };
    assert!(rt; matches!(entry.replies.as_slice(), [Reply::Stored]));
    assert!(rt; entry.rows.len() == 1);
    Ok(())
}
