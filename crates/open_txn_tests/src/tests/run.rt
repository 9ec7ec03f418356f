//! One transaction over all buckets, committed or taken back.

ghost use Rattle.std.specs.Prelude.{◌≡◌, ◌≤◌, ℕ, List, All, IfOk};
ghost use Rattle.std.specs.List.{AllByRecursion};
ghost use Rattle.open_txn_tests.specs.Cited.{Commit, FitsCall, FitsKey, Origin, blank};
ghost use Rattle.open_txn.specs.Opened.{IsReady};
ghost use Rattle.open_txn_tests.specs.Runs.{IsRun};

use crate::tests::calls::{put, text};
use btree_nodes::TreeFault;
use btree_nodes_tests::rows::Rows;
use fine_model::{Call, Entry, Reply};
use node_cache::NodeSource;
use open_txn::{Buckets, answer_all};
use std::alloc::{AllocError, Global};
use std::test::*;
use txn_draft::Draft;

/// Answers calls, and commits them under an epoch or takes them back. The buckets stand for the history with what was committed.
fn run_calls<S: NodeSource>(
    source: &mut S,
    buckets: &mut Buckets,
    draft: &mut Draft,
    calls: &[Call],
    epoch: u64,
    published: u64,
    keep: usize,
    commits: bool,
) -> Result<Option<Entry>, TreeFault>
    requires blank { draft.old ≡ blank draft.old.lane draft.old.turn }
    requires calls { AllByRecursion FitsCall calls.now }
    ensures run { (log : Origin) (low : ℕ) (history : List Commit) → IsReady (S.tells source.old) (S.upper source.old) log low buckets.old history → low ≤ published → All (λ c. c.epoch ≤ epoch) history → IsRun log published epoch buckets.new history result }
{
    match answer_all(source, buckets, draft, calls) {
        Ok(()) => {
            if commits {
                let entry = draft.take_entry();
                buckets.settle(epoch, published, keep);
                Ok(Some(entry))
            } else {
                buckets.undo(published, keep);
                draft.clear();
                Ok(None)
            }
        }
        Err(fault) => {
            buckets.undo(published, keep);
            draft.clear();
            Err(fault)
        }
    }
}

/// A call for the pairs of a range.
fn scan(alloc: Global, low: &[u8], high: &[u8]) -> Result<Call, AllocError>
    requires low { FitsKey low.now }
    requires high { FitsKey high.now }
    ensures fits { IfOk result FitsCall }
{
    Ok(Call::Scan {
        low: text(alloc, low)?,
        high: text(alloc, high)?,
        limit: 10,
    })
}

/// Two keys of two buckets are set, and a scan asks for both.
fn two_and_scan(alloc: Global) -> Result<[Call; 3], AllocError>
    ensures { IfOk result (AllByRecursion FitsCall) }
{
    Ok([
        put(alloc, b"c", b"5")?,
        put(alloc, b"d", b"7")?,
        scan(alloc, b"a", b"z")?,
    ])
}

#[test]
fn a_scan_finds_what_two_buckets_got(rt: HostRuntime) -> Result<(), Fail> {
    let alloc = rt.alloc();
    let mut source = Rows::none(alloc, 1);
    let Ok(mut buckets) = Buckets::new(alloc) else {
        return Err(Fail::from("memory"));
    };
    let mut draft = Draft::new(alloc, 1, 1);
    let calls = two_and_scan(alloc)?;
    let done = run_calls(&mut source, &mut buckets, &mut draft, &calls, 1, 0, 0, true);
    let Ok(Some(entry)) = done else {
        return Err(Fail::from("refused"));
    };
    let [Reply::Stored, Reply::Stored, Reply::Found { pairs }] = entry.replies.as_slice() else {
        return Err(Fail::from("other replies"));
    };
    assert!(rt; pairs.len() == 2);
    assert!(rt; entry.rows.len() == 2);
    assert!(rt; !buckets.is_touched(99));
    Ok(())
}
