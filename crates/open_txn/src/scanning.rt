//! A scan over all buckets.

ghost use Rattle.std.specs.Prelude.{◌≡◌, ◌<◌, ◌+◌, ℕ, List, [], ◌∷◌, false, IfErr, OnOk};
ghost use Rattle.fine_model.specs.declared.Call.TheVariants as call_of;
ghost use Rattle.open_txn.specs.Cited.{FailsBy, OnCleanAnswer};
ghost use Rattle.open_txn.specs.OneCall.{AnswersOne};
ghost use Rattle.open_txn.specs.Steps.{Gathers, Halts};
ghost use Rattle.open_txn.specs.Traces.{CutsOff, CutsOffAt, ScansAll, ScansAt};

use crate::buckets::{BUCKETS, Buckets};
use btree_nodes::TreeFault;
use fine_model::Call;
use node_cache::NodeSource;
use txn_draft::{Draft, RangeScan};

/// Gathers the first pairs of a range in the next bucket, which is touched then.
fn gather_in<S: NodeSource>(
    source: &mut S,
    buckets: &mut Buckets,
    scan: &mut RangeScan,
    at: usize,
    low: &[u8],
    high: &[u8],
    limit: u32,
) -> Result<(), TreeFault>
    requires next { scan.old.next ≡ at }
    requires at { at < 256 }
    ensures later { S.later source.old source.new }
    ensures clean { OnCleanAnswer result (S.clean source.old source.new) }
    ensures fails { IfErr result (FailsBy (λ failed. S.fails source.old failed source.new)) }
    ensures next { OnOk result (scan.new.next ≡ at + 1) }
    ensures gathers { OnOk result (Gathers (S.tells source.old) (S.tells source.new) (S.upper source.old) buckets.old buckets.new low.now high.now limit scan.old scan.new) }
    ensures halts { IfErr result (Halts (S.tells source.old) (S.upper source.old) buckets.old buckets.new) }
    ensures scans { OnOk result (ScansAt (S.tells source.old) (S.finds source.old) (S.upper source.old) at low.now high.now limit buckets.old buckets.new) }
    ensures cut_off { IfErr result (λ fault. CutsOffAt (S.tells source.old) (S.finds source.old) (S.upper source.old) at low.now high.now limit fault buckets.old buckets.new) }
{
    buckets.touched.add(at);
    let bucket = &mut buckets.buckets[at];
    scan.gather(source, bucket, low, high, limit)
}

/// The same in all buckets, in the order of their numbers, up to the first fault.
fn gather_all<S: NodeSource>(
    source: &mut S,
    buckets: &mut Buckets,
    scan: &mut RangeScan,
    low: &[u8],
    high: &[u8],
    limit: u32,
) -> Result<(), TreeFault>
    requires next { scan.old.next ≡ 0 }
    ensures later { S.later source.old source.new }
    ensures clean { OnCleanAnswer result (S.clean source.old source.new) }
    ensures fails { IfErr result (FailsBy (λ failed. S.fails source.old failed source.new)) }
    ensures next { OnOk result (scan.new.next ≡ 256) }
    ensures gathers { OnOk result (Gathers (S.tells source.old) (S.tells source.new) (S.upper source.old) buckets.old buckets.new low.now high.now limit scan.old scan.new) }
    ensures halts { IfErr result (Halts (S.tells source.old) (S.upper source.old) buckets.old buckets.new) }
    ensures scans { OnOk result (ScansAll (S.tells source.old) (S.finds source.old) (S.upper source.old) low.now high.now limit buckets.old buckets.new) }
    ensures cut_off { IfErr result (λ fault. CutsOff (S.tells source.old) (S.finds source.old) (S.upper source.old) low.now high.now limit fault buckets.old buckets.new) }
{
    for at in 0..BUCKETS {
        if let Err(fault) = gather_in(source, buckets, scan, at, low, high, limit) {
            return Err(fault);
        }
    }
    Ok(())
}

/// Answers a scan, which touches all buckets.
pub fn scan_all<S: NodeSource>(
    source: &mut S,
    buckets: &mut Buckets,
    draft: &mut Draft,
    call: &Call,
    low: &[u8],
    high: &[u8],
    limit: u32,
) -> Result<(), TreeFault>
    requires open { draft.old.failed ≡ false }
    requires scan { call.now ≡ call_of.Scan low.now high.now limit }
    ensures { AnswersOne (S.later source.old source.new) (S.clean source.old source.new) (λ failed. S.fails source.old failed source.new) (S.tells source.old) (S.tells source.new) (S.finds source.old) (S.upper source.old) call.now buckets.old buckets.new draft.old draft.new result }
{
    let mut scan = RangeScan::new(*buckets.buckets.allocator());
    if let Err(fault) = gather_all(source, buckets, &mut scan, low, high, limit) {
        return Err(fault);
    }
    match draft.found(call, scan) {
        Ok(()) => Ok(()),
        Err(_) => Err(TreeFault::NoMemory),
    }
}
