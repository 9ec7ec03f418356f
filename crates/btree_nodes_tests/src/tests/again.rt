//! A bucket that holds newer rows than its source tells, over two transactions.

ghost use Rattle.std.specs.Prelude.{◌≡◌, ◌≤◌, ℕ, [], List, IfSome};
ghost use Rattle.fine_model.specs.declared.Call.TheVariants as call;
ghost use Rattle.fine_model.specs.declared.Row.{Row as ModelRow};
ghost use Rattle.fine_model.specs.RowBytes.{FitsKey, FitsValue};
ghost use Rattle.fine_model.specs.Trees.{bucket_of, nodes_of, IsSound};
ghost use Rattle.node_cache.specs.Cache.{cached, IsResting};
ghost use Rattle.btree_nodes.specs.Trees.{Serves, Holds};
ghost use Rattle.btree_nodes.specs.Calls.{SoundOutcome};

use crate::rows::Rows;
use btree_nodes::{TreeFault, insert};
use fine_model::bucket_of;
use node_cache::{Bucket, NodeSource};
use private_log::PrivateLog;
use std::alloc::Global;
use std::test::*;

/// Sets a key, takes that back, evicts, and sets the key in a second transaction. Where the bucket held sound rows at rest, and its
/// source tells what they leave in each node that is not cached or may be evicted, the second transaction has the outcome over these
/// rows, however much older those of the source are.
fn set_again<S: NodeSource>(
    alloc: Global,
    source: &mut S,
    bucket: &mut Bucket,
    first: &mut PrivateLog,
    second: &mut PrivateLog,
    key: &[u8],
    value: &[u8],
    published: u64,
    keep: usize,
) -> Result<(), TreeFault>
    requires bucket { bucket.old.bucket ≡ bucket_of key.now }
    requires key { FitsKey key.now }
    requires value { FitsValue value.now }
    requires resting { IsResting bucket.old }
    requires first { first.old ≡ [] }
    requires second { second.old ≡ [] }
    ensures sound { (rows : List ModelRow) (serves : Serves (S.tells source.old) bucket.old rows) → ((n : ℕ) → IfSome (cached bucket.old n) (λ kept. kept.epoch ≤ published → nodes_of serves.known bucket.old.bucket n ≡ nodes_of rows bucket.old.bucket n)) → Holds bucket.old rows [] → IsSound rows → SoundOutcome rows [] second.new bucket.new (call.Put key.now value.now) (λ _. Unit {0}) result }
{
    drop(insert(alloc, source, bucket, first, key, value));
    bucket.undo();
    bucket.evict(published, keep);
    insert(alloc, source, bucket, second, key, value)
}

/// So of `c` in a bucket that had no rows. Answers whether it was set again.
fn set_again_in(alloc: Global, first: &mut PrivateLog, second: &mut PrivateLog) -> bool
    requires first { first.old ≡ [] }
    requires second { second.old ≡ [] }
{
    let mut source = Rows::none(alloc, 0);
    let mut bucket = Bucket::new(alloc, bucket_of(b"c"));
    set_again(
        alloc,
        &mut source,
        &mut bucket,
        first,
        second,
        b"c",
        b"5",
        0,
        0,
    )
    .is_ok()
}

/// The row that sets `c` to `5`.
const ROW: &[u8] =
    b"\x04\x00\x63\x00\x00\x00\x01\x00\x00\x00\x00\x00\x00\x00\x01\x00\x00\x00\x05\x01c\x00\x015";

/// Whether the key was set again, and whether each of the two transactions pushed its row.
fn set_in_both(alloc: Global) -> [bool; 3] {
    let mut first = PrivateLog::new(alloc);
    let mut second = PrivateLog::new(alloc);
    let is_set = set_again_in(alloc, &mut first, &mut second);
    [is_set, first.bytes() == ROW, second.bytes() == ROW]
}

#[test]
fn a_key_that_was_taken_back_is_set_again(rt: HostRuntime) -> Result<(), Fail> {
    assert_eq!(rt; set_in_both(rt.alloc()), [true; 3]);
    Ok(())
}
