//! Adding to the number that a key holds.

ghost use Rattle.std.specs.Prelude.{◌≡◌, ℕ, true, false, ◌++◌, List, IfSome};
ghost use Rattle.fine_model.specs.declared.Call.TheVariants as call;
ghost use Rattle.fine_model.specs.declared.Row.{Row as ModelRow};
ghost use Rattle.fine_model.specs.Map.{has};
ghost use Rattle.fine_model.specs.NumberText.{number_of};
ghost use Rattle.fine_model.specs.RowBytes.{FitsKey};
ghost use Rattle.fine_model.specs.Store.{add_answer, answer};
ghost use Rattle.fine_model.specs.Trees.{pairs_of, bucket_of, map_of, IsSound};
ghost use Rattle.node_cache.specs.Given.{given};
ghost use Rattle.btree_nodes.specs.Trees.{Serves, Holds, IsPath, pairs_in};
ghost use Rattle.btree_nodes.specs.Calls.{Outcome, IsChange, OnCleanAnswer, SoundOutcome, is_sum};

use crate::change::{next_version, push_pair};
use crate::fault::TreeFault;
use crate::growth::row_of;
use crate::insertion::put_at;
use crate::leaf::value_in;
use crate::tree::{Path, find_leaf};
use fine_model::{Bytes, Rec, Reply, number_of, number_text};
use node_cache::{Bucket, NodeSource};
use private_log::PrivateLog;
use std::alloc::Global;

/// What the store answers where a number is added to a text. It takes no memory.
#[tactic(auto, unfolding(fine_model::specs::Store::add_answer, fine_model::specs::Store::sum_answer))]
fn sum_reply(text: &[u8], by: i64) -> Reply
    ensures { (key : List ℕ) → result ≡ (add_answer key (number_of text.now) by).0 }
{
    let Some(number) = number_of(text) else {
        return Reply::NotNumber;
    };
    match number.checked_add(by) {
        Some(sum) => Reply::Sum { sum },
        None => Reply::OutOfRange,
    }
}

/// Whether a reply says a sum.
fn is_sum(reply: &Reply) -> bool
    ensures { result ≡ is_sum reply.now }
{
    matches!(reply, Reply::Sum { .. })
}

/// What the store answers where a number is added to a key of a leaf. An absent key counts as 0. It takes no memory.
fn reply_in(bucket: &Bucket, number: u32, key: &[u8], by: i64) -> Reply
    ensures { result ≡ (answer (pairs_of (given bucket.now number).0) (call.Add key.now by)).0 }
{
    match value_in(bucket, number, key) {
        Some(text) => sum_reply(text.as_slice(), by),
        None => Reply::Sum { sum: by },
    }
}

/// Adds to a key in the leaf in which it belongs. An absent key is set to the number's text. Where there is no sum, nothing is changed.
fn add_in(
    alloc: Global,
    bucket: &mut Bucket,
    log: &mut PrivateLog,
    key: &[u8],
    by: i64,
    path: Path,
) -> Result<Reply, TreeFault>
    requires key { FitsKey key.now }
    requires path { IsPath bucket.old key.now path }
    ensures outcome { Outcome bucket.old bucket.new log.old log.new (call.Add key.now by) (λ reply. reply ≡ (answer (pairs_in bucket.old key.now) (call.Add key.now by)).0) (λ _. ⊥) result }
{
    if value_in(bucket, path.leaf, key).is_none() {
        let text = number_text(alloc, by)?;
        put_at(alloc, bucket, log, key, text.as_slice(), path)?;
        return Ok(Reply::Sum { sum: by });
    }
    let reply = reply_in(bucket, path.leaf, key, by);
    if !is_sum(&reply) {
        return Ok(reply);
    }
    let version = next_version(bucket, path.leaf)?;
    let plus = Rec::Plus {
        key: Bytes::from_slice(alloc, key)?,
        by,
    };
    let row = row_of(bucket.bucket(), path.leaf, version, plus);
    push_pair(alloc, bucket, log, row)?;
    Ok(reply)
}

/// Adds to the number whose text a key holds, and answers the sum; an absent key counts as 0. `NotNumber` comes exactly where the key
/// holds a text that is no number, `OutOfRange` exactly where the sum is outside of 64 bits with a sign: with these, nothing is changed
/// but what is loaded. Where the key is there, one row with the number is pushed; else what setting the sum's text pushes. Its faults,
/// and what stands after them, are those of `insert`.
pub fn add_to<S: NodeSource>(
    alloc: Global,
    source: &mut S,
    bucket: &mut Bucket,
    log: &mut PrivateLog,
    key: &[u8],
    by: i64,
) -> Result<Reply, TreeFault>
    requires bucket { bucket.old.bucket ≡ bucket_of key.now }
    requires key { FitsKey key.now }
    ensures later { S.later source.old source.new }
    ensures clean { OnCleanAnswer result (S.clean source.old source.new) }
    ensures change { IsChange (S.tells source.old) (S.finds source.old) (S.upper source.old) bucket.old bucket.new log.old log.new (call.Add key.now by) (λ mid reply. reply ≡ (answer (pairs_in mid key.now) (call.Add key.now by)).0) (λ failed. S.fails source.old failed source.new) result }
    ensures sound { (rows : List ModelRow) → Serves (S.tells source.old) bucket.old rows → Holds bucket.old rows log.old → IsSound (rows ++ log.old) → SoundOutcome rows log.old log.new bucket.new (call.Add key.now by) (λ reply. reply ≡ (answer (map_of (rows ++ log.old)) (call.Add key.now by)).0) result }
{
    let path = find_leaf(source, bucket, key)?;
    add_in(alloc, bucket, log, key, by, path)
}
