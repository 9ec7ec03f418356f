//! One call in the bucket of its key: what the tree does, the reply, and what is written.

ghost use Rattle.std.specs.Prelude.{◌≡◌, ◌++◌, [], ◌∷◌, if◌then◌else◌, List, ℤ, ℕ, Option, Some, None, IfOk, OnOk};
ghost use Rattle.fine_model.specs.declared.Call.TheVariants as call_of;
ghost use Rattle.fine_model.specs.declared.Reply.TheVariants as reply;
ghost use Rattle.fine_model.specs.declared.Write.TheVariants as write;
ghost use Rattle.txn_draft.specs.Cited.{FitsCall, FitsKey, FitsValue, OnCleanAnswer, Pair, Row, answer, bucket_of, key_of, option_to_list, value_answer};
ghost use Rattle.txn_draft.specs.Steps.{IsStep, IsMade};

use btree_nodes::{TreeFault, add_to, find, insert, remove};
use fine_model::{Bytes, Call, Copied, NoMemory, Reply, Write, number_text};
use node_cache::{Bucket, NodeSource};
use private_log::PrivateLog;
use std::alloc::Global;

/// A reply, and what is written.
type Made = (Reply, Option<Write>);

/// The write that sets a key.
fn set_of(key: &Bytes, value: &Bytes) -> Result<Write, NoMemory>
    ensures { IfOk result (λ made. made ≡ write.Set key.now value.now) }
{
    Ok(Write::Set {
        key: key.copy()?,
        value: value.copy()?,
    })
}

/// The write that removes a key.
fn unset_of(key: &Bytes) -> Result<Write, NoMemory>
    ensures { IfOk result (λ made. made ≡ write.Unset key.now) }
{
    Ok(Write::Unset { key: key.copy()? })
}

/// What is written where a number was added to a key with this reply.
#[tactic(auto, unfolding(fine_model::specs::Store::answer, fine_model::specs::Store::add_answer, fine_model::specs::Store::sum_answer))]
fn sum_of(alloc: Global, key: &Bytes, reply: &Reply) -> Result<Option<Write>, NoMemory>
    ensures { IfOk result (λ made. (m : List Pair) (by : ℤ) → reply.now ≡ (answer m (call_of.Add key.now by)).0 → option_to_list made ≡ (answer m (call_of.Add key.now by)).1) }
{
    let Reply::Sum { sum } = reply else {
        return Ok(None);
    };
    Ok(Some(Write::Set {
        key: key.copy()?,
        value: number_text(alloc, *sum)?,
    }))
}

/// The reply that says a value.
fn reply_of(value: Option<Bytes>) -> Reply
    ensures { result ≡ value_answer value }
{
    match value {
        Some(value) => Reply::Value { value },
        None => Reply::Absent,
    }
}

fn get<S: NodeSource>(source: &mut S, bucket: &mut Bucket, key: &Bytes) -> Result<Made, TreeFault>
    requires bucket { bucket.old.bucket ≡ bucket_of key.now }
    ensures later { S.later source.old source.new }
    ensures clean { OnCleanAnswer result (S.clean source.old source.new) }
    ensures step { (log : List Row) → IsStep (S.tells source.old) (S.finds source.old) (S.upper source.old) bucket.old bucket.new log log (call_of.Get key.now) (λ pairs. IsMade pairs (call_of.Get key.now)) (λ failed. S.fails source.old failed source.new) result }
{
    match find(source, bucket, key.as_slice()) {
        Ok(value) => Ok((reply_of(value), None)),
        Err(fault) => Err(fault),
    }
}

fn put<S: NodeSource>(
    alloc: Global,
    source: &mut S,
    bucket: &mut Bucket,
    log: &mut PrivateLog,
    key: &Bytes,
    value: &Bytes,
) -> Result<Made, TreeFault>
    requires bucket { bucket.old.bucket ≡ bucket_of key.now }
    requires key { FitsKey key.now }
    requires value { FitsValue value.now }
    ensures later { S.later source.old source.new }
    ensures clean { OnCleanAnswer result (S.clean source.old source.new) }
    ensures step { IsStep (S.tells source.old) (S.finds source.old) (S.upper source.old) bucket.old bucket.new log.old log.new (call_of.Put key.now value.now) (λ pairs. IsMade pairs (call_of.Put key.now value.now)) (λ failed. S.fails source.old failed source.new) result }
{
    let write = set_of(key, value)?;
    match insert(alloc, source, bucket, log, key.as_slice(), value.as_slice()) {
        Ok(()) => Ok((Reply::Stored, Some(write))),
        Err(fault) => Err(fault),
    }
}

fn del<S: NodeSource>(
    alloc: Global,
    source: &mut S,
    bucket: &mut Bucket,
    log: &mut PrivateLog,
    key: &Bytes,
) -> Result<Made, TreeFault>
    requires bucket { bucket.old.bucket ≡ bucket_of key.now }
    requires key { FitsKey key.now }
    ensures later { S.later source.old source.new }
    ensures clean { OnCleanAnswer result (S.clean source.old source.new) }
    ensures step { IsStep (S.tells source.old) (S.finds source.old) (S.upper source.old) bucket.old bucket.new log.old log.new (call_of.Del key.now) (λ pairs. IsMade pairs (call_of.Del key.now)) (λ failed. S.fails source.old failed source.new) result }
{
    let write = unset_of(key)?;
    match remove(alloc, source, bucket, log, key.as_slice()) {
        Ok(there) => Ok(removed(there, write)),
        Err(fault) => Err(fault),
    }
}

/// The answer to a removal.
fn removed(there: bool, write: Write) -> Made
    ensures { result ≡ (if there then (reply.Removed, Some write) else (reply.Absent, None)) }
{
    if there {
        (Reply::Removed, Some(write))
    } else {
        (Reply::Absent, None)
    }
}

fn add<S: NodeSource>(
    alloc: Global,
    source: &mut S,
    bucket: &mut Bucket,
    log: &mut PrivateLog,
    key: &Bytes,
    by: i64,
) -> Result<Made, TreeFault>
    requires bucket { bucket.old.bucket ≡ bucket_of key.now }
    requires key { FitsKey key.now }
    ensures later { S.later source.old source.new }
    ensures clean { OnCleanAnswer result (S.clean source.old source.new) }
    ensures step { IsStep (S.tells source.old) (S.finds source.old) (S.upper source.old) bucket.old bucket.new log.old log.new (call_of.Add key.now by) (λ pairs. IsMade pairs (call_of.Add key.now by)) (λ failed. S.fails source.old failed source.new) result }
{
    match add_to(alloc, source, bucket, log, key.as_slice(), by) {
        Ok(reply) => {
            let write = sum_of(alloc, key, &reply)?;
            Ok((reply, write))
        }
        Err(refused) => Err(refused),
    }
}

/// Answers a call that is no scan in the tree of its bucket. The rows that it pushes stand behind the log's.
pub fn step<S: NodeSource>(
    alloc: Global,
    source: &mut S,
    bucket: &mut Bucket,
    log: &mut PrivateLog,
    call: &Call,
) -> Result<Made, TreeFault>
    requires bucket { bucket.old.bucket ≡ bucket_of (key_of call.now) }
    requires call { FitsCall call.now }
    ensures later { S.later source.old source.new }
    ensures clean { OnCleanAnswer result (S.clean source.old source.new) }
    ensures step { IsStep (S.tells source.old) (S.finds source.old) (S.upper source.old) bucket.old bucket.new log.old log.new call.now (λ pairs. IsMade pairs call.now) (λ failed. S.fails source.old failed source.new) result }
{
    match call {
        Call::Get { key } => get(source, bucket, key),
        Call::Put { key, value } => put(alloc, source, bucket, log, key, value),
        Call::Del { key } => del(alloc, source, bucket, log, key),
        Call::Add { key, by } => add(alloc, source, bucket, log, key, *by),
        Call::Scan {
            low: _,
            high: _,
            limit: _,
        } => Err(TreeFault::NoMemory),
    }
}
