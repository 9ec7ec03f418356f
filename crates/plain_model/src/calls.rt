//! The calls of a transaction, as the store answers them.

ghost use Rattle.std.specs.Prelude.{◌≡◌, [], ◌∷◌, ◌++◌, ◌+ℤ◌, true, false, OnOk, OnErr, IfOk, MatchOption};
ghost use Rattle.fine_model.specs.declared.Call.TheVariants as call;
ghost use Rattle.fine_model.specs.declared.Write.TheVariants as write;
ghost use Rattle.fine_model.specs.Map.{set, get, map_after};
ghost use Rattle.fine_model.specs.NumberText.{is_i64};
ghost use Rattle.fine_model.specs.Store.{answer, after_call, value_answer, number_at, replies_to, writes_of};
ghost use Rattle.plain_model.specs.Place.{Ascends};

use crate::store::{pairs_between, put_pair, remove_pair, value_of};
use fine_model::{
    Bytes, Call, Calls, Copied, Items, NoMemory, Pairs, Replies, Reply, Write, Writes, number_of,
    number_text,
};
use std::alloc::Global;

/// What the calls of a transaction gave: the replies, and what they wrote.
#[derive(Drop)]
pub struct Replied {
    pub replies: Replies,
    pub writes: Writes,
}

/// Sets a key to a value, and adds the write.
#[tactic(auto, unfolding(fine_model::specs::Map::map_after))]
fn write_pair(
    pairs: &mut Pairs,
    writes: &mut Writes,
    key: &Bytes,
    value: Bytes,
) -> Result<(), NoMemory>
    requires { Ascends pairs.old }
    ensures order { Ascends pairs.new }
    ensures map { OnOk result (pairs.new ≡ set pairs.old key.now value) }
    ensures writes { OnOk result (writes.new ≡ writes.old ++ write.Set key.now value ∷ []) }
    ensures err { OnErr result (pairs.new ≡ pairs.old) }
{
    writes.push(Write::Set {
        key: key.copy()?,
        value: value.copy()?,
    })?;
    put_pair(pairs, key.copy()?, value)
}

fn reply_to_get(pairs: &Pairs, key: &Bytes) -> Result<Reply, NoMemory>
    ensures { IfOk result (λ reply. reply ≡ value_answer (get pairs.now key.now)) }
{
    match value_of(pairs, key) {
        Some(value) => Ok(Reply::Value {
            value: value.copy()?,
        }),
        None => Ok(Reply::Absent),
    }
}

/// Removes a key, if it is there, and adds the write.
#[tactic(auto, unfolding(fine_model::specs::Store::answer, fine_model::specs::Map::map_after))]
fn delete(pairs: &mut Pairs, writes: &mut Writes, key: &Bytes) -> Result<Reply, NoMemory>
    requires { Ascends pairs.old }
    ensures order { Ascends pairs.new }
    ensures reply { IfOk result (λ reply. reply ≡ (answer pairs.old (call.Del key.now)).0) }
    ensures map { OnOk result (pairs.new ≡ after_call pairs.old (call.Del key.now)) }
    ensures writes { OnOk result (writes.new ≡ writes.old ++ (answer pairs.old (call.Del key.now)).1) }
    ensures err { OnErr result (pairs.new ≡ pairs.old) }
{
    if value_of(pairs, key).is_none() {
        return Ok(Reply::Absent);
    }
    writes.push(Write::Unset { key: key.copy()? })?;
    remove_pair(pairs, key);
    Ok(Reply::Removed)
}

/// The number that a key holds, where an absent key counts as 0.
#[tactic(auto, unfolding(fine_model::specs::Store::number_at))]
fn number_at(pairs: &Pairs, key: &Bytes) -> Option<i64>
    ensures { result ≡ number_at pairs.now key.now }
{
    match value_of(pairs, key) {
        Some(value) => number_of(value.as_slice()),
        None => Some(0),
    }
}

/// A sum of 64 bits.
fn sum_of(a: i64, b: i64) -> Option<i64>
    ensures { MatchOption result (is_i64 (a +ℤ b) ≡ false) (λ sum. (sum ≡ a +ℤ b) × (is_i64 sum ≡ true)) }
{
    a.checked_add(b)
}

/// Adds to the number that a key holds, and adds the write.
#[tactic(auto, unfolding(fine_model::specs::Store::answer, fine_model::specs::Store::add_answer, fine_model::specs::Store::sum_answer, fine_model::specs::Map::map_after))]
fn add(
    alloc: Global,
    pairs: &mut Pairs,
    writes: &mut Writes,
    key: &Bytes,
    by: i64,
) -> Result<Reply, NoMemory>
    requires { Ascends pairs.old }
    ensures order { Ascends pairs.new }
    ensures reply { IfOk result (λ reply. reply ≡ (answer pairs.old (call.Add key.now by)).0) }
    ensures map { OnOk result (pairs.new ≡ after_call pairs.old (call.Add key.now by)) }
    ensures writes { OnOk result (writes.new ≡ writes.old ++ (answer pairs.old (call.Add key.now by)).1) }
    ensures err { OnErr result (pairs.new ≡ pairs.old) }
{
    let Some(number) = number_at(pairs, key) else {
        return Ok(Reply::NotNumber);
    };
    let Some(sum) = sum_of(number, by) else {
        return Ok(Reply::OutOfRange);
    };
    write_pair(pairs, writes, key, number_text(alloc, sum)?)?;
    Ok(Reply::Sum { sum })
}

/// Answers a call as the store does, and adds what it writes. Where memory runs out the pairs stand as before, but not always
/// the writes.
#[tactic(auto, unfolding(fine_model::specs::Store::answer, fine_model::specs::Map::map_after))]
pub fn answer_call(
    alloc: Global,
    pairs: &mut Pairs,
    writes: &mut Writes,
    call: &Call,
) -> Result<Reply, NoMemory>
    requires { Ascends pairs.old }
    ensures order { Ascends pairs.new }
    ensures reply { IfOk result (λ reply. reply ≡ (answer pairs.old call.now).0) }
    ensures map { OnOk result (pairs.new ≡ after_call pairs.old call.now) }
    ensures writes { OnOk result (writes.new ≡ writes.old ++ (answer pairs.old call.now).1) }
    ensures err { OnErr result (pairs.new ≡ pairs.old) }
{
    match call {
        Call::Get { key } => Ok(reply_to_get(pairs, key)?),
        Call::Put { key, value } => {
            write_pair(pairs, writes, key, value.copy()?)?;
            Ok(Reply::Stored)
        }
        Call::Del { key } => delete(pairs, writes, key),
        Call::Add { key, by } => add(alloc, pairs, writes, key, *by),
        Call::Scan { low, high, limit } => Ok(Reply::Found {
            pairs: pairs_between(alloc, pairs, low, high, *limit as usize)?,
        }),
    }
}

/// Answers calls in order, each on the map that those before it left. Where memory runs out, the pairs are
/// still in order, but may have changed.
pub fn answer_calls(alloc: Global, pairs: &mut Pairs, calls: &Calls) -> Result<Replied, NoMemory>
    requires { Ascends pairs.old }
    ensures order { Ascends pairs.new }
    ensures replies { IfOk result (λ answers. answers.replies ≡ replies_to pairs.old calls.now) }
    ensures writes { IfOk result (λ answers. answers.writes ≡ writes_of pairs.old calls.now) }
    ensures map { OnOk result (pairs.new ≡ map_after pairs.old (writes_of pairs.old calls.now)) }
{
    let mut replies = Items::new(alloc);
    let mut writes = Items::new(alloc);
    for i in 0..calls.len() {
        replies.push(answer_call(alloc, pairs, &mut writes, calls.at(i))?)?;
    }
    Ok(Replied { replies, writes })
}
