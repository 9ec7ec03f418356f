//! Generated scripts.

ghost use Rattle.std.specs.Prelude.{◌≡◌, ◌+◌, ◌%◌, ◌≤◌, ◌==◌, ◌++◌, codes, decimal, length, pos, replicate, if◌then◌else◌, IfOk};
ghost use Rattle.std.specs.List.{AllByRecursion};
ghost use Rattle.fine_model.specs.declared.Call.TheVariants as call;
ghost use Rattle.fine_model.specs.declared.Ending.TheVariants as ending;
ghost use Rattle.fine_model.specs.Bounds.{FitsCall, FitsScript, FitsTxn};
ghost use Rattle.fine_model.specs.Generator.{calls_of, generated, key_of, next_state, txn_of};
ghost use Rattle.fine_model.specs.RowBytes.{FitsKey};

use fine_model::{Bytes, Call, Calls, Ending, Items, NoMemory, Script, ScriptTxn};
use itoa::Buffer;
use std::alloc::Global;

/// The state is this times the last one and one more number, of 64 bits.
const TIMES: u128 = 6_364_136_223_846_793_005;

const MORE: u128 = 1_442_695_040_888_963_407;

const STATES: u128 = 1 << 64;

/// The high bits of a state choose the transaction.
const LOW_BITS: u64 = 1 << 33;

/// The next state of the generator.
fn next_state(x: u64) -> u64
    ensures { result ≡ next_state x }
{
    ((u128::from(x) * TIMES + MORE) % STATES) as u64
}

/// A number between two pieces.
fn joined(alloc: Global, first: &[u8], number: u64, last: &[u8]) -> Result<Bytes, NoMemory>
    ensures is { IfOk result (λ key. key ≡ first.now ++ decimal number ++ last.now) }
    ensures long { IfOk result (λ key. length key ≤ length first.now + 20 + length last.now) }
{
    let mut buffer = Buffer::new();
    let digits = buffer.format(number).as_bytes();
    let mut key = Vec::from_slice(alloc, first)?;
    key.extend_from_slice(digits)?;
    key.extend_from_slice(last)?;
    Ok(Bytes::from_vec(key))
}

/// A key that is put.
fn key_of(alloc: Global, i: u64, end: &[u8]) -> Result<Bytes, NoMemory>
    requires { length end.now ≡ 1 }
    ensures is { IfOk result (λ key. key ≡ key_of i end.now) }
    ensures fits { IfOk result FitsKey }
{
    joined(alloc, b"k", i, end)
}

/// The key of a counter.
fn counter_key(alloc: Global, counter: u64) -> Result<Bytes, NoMemory>
    ensures is { IfOk result (λ key. key ≡ codes "c" ++ decimal counter) }
    ensures fits { IfOk result FitsKey }
{
    joined(alloc, b"c", counter, b"")
}

/// So many letters.
fn letters(alloc: Global, n: usize) -> Result<Bytes, NoMemory>
    ensures { IfOk result (λ value. value ≡ replicate n 118) }
{
    Ok(Bytes::from_vec(vec![in alloc; b'v'; n]?))
}

/// A put of so many letters.
fn put_of(alloc: Global, i: u64, end: &[u8], n: usize) -> Result<Call, NoMemory>
    requires end { length end.now ≡ 1 }
    requires many { (1 ≤ n) × (n ≤ 256) }
    ensures is { IfOk result (λ put. put ≡ call.Put (key_of i end.now) (replicate n 118)) }
    ensures fits { IfOk result FitsCall }
{
    Ok(Call::Put {
        key: key_of(alloc, i, end)?,
        value: letters(alloc, n)?,
    })
}

/// An addition to a counter.
fn add_of(alloc: Global, i: u64, counter: u64) -> Result<Call, NoMemory>
    ensures is { IfOk result (λ add. add ≡ call.Add (codes "c" ++ decimal counter) (pos (1 + i % 7))) }
    ensures fits { IfOk result FitsCall }
{
    Ok(Call::Add {
        key: counter_key(alloc, counter)?,
        by: 1 + (i % 7) as i64,
    })
}

/// A read of the first key that is put.
fn get_of(alloc: Global, i: u64) -> Result<Call, NoMemory>
    ensures is { IfOk result (λ get. get ≡ call.Get (key_of i (codes "a"))) }
    ensures fits { IfOk result FitsCall }
{
    Ok(Call::Get {
        key: key_of(alloc, i, b"a")?,
    })
}

/// The calls of a transaction.
fn calls_of(alloc: Global, i: u64, counter: u64, n: usize) -> Result<Calls, NoMemory>
    requires many { (1 ≤ n) × (n ≤ 256) }
    ensures is { IfOk result (λ calls. calls ≡ calls_of i counter n) }
    ensures fits { IfOk result (AllByRecursion FitsCall) }
{
    let mut calls = Items::new(alloc);
    calls.push(add_of(alloc, i, counter)?)?;
    calls.push(put_of(alloc, i, b"a", n)?)?;
    calls.push(put_of(alloc, i, b"b", n)?)?;
    calls.push(put_of(alloc, i, b"c", n)?)?;
    calls.push(get_of(alloc, i)?)?;
    Ok(calls)
}

/// How a transaction ends.
fn ending_of(i: u64) -> Ending
    ensures { result ≡ (if i % 16 == 0 then ending.Abort else ending.Commit) }
{
    if i % 16 == 0 {
        Ending::Abort
    } else {
        Ending::Commit
    }
}

/// A transaction, by the high bits of a state.
fn txn_of(alloc: Global, lanes: u8, i: u64, high: u64) -> Result<ScriptTxn, NoMemory>
    requires lanes { (1 ≤ lanes) × (lanes ≤ 16) }
    requires number { 1 ≤ i }
    ensures is { IfOk result (λ txn. txn ≡ txn_of lanes i high) }
    ensures fits { IfOk result FitsTxn }
{
    let lane = ((i - 1) % u64::from(lanes)) as u8 + 1;
    let calls = calls_of(alloc, i, high % 64, 1 + (high / 64 % 200) as usize)?;
    Ok(ScriptTxn {
        lane,
        calls,
        ending: ending_of(i),
    })
}

/// A script of so many transactions on so many lanes, whose calls a number chooses: the same one for the same numbers. `count` is at most 100,000, `lanes` 1 to 16.
///
/// Each transaction adds to one of 64 counters, puts three keys of its own and reads one of them; every sixteenth is taken back. Keys and lanes are by its number, the counter
/// and the length of the values by a linear congruential generator of 64 bits, with the constants of Knuth's MMIX.
pub fn generate(alloc: Global, start: u64, count: u32, lanes: u8) -> Result<Script, NoMemory>
    requires count { count ≤ 100000 }
    requires lanes { (1 ≤ lanes) × (lanes ≤ 16) }
    ensures is { IfOk result (λ script. script ≡ generated start count lanes) }
    ensures fits { IfOk result FitsScript }
{
    let mut script = Items::new(alloc);
    let mut state = start;
    for i in 0..u64::from(count) {
        state = next_state(state);
        script.push(txn_of(alloc, lanes, i + 1, state / LOW_BITS)?)?;
    }
    Ok(script)
}
