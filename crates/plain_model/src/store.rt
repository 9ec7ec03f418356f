//! The store as a map in memory: pairs in the byte order of their keys.

ghost use Rattle.std.specs.Prelude.{◌≡◌, ℕ, ◌&&◌, not, List, Some, take, IsTrue, IfOk, OnOk, OnErr, slice_get, true, false};
ghost use Rattle.std.specs.Option.{option_copied};
ghost use Rattle.fine_model.specs.Map.{is_below, set, unset, get, between};
ghost use Rattle.plain_model.specs.Place.{Ascends, IsPlace};

use fine_model::{Bytes, Copied, Items, NoMemory, Pairs};
use std::alloc::Global;

/// Whether a stands before b in byte order.
fn stands_before(a: &Bytes, b: &Bytes) -> bool
    ensures { result ≡ is_below a.now b.now }
{
    a.as_slice().cmp(b.as_slice()).is_lt()
}

/// The place of a key among pairs in order.
fn place_of(pairs: &Pairs, key: &Bytes) -> usize
    ensures { IsPlace key.now pairs.now result }
{
    let mut i = 0;
    while i < pairs.len() {
        if !stands_before(&pairs.at(i).0, key) {
            return i;
        }
        i += 1;
    }
    i
}

/// Whether a key stands at its place.
fn stands_at(pairs: &Pairs, key: &Bytes, i: usize) -> bool
    requires { IsPlace key.now pairs.now i }
    ensures here { IsTrue result → (value : List ℕ) × (slice_get pairs.now i ≡ Some (key.now, value)) }
    ensures above { result ≡ false → (p : List ℕ × List ℕ) → slice_get pairs.now i ≡ Some p → is_below key.now p.0 ≡ true }
{
    i < pairs.len() && !stands_before(key, &pairs.at(i).0)
}

/// Sets a pair among pairs in order. Where memory runs out they stand as before.
pub fn put_pair(pairs: &mut Pairs, key: Bytes, value: Bytes) -> Result<(), NoMemory>
    requires { Ascends pairs.old }
    ensures order { Ascends pairs.new }
    ensures ok { OnOk result (pairs.new ≡ set pairs.old key value) }
    ensures err { OnErr result (pairs.new ≡ pairs.old) }
{
    let i = place_of(pairs, &key);
    if stands_at(pairs, &key, i) {
        let _old = pairs.replace(i, (key, value));
        return Ok(());
    }
    match pairs.insert(i, (key, value)) {
        Ok(()) => Ok(()),
        Err((error, _pair)) => Err(error),
    }
}

/// Removes a key from pairs in order, if it is there.
pub fn remove_pair(pairs: &mut Pairs, key: &Bytes)
    requires { Ascends pairs.old }
    ensures order { Ascends pairs.new }
    ensures pairs { pairs.new ≡ unset pairs.old key.now }
{
    let i = place_of(pairs, key);
    if stands_at(pairs, key, i) {
        let _old = pairs.remove(i);
    }
}

/// The value of a key.
#[tactic(auto, unfolding(fine_model::specs::Map::get))]
pub fn value_of<'a>(pairs: &'a Pairs, key: &Bytes) -> Option<&'a Bytes>
    ensures { option_copied result ≡ get pairs.now key.now }
{
    pairs
        .as_slice()
        .iter()
        .find(|pair| pair.0.as_slice() == key.as_slice())
        .map(|pair| &pair.1)
}

/// Whether a key stands at `low` or behind it, and before `high`.
fn is_within(key: &Bytes, low: &Bytes, high: &Bytes) -> bool
    ensures { result ≡ (not (is_below key.now low.now) && is_below key.now high.now) }
{
    !stands_before(key, low) && stands_before(key, high)
}

/// The first `limit` pairs of those with keys from `low` on and before `high`.
pub fn pairs_between(
    alloc: Global,
    pairs: &Pairs,
    low: &Bytes,
    high: &Bytes,
    limit: usize,
) -> Result<Pairs, NoMemory>
    ensures { IfOk result (λ found. found ≡ take limit (between low.now high.now pairs.now)) }
{
    let mut found: Pairs = Items::new(alloc);
    for i in 0..pairs.len() {
        let pair = pairs.at(i);
        if found.len() < limit && is_within(&pair.0, low, high) {
            found.push(pair.copy()?)?;
        }
    }
    Ok(found)
}
