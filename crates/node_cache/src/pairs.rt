//! The pairs of a leaf.

ghost use Rattle.std.specs.Prelude.{◌≡◌, ◌<◌, ◌≤◌, ◌||◌, nat_lt, true, IfOk, IfErr, OnOk, OnErr, Some, option_copied, option_map, is_some, length, take, slice_get};
ghost use Rattle.fine_model.specs.Map.{get, has, set, unset, pairs_below};
ghost use Rattle.fine_model.specs.RowBytes.{most_in_node};
ghost use Rattle.node_cache.specs.Undo.{TakesBack, with_value, IsOfLeaf};

use crate::undo::{Step, pour};
use fine_model::format::MOST_IN_NODE;
use fine_model::{Bytes, NoMemory, Pairs};
use node_record::find_pair;
use std::alloc::Global;

/// Sets the value of the pair at a place. Answers the one that stood there.
pub fn exchange_value(alloc: Global, pairs: &mut Pairs, at: usize, value: Bytes) -> Bytes
    requires { at < length pairs.old }
    ensures stood { option_map (λ p. p.1) (slice_get pairs.old at) ≡ Some result }
    ensures set { pairs.new ≡ with_value pairs.old at value }
{
    let (key, stood) = pairs.replace(at, (Bytes::new(alloc), Bytes::new(alloc)));
    let _empty = pairs.replace(at, (key, value));
    stood
}

/// Sets a pair, where the leaf has its key or room for it. Answers what takes this back.
pub fn set_pair(
    alloc: Global,
    pairs: &mut Pairs,
    key: &[u8],
    value: &[u8],
) -> Result<Option<Step>, NoMemory>
    requires { IsOfLeaf pairs.old }
    ensures done { IfOk result (λ step. is_some step ≡ (has pairs.old key.now || nat_lt (length pairs.old) most_in_node)) }
    ensures step { IfOk result (λ step. TakesBack step pairs.old pairs.new (set pairs.old key.now value.now)) }
    ensures few { length pairs.new ≤ most_in_node }
    ensures err { OnErr result (pairs.new ≡ pairs.old) }
{
    match find_pair(pairs, key) {
        Ok(at) => {
            let value = Bytes::from_slice(alloc, value)?;
            let value = exchange_value(alloc, pairs, at, value);
            Ok(Some(Step::Replaced { at, value }))
        }
        Err(at) => {
            if pairs.len() == MOST_IN_NODE {
                return Ok(None);
            }
            let pair = (
                Bytes::from_slice(alloc, key)?,
                Bytes::from_slice(alloc, value)?,
            );
            pairs.insert(at, pair)?;
            Ok(Some(Step::Inserted { at }))
        }
    }
}

/// Removes the pair with the key, where there is one. Answers what takes this back.
pub fn unset_pair(alloc: Global, pairs: &mut Pairs, key: &[u8]) -> Result<Option<Step>, NoMemory>
    requires { IsOfLeaf pairs.old }
    ensures done { IfOk result (λ step. is_some step ≡ has pairs.old key.now) }
    ensures step { IfOk result (λ step. TakesBack step pairs.old pairs.new (unset pairs.old key.now)) }
    ensures few { length pairs.new ≤ most_in_node }
    ensures err { OnErr result (pairs.new ≡ pairs.old) }
{
    let Ok(at) = find_pair(pairs, key) else {
        return Ok(None);
    };
    let room = Vec::with_capacity(alloc, pairs.len())?;
    let pair = pairs.remove(at);
    Ok(Some(Step::Removed { at, pair, room }))
}

/// How many pairs have keys below one.
fn count_below(pairs: &Pairs, key: &[u8]) -> usize
    requires { IsOfLeaf pairs.now }
    ensures within { result ≤ length pairs.now }
    ensures lower { take result pairs.now ≡ pairs_below key.now pairs.now }
{
    match find_pair(pairs, key) {
        Ok(at) => at,
        Err(at) => at,
    }
}

/// Keeps the pairs with keys below one, and moves the others into what takes this back.
pub fn cut_pairs(alloc: Global, pairs: &mut Pairs, key: &[u8]) -> Result<Option<Step>, NoMemory>
    requires { IsOfLeaf pairs.old }
    ensures done { IfOk result (λ step. is_some step ≡ true) }
    ensures step { IfOk result (λ step. TakesBack step pairs.old pairs.new (pairs_below key.now pairs.old)) }
    ensures few { length pairs.new ≤ most_in_node }
    ensures err { OnErr result (pairs.new ≡ pairs.old) }
{
    let from = count_below(pairs, key);
    let mut cut = Vec::with_capacity(alloc, pairs.len())?;
    pour(pairs, from, &mut cut);
    Ok(Some(Step::Cut { cut }))
}
