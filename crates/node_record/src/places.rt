//! The place of a key among items in the order of their keys.

ghost use Rattle.std.specs.Prelude.{◌≡◌, ◌≤◌, IsTrue, MatchResult, drop, length, map};
ghost use Rattle.std.specs.List.Sorted.{IsPartitionPoint};
ghost use Rattle.fine_model.specs.Map.{is_below, is_ascending};
ghost use Rattle.node_record.specs.Places.{StandsAt, BelongsAt};

use crate::fields::part;
use fine_model::{Bytes, Keys, Pairs};

/// The bytes that are compared as two numbers, where both texts have so many.
const IN_NUMBERS: usize = 12;

/// Whether `a` stands before `b` in byte order.
///
/// Big-endian numbers are in the order of their bytes, so the first eight bytes are compared at once, and the four behind them.
pub fn is_below(a: &[u8], b: &[u8]) -> bool
    ensures { result ≡ is_below a.now b.now }
{
    if a.len() < IN_NUMBERS || b.len() < IN_NUMBERS {
        return is_below_by_bytes(a, b);
    }
    let first_a = u64::from_be_bytes(part::<8>(a, 0));
    let first_b = u64::from_be_bytes(part::<8>(b, 0));
    if first_a != first_b {
        return first_a < first_b;
    }
    is_below_from_next(a, b)
}

/// Whether `a` stands before `b` by what is behind their first eight bytes.
#[inline(always)]
fn is_below_from_next(a: &[u8], b: &[u8]) -> bool
    requires long_a { 12 ≤ length a.now }
    requires long_b { 12 ≤ length b.now }
    ensures { result ≡ is_below (drop 8 a.now) (drop 8 b.now) }
{
    let next_a = u32::from_be_bytes(part::<4>(a, 8));
    let next_b = u32::from_be_bytes(part::<4>(b, 8));
    if next_a != next_b {
        return next_a < next_b;
    }
    is_below_by_bytes(&a[IN_NUMBERS..], &b[IN_NUMBERS..])
}

/// The same, byte by byte.
#[inline(always)]
fn is_below_by_bytes(a: &[u8], b: &[u8]) -> bool
    ensures { result ≡ is_below a.now b.now }
{
    a.cmp(b).is_lt()
}

/// Whether the keys of pairs ascend strictly.
pub fn pairs_ascend(pairs: &[(Bytes, Bytes)]) -> bool
    ensures { result ≡ is_ascending (map (λ p. p.0) pairs.now) }
{
    match pairs {
        [first, rest @ ..] => match rest {
            [second, ..] => {
                is_below(first.0.as_slice(), second.0.as_slice()) && pairs_ascend(rest)
            }
            [] => true,
        },
        [] => true,
    }
}

/// Whether keys ascend strictly.
pub fn keys_ascend(keys: &[Bytes]) -> bool
    ensures { result ≡ is_ascending keys.now }
{
    match keys {
        [first, rest @ ..] => match rest {
            [second, ..] => is_below(first.as_slice(), second.as_slice()) && keys_ascend(rest),
            [] => true,
        },
        [] => true,
    }
}

/// The place of a pair with the key, or, where there is none, the place where one belongs.
pub fn find_pair(pairs: &Pairs, key: &[u8]) -> Result<usize, usize>
    requires { IsTrue (is_ascending (map (λ p. p.0) pairs.now)) }
    ensures { MatchResult result (λ i. StandsAt (λ p. p.0) key.now pairs.now i) (λ i. BelongsAt (λ p. p.0) key.now pairs.now i) }
{
    let i = pairs
        .as_slice()
        .partition_point(|pair| is_below(pair.0.as_slice(), key));
    if i < pairs.len() && !is_below(key, pairs.at(i).0.as_slice()) {
        Ok(i)
    } else {
        Err(i)
    }
}

/// The same for a key that is held as a list.
pub fn find_place(pairs: &Pairs, key: &Bytes) -> Result<usize, usize>
    requires { IsTrue (is_ascending (map (λ p. p.0) pairs.now)) }
    ensures { MatchResult result (λ i. StandsAt (λ p. p.0) key.now pairs.now i) (λ i. BelongsAt (λ p. p.0) key.now pairs.now i) }
{
    find_pair(pairs, key.as_slice())
}

/// The place of a key, or, where it is absent, the place where it belongs.
pub fn find_key(keys: &Keys, key: &Bytes) -> Result<usize, usize>
    requires { IsTrue (is_ascending keys.now) }
    ensures { MatchResult result (λ i. StandsAt (λ k. k) key.now keys.now i) (λ i. BelongsAt (λ k. k) key.now keys.now i) }
{
    let i = keys
        .as_slice()
        .partition_point(|each| is_below(each.as_slice(), key.as_slice()));
    if i < keys.len() && !is_below(key.as_slice(), keys.at(i).as_slice()) {
        Ok(i)
    } else {
        Err(i)
    }
}
