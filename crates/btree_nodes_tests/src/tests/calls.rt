//! Calls by chance, against an ordered map.

ghost use Rattle.std.specs.Prelude.{◌≤◌, IfOk};

use super::fixtures::{Tree, add_at, del_at, get_at, lay, on_bare, put_at};
use super::scans::pairs_between;
use super::splits::{depth_of, is_pair};
use btree_nodes::TreeFault;
use fine_model::{Bytes, NoMemory, Reply, number_of, number_text};
use std::alloc::Global;
use std::collections::BTreeMap;
use std::test::*;

/// How many keys the calls are about.
const KEYS: u32 = 600;

/// What a key holds in the map, by its place among the keys of thirteen pieces.
type Map = BTreeMap<u32, Vec<u8>>;

/// Notes what a key holds.
fn note(alloc: Global, map: &mut Map, place: u32, value: &[u8]) -> Result<(), NoMemory> {
    let copy = Vec::from_slice(alloc, value)?;
    match map.insert(place, copy) {
        Ok(_) => Ok(()),
        Err(_) => Err(NoMemory),
    }
}

/// Whether a value is the one that a key holds in the map.
fn is_held(found: &Option<Bytes>, wanted: Option<&Vec<u8>>) -> bool {
    match wanted {
        Some(wanted) => match found {
            Some(value) => value.as_slice() == wanted.as_slice(),
            None => false,
        },
        None => found.is_none(),
    }
}

fn get_both(tree: &mut Tree, map: &Map, place: u32) -> Result<bool, TreeFault> {
    let found = get_at(tree, place, 13)?;
    Ok(is_held(&found, map.get(&place)))
}

fn put_both(tree: &mut Tree, map: &mut Map, place: u32, value: &[u8]) -> Result<(), TreeFault> {
    note(tree.alloc, map, place, value)?;
    put_at(tree, place, 13, value)
}

fn del_both(tree: &mut Tree, map: &mut Map, place: u32) -> Result<bool, TreeFault> {
    let there = map.remove(&place).is_some();
    Ok(del_at(tree, place, 13)? == there)
}

/// The sum that a key of the map is to have, where it is one, and whether the text that it has is a number.
fn sum_of(map: &Map, place: u32, by: i64) -> (Option<i64>, bool) {
    match map.get(&place) {
        Some(text) => match number_of(text.as_slice()) {
            Some(number) => (number.checked_add(by), true),
            None => (None, false),
        },
        None => (Some(by), true),
    }
}

/// Notes a sum that a key then holds.
fn note_sum(alloc: Global, map: &mut Map, place: u32, sum: i64) -> Result<(), NoMemory> {
    let text = number_text(alloc, sum)?;
    note(alloc, map, place, text.as_slice())
}

/// Whether an answer is the one to a sum, or to a key that is to have none.
fn is_sum(reply: Reply, wanted: Option<i64>, is_number: bool) -> bool {
    match reply {
        Reply::Sum { sum } => wanted == Some(sum),
        Reply::OutOfRange => wanted.is_none() && is_number,
        Reply::NotNumber => !is_number,
        _ => false,
    }
}

fn add_both(tree: &mut Tree, map: &mut Map, place: u32, by: i64) -> Result<bool, TreeFault> {
    let (wanted, is_number) = sum_of(map, place, by);
    if let Some(sum) = wanted {
        note_sum(tree.alloc, map, place, sum)?;
    }
    Ok(is_sum(add_at(tree, place, 13, by)?, wanted, is_number))
}

/// Whether the pair at a place among others is this key of the map, with this value.
fn is_pair_at(
    alloc: Global,
    found: &[(Bytes, Bytes)],
    at: usize,
    place: u32,
    wanted: &[u8],
) -> Result<bool, NoMemory> {
    match found.get(at) {
        Some(pair) => is_pair(alloc, pair, place, wanted),
        None => Ok(false),
    }
}

/// Whether pairs are the first ones of the map between two places, and no more than so many.
fn are_first(
    alloc: Global,
    found: &[(Bytes, Bytes)],
    map: &Map,
    low: u32,
    high: u32,
    limit: u32,
) -> Result<bool, TreeFault>
    requires { low ≤ high }
{
    let mut at = 0;
    let mut right = 0usize;
    for (place, wanted) in map.range(low..high) {
        if at < limit as usize {
            if is_pair_at(alloc, found, at, *place, wanted.as_slice())? {
                right = right.saturating_add(1);
            }
            at = at.saturating_add(1);
        }
    }
    Ok(at == found.len() && right == at)
}

fn scan_both(tree: &mut Tree, map: &Map, low: u32, limit: u32) -> Result<bool, TreeFault> {
    let high = low.saturating_add(100);
    let found = pairs_between(tree, low, high, limit)?;
    are_first(tree.alloc, found.as_slice(), map, low, high, limit)
}

/// Sets a key to a number.
fn put_number(tree: &mut Tree, map: &mut Map, place: u32, number: i64) -> Result<(), TreeFault> {
    let text = number_text(tree.alloc, number)?;
    put_both(tree, map, place, text.as_slice())
}

/// One call by chance. Answers whether tree and map agree.
fn call_both(tree: &mut Tree, map: &mut Map, chance: u64) -> Result<bool, TreeFault> {
    let place = (chance / 8_589_934_592 % u64::from(KEYS)) as u32;
    let number = (chance / 65_536 % 2000) as i64;
    match chance / 536_870_912 % 8 {
        0 => get_both(tree, map, place),
        1 => del_both(tree, map, place),
        2 => scan_both(tree, map, place, (number % 120) as u32),
        3 => add_both(tree, map, place, number - 1000),
        4 => add_both(tree, map, place, 9_223_372_036_854_775_000 + number % 800),
        5 => {
            put_both(tree, map, place, b"text")?;
            Ok(true)
        }
        _ => {
            put_number(tree, map, place, number)?;
            Ok(true)
        }
    }
}

/// Sets each key.
fn put_all(tree: &mut Tree, map: &mut Map) -> Result<(), TreeFault> {
    for place in 0..KEYS {
        put_both(tree, map, place, b"1")?;
    }
    Ok(())
}

/// So many calls by chance. Answers how many agreed.
fn call_many(tree: &mut Tree, map: &mut Map, many: u32) -> Result<u32, TreeFault> {
    let mut chance = 12_345u64;
    let mut right = 0u32;
    for _call in 0..many {
        chance = chance
            .wrapping_mul(6_364_136_223_846_793_005)
            .wrapping_add(1_442_695_040_888_963_407);
        if call_both(tree, map, chance)? {
            right = right.saturating_add(1);
        }
    }
    Ok(right)
}

/// How many keys hold in a tree what they hold in the map.
fn count_right(tree: &mut Tree, map: &Map) -> Result<u32, TreeFault> {
    let mut right = 0u32;
    for place in 0..KEYS {
        if get_both(tree, map, place)? {
            right = right.saturating_add(1);
        }
    }
    Ok(right)
}

/// So once rows are laid, where a scan agrees too.
fn count_laid(tree: &mut Tree, rows: &[u8], map: &Map) -> Result<u32, TreeFault> {
    lay(tree, rows)?;
    let right = count_right(tree, map)?;
    let agrees = scan_both(tree, map, 9, 2000)?;
    Ok(if agrees { right } else { 0 })
}

/// So of a tree on the rows that another pushed.
fn count_again(tree: &Tree, map: &Map) -> Result<u32, TreeFault> {
    let rows = tree.log.bytes();
    on_bare(tree.alloc, |again| count_laid(again, rows, map))
}

/// Sets each key and then makes ten thousand calls by chance. Answers how many agreed, the depth, and how many keys agree in a tree on the
/// rows that were pushed.
fn call_and_count(tree: &mut Tree, map: &mut Map) -> Result<(u32, u8, u32), TreeFault> {
    put_all(tree, map)?;
    let right = call_many(tree, map, 10_000)?;
    let kept = count_again(tree, map)?;
    Ok((right, depth_of(tree), kept))
}

/// So of a map that was empty.
fn count_from_none(tree: &mut Tree) -> Result<(u32, u8, u32), TreeFault> {
    let mut map = BTreeMap::new(tree.alloc);
    call_and_count(tree, &mut map)
}

#[test]
fn ten_thousand_calls_agree_with_an_ordered_map(rt: HostRuntime) -> Result<(), Fail> {
    assert_eq!(rt; on_bare(rt.alloc(), count_from_none)?, (10_000, 3, KEYS));
    Ok(())
}
