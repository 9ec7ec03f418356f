//! Entries that were used last, which are found by looking at them. The table of all numbers is asked for the others alone.

ghost use Rattle.std.specs.Prelude.{◌≡◌, ◌<◌, true, IfSome, Some, is_some, length, nat_eq, option_copied};
ghost use Rattle.std.specs.Bool.{OnTrue};
ghost use Rattle.std.specs.Map.{lookup};
ghost use Rattle.indexmap.specs.IndexMap.{IsUnique, index_of_by};

use crate::cached::Cached;
use indexmap::IndexMap;

/// The value of the entry at a place, where it is of a number.
fn value_at(nodes: &IndexMap<u32, Cached>, place: usize, number: u32) -> Option<&Cached>
    ensures { IfSome result (λ kept. lookup (nat_eq number) nodes.now.entries ≡ Some kept.now) }
{
    let (key, kept) = nodes.get_index(place)?;
    if *key == number { Some(kept) } else { None }
}

/// The value of a number. The two entries that were used last are looked at first: on a way down these are the node and its parent.
pub fn look_up(nodes: &IndexMap<u32, Cached>, number: u32) -> Option<&Cached>
    ensures { option_copied result ≡ lookup (nat_eq number) nodes.now.entries }
{
    let count = nodes.len();
    if let Some(kept) = value_at(nodes, count.saturating_sub(1), number) {
        return Some(kept);
    }
    match value_at(nodes, count.saturating_sub(2), number) {
        Some(kept) => Some(kept),
        None => nodes.get(&number),
    }
}

/// Whether the entry at a place is of a number.
fn stands_at(nodes: &IndexMap<u32, Cached>, place: usize, number: u32) -> bool
    requires { IsUnique nat_eq nodes.now }
    ensures index { OnTrue result (index_of_by (nat_eq number) nodes.now ≡ Some place) }
    ensures found { OnTrue result (is_some (lookup (nat_eq number) nodes.now.entries) ≡ true) }
    ensures within { OnTrue result (place < length nodes.now.entries) }
{
    match nodes.get_index(place) {
        Some((key, _kept)) => *key == number,
        None => false,
    }
}

/// The place of a number's entry. The three entries that were used last are looked at first: as a way begins these are the last way's.
pub fn place_of(nodes: &IndexMap<u32, Cached>, number: u32) -> Option<usize>
    requires { IsUnique nat_eq nodes.now }
    ensures index { result ≡ index_of_by (nat_eq number) nodes.now }
    ensures found { is_some result ≡ is_some (lookup (nat_eq number) nodes.now.entries) }
    ensures within { IfSome result (λ i. i < length nodes.now.entries) }
{
    let count = nodes.len();
    let third = count.saturating_sub(3);
    if stands_at(nodes, third, number) {
        return Some(third);
    }
    let second = count.saturating_sub(2);
    if stands_at(nodes, second, number) {
        return Some(second);
    }
    let last = count.saturating_sub(1);
    if stands_at(nodes, last, number) {
        return Some(last);
    }
    nodes.get_index_of(&number)
}
