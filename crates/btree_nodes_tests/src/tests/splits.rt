//! Splits of leaves, inner nodes and roots.

ghost use Rattle.std.specs.Prelude.{IfOk};

use super::fixtures::{Tree, get_at, lay, on_bare, pairs, put, put_at};
use super::keys::key_at;
use btree_nodes::TreeFault;
use fine_model::{Bytes, NoMemory, Node};
use std::alloc::Global;
use std::test::*;

/// Cuts the left leaf before its seventeenth key.
const CUT: &[u8] =
    b"\x06\x00\x40\x00\x00\x00\x01\x00\x00\x00\x00\x00\x00\x00\x21\x00\x00\x00\x0b\x0aBBAaAaAaAa";

/// Puts the 33rd pair into it.
const PUT: &[u8] =
    b"\x04\x00\x40\x00\x00\x00\x01\x00\x00\x00\x00\x00\x00\x00\x22\x00\x00\x00\x0e\x0aAaAaAaAaC#\x00\x011";

/// The image of the new root, over both leaves.
const ROOT: &[u8] =
    b"\x03\x00\x40\x00\x00\x00\x03\x00\x00\x00\x00\x00\x00\x00\x01\x00\x00\x00\x14\x01\x00\x00\x00\x01\x00\x00\x00\x02\x0aBBAaAaAaAa";

/// The image of the head, of depth 2.
const HEAD: &[u8] =
    b"\x01\x00\x40\x00\x00\x00\x00\x00\x00\x00\x00\x00\x00\x00\x01\x00\x00\x00\x09\x00\x00\x00\x03\x00\x00\x00\x04\x02";

/// The front of the right leaf, of 16 pairs.
const RIGHT: &[u8] =
    b"\x02\x00\x40\x00\x00\x00\x02\x00\x00\x00\x00\x00\x00\x00\x01\x00\x00\x00\xe1\x10";

/// Puts the key at a place behind others.
fn push_key(rows: &mut Vec<u8>, alloc: Global, place: u32) -> Result<(), NoMemory> {
    let key = key_at(alloc, place, 5)?;
    Ok(rows.extend_from_slice(key.as_slice())?)
}

/// Puts the rows of a root that is split behind others: the right leaf, two changes of the left one, the new root, and the head.
fn push_split(rows: &mut Vec<u8>, alloc: Global) -> Result<(), NoMemory> {
    rows.extend_from_slice(RIGHT)?;
    for place in 16..32u32 {
        rows.extend_from_slice(b"\x0a")?;
        push_key(rows, alloc, place)?;
        rows.extend_from_slice(b"\x00\x011")?;
    }
    for row in [CUT, PUT, ROOT, HEAD] {
        rows.extend_from_slice(row)?;
    }
    Ok(())
}

/// Sets so many keys of so many pieces to `1`, each `step` places behind the last one, round `span` places.
pub fn put_keys(
    tree: &mut Tree,
    many: u32,
    pieces: u32,
    step: u32,
    span: u32,
) -> Result<(), TreeFault> {
    let mut place = 0u32;
    for _key in 0..many {
        put_at(tree, place, pieces, b"1")?;
        place = place.saturating_add(step).checked_rem(span).unwrap_or(0);
    }
    Ok(())
}

/// What a node says of the next unused number and of the depth, where it is a head.
fn numbers_of(node: &Node) -> Option<(u32, u8)> {
    match node {
        Node::Head { next, depth, .. } => Some((*next, *depth)),
        _ => None,
    }
}

/// What a cached head says of them.
pub fn head_of(tree: &Tree) -> Option<(u32, u8)> {
    numbers_of(&tree.bucket.peek(0)?.node)
}

/// The depth that a cached head says, or 0.
pub fn depth_of(tree: &Tree) -> u8 {
    match head_of(tree) {
        Some((_next, depth)) => depth,
        None => 0,
    }
}

/// Whether the key of thirteen pieces at a place is there.
fn has_key(tree: &mut Tree, place: u32) -> Result<bool, TreeFault> {
    Ok(get_at(tree, place, 13)?.is_some())
}

/// How many of the first keys of thirteen pieces are there.
pub fn count_keys(tree: &mut Tree, many: u32) -> Result<u32, TreeFault> {
    let mut count = 0u32;
    for place in 0..many {
        if has_key(tree, place)? {
            count = count.saturating_add(1);
        }
    }
    Ok(count)
}

/// Whether a pair is this key, with this value.
fn is_of_both(pair: &(Bytes, Bytes), key: &[u8], value: &[u8]) -> bool {
    pair.0.as_slice() == key && pair.1.as_slice() == value
}

/// Whether a pair is the key of thirteen pieces at a place, with this value.
pub fn is_pair(
    alloc: Global,
    pair: &(Bytes, Bytes),
    place: u32,
    value: &[u8],
) -> Result<bool, NoMemory> {
    let key = key_at(alloc, place, 13)?;
    Ok(is_of_both(pair, key.as_slice(), value))
}

/// Whether pairs are so many keys of thirteen pieces from a place on, each with `1`.
pub fn are_keys(
    alloc: Global,
    pairs: &[(Bytes, Bytes)],
    first: u32,
    many: u32,
) -> Result<bool, TreeFault> {
    let mut place = first;
    for pair in pairs {
        if !is_pair(alloc, pair, place, b"1")? {
            return Ok(false);
        }
        place = place.saturating_add(1);
    }
    Ok(place.saturating_sub(first) == many)
}

/// Whether there is memory for the rows of that split, and they stand in a log behind so many bytes, and nothing behind them.
fn ends_in_split(alloc: Global, log: &[u8], at: usize) -> bool {
    let mut rows = Vec::new(alloc);
    push_split(&mut rows, alloc).is_ok() && log.get(at..) == Some(rows.as_slice())
}

/// How many bytes the 32 keys of a full leaf push, and whether the next key pushes the rows of its split.
fn split_leaf(tree: &mut Tree) -> Result<(usize, bool), TreeFault> {
    put_keys(tree, 32, 5, 1, 32)?;
    let many = tree.log.bytes().len();
    put(tree, b"AaAaAaAaC#", b"1")?;
    let splits = ends_in_split(tree.alloc, tree.log.bytes(), many);
    Ok((many, splits))
}

#[test]
fn the_33rd_key_of_a_leaf_splits_it(rt: HostRuntime) -> Result<(), Fail> {
    assert_eq!(rt; on_bare(rt.alloc(), split_leaf).ok(), Some((1056, true)));
    Ok(())
}

/// Whether a scan of all keys gives so many.
fn scans_all(tree: &mut Tree, many: u32) -> Result<bool, TreeFault> {
    let all = pairs(tree, b"A", b"C", 2000)?;
    are_keys(tree.alloc, all.as_slice(), 0, many)
}

/// How many keys a tree has once rows are laid, where a scan gives them all.
fn count_laid(tree: &mut Tree, rows: &[u8], many: u32) -> Result<u32, TreeFault> {
    lay(tree, rows)?;
    let count = count_keys(tree, many)?;
    Ok(if scans_all(tree, many)? { count } else { 0 })
}

/// So of a tree on the rows that another pushed.
fn count_again(tree: &Tree, many: u32) -> Result<u32, TreeFault> {
    let rows = tree.log.bytes();
    on_bare(tree.alloc, |again| count_laid(again, rows, many))
}

/// The depth of a tree whose keys are set in an order, and how many keys it has: itself, and a tree on the rows that were pushed.
fn grow(tree: &mut Tree, many: u32, step: u32) -> Result<(u8, u32, u32), TreeFault> {
    put_keys(tree, many, 13, step, many)?;
    let depth = depth_of(tree);
    let found = count_keys(tree, many)?;
    let again = count_again(tree, many)?;
    Ok((depth, found, again))
}

#[test]
fn trees_grow_to_depth_3(rt: HostRuntime) -> Result<(), Fail> {
    for (many, step) in [(600, 1), (600, 599), (900, 371)] {
        assert_eq!(rt;
            on_bare(rt.alloc(), |tree| grow(tree, many, step))?,
            (3, many, many),
            "step {step}"
        );
    }
    Ok(())
}
