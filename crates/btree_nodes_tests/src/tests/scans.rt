//! Scans of a tree of depth 3.

ghost use Rattle.std.specs.Prelude.{IfOk};

use super::fixtures::{Tree, lay, on_bare, pairs};
use super::keys::key_at;
use super::splits::{are_keys, head_of, put_keys};
use btree_nodes::TreeFault;
use fine_model::Pairs;
use std::alloc::Global;
use std::test::*;

/// The rows that 600 keys of thirteen pieces push, each with `1`.
fn rows_of_600(tree: &mut Tree) -> Result<Vec<u8>, TreeFault> {
    put_keys(tree, 600, 13, 1, 600)?;
    match Vec::from_slice(tree.alloc, tree.log.bytes()) {
        Ok(copy) => Ok(copy),
        Err(_) => Err(TreeFault::NoMemory),
    }
}

/// So where there were no rows.
pub fn deep_rows(alloc: Global) -> Result<Vec<u8>, TreeFault> {
    on_bare(alloc, rows_of_600)
}

/// A scan between two places among the keys of thirteen pieces.
pub fn pairs_between(tree: &mut Tree, low: u32, high: u32, limit: u32) -> Result<Pairs, TreeFault> {
    let low = key_at(tree.alloc, low, 13)?;
    let high = key_at(tree.alloc, high, 13)?;
    pairs(tree, low.as_slice(), high.as_slice(), limit)
}

/// What a cached head says of the next unused number, or 0.
fn next_of(tree: &Tree) -> u32 {
    match head_of(tree) {
        Some((next, _depth)) => next,
        None => 0,
    }
}

/// The first place of a scan, the one behind its last, and its limit.
type Range = (u32, u32, u32);

/// What a scan of rows is to show.
#[derive(Clone, Copy)]
enum Shows {
    /// So many keys, from its first place on.
    Finds(u32),
    /// So many nodes are loaded.
    Loads(u32),
    /// As many nodes are loaded as there are.
    LoadsAll,
}

use Shows::{Finds, Loads, LoadsAll};

/// Whether a scan of rows shows that.
fn does_show(tree: &mut Tree, rows: &[u8], range: Range, shows: Shows) -> Result<bool, TreeFault> {
    let (low, high, limit) = range;
    lay(tree, rows)?;
    let found = pairs_between(tree, low, high, limit)?;
    match shows {
        Finds(many) => are_keys(tree.alloc, found.as_slice(), low, many),
        Loads(many) => Ok(tree.source.loads == many),
        LoadsAll => Ok(tree.source.loads == next_of(tree)),
    }
}

/// Ranges, with what a scan of the rows of 600 keys is to show there.
const RANGES: [(Range, Shows); 18] = [
    ((0, 600, 2000), Finds(600)),
    ((0, 600, 500), Finds(500)),
    ((0, 600, 0), Finds(0)),
    ((15, 17, 9), Finds(2)),
    ((16, 16, 9), Finds(0)),
    ((17, 16, 9), Finds(0)),
    ((200, 500, 300), Finds(300)),
    ((200, 500, 299), Finds(299)),
    ((200, 500, 301), Finds(300)),
    ((599, 8000, 9), Finds(1)),
    ((600, 8000, 9), Finds(0)),
    ((0, 600, 0), Loads(1)),
    ((9, 9, 9), Loads(1)),
    ((9, 8, 9), Loads(1)),
    ((100, 101, 9), Loads(4)),
    ((100, 120, 1), Loads(4)),
    ((8, 24, 99), Loads(5)),
    ((0, 600, 2000), LoadsAll),
];

/// The first range where a scan of rows shows another thing.
fn first_wrong(alloc: Global, rows: &[u8]) -> Result<Option<Range>, TreeFault> {
    for (range, shows) in RANGES {
        if !on_bare(alloc, |tree| does_show(tree, rows, range, shows))? {
            return Ok(Some(range));
        }
    }
    Ok(None)
}

/// So on the rows of 600 keys.
fn wrong_of_600(alloc: Global) -> Result<Option<Range>, TreeFault> {
    let rows = deep_rows(alloc)?;
    first_wrong(alloc, rows.as_slice())
}

#[test]
fn a_scan_finds_the_first_pairs_of_its_range_and_loads_only_what_it_needs(
    rt: HostRuntime,
) -> Result<(), Fail> {
    assert_eq!(rt; wrong_of_600(rt.alloc())?, None);
    Ok(())
}
