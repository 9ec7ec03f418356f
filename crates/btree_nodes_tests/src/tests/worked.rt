//! Worked calls on a log that has no rows.

ghost use Rattle.std.specs.Prelude.{IfOk};

use super::fixtures::{Tree, add, del, get, on_bare, put};
use fine_model::Reply;
use std::alloc::Global;
use std::test::*;

const KEY: &[u8] = b"AaAaAaAaAa";

/// Whether the key is not found.
fn finds_none(tree: &mut Tree) -> bool {
    matches!(get(tree, KEY), Ok(None))
}

/// Whether removing the key tells that it was there, or that it was not.
fn removes(tree: &mut Tree, wanted: bool) -> bool {
    matches!(del(tree, KEY), Ok(there) if there == wanted)
}

/// Whether a key that is absent is neither found nor removed, and no row is pushed.
fn are_absent(tree: &mut Tree) -> [bool; 3] {
    [
        finds_none(tree),
        removes(tree, false),
        tree.log.bytes().is_empty(),
    ]
}

/// Whether adding to the key gives this sum.
fn adds(tree: &mut Tree, by: i64, wanted: i64) -> bool {
    matches!(add(tree, KEY, by), Ok(Reply::Sum { sum }) if sum == wanted)
}

/// The rows that adding 5 and then 2 pushes: a pair that is put, and a sum.
const ADDED: &[u8] =
    b"\x04\x00\x40\x00\x00\x00\x01\x00\x00\x00\x00\x00\x00\x00\x01\x00\x00\x00\x0e\x0aAaAaAaAaAa\x00\x015\x09\x00\x40\x00\x00\x00\x01\x00\x00\x00\x00\x00\x00\x00\x02\x00\x00\x00\x13\x0aAaAaAaAaAa\x00\x00\x00\x00\x00\x00\x00\x02";

/// Whether adding to a key that is absent gives each sum, and whether these rows are pushed.
fn add_twice(tree: &mut Tree) -> [bool; 3] {
    [
        adds(tree, 5, 5),
        adds(tree, 2, 7),
        tree.log.bytes() == ADDED,
    ]
}

/// Whether the leaf is known.
fn is_known(tree: &Tree) -> bool {
    tree.bucket.has_own_keys(1)
}

/// For one call of each kind, whether it gives its answer, and whether it leaves the leaf known.
fn leave_known(tree: &mut Tree) -> [[bool; 2]; 4] {
    [
        [finds_none(tree), is_known(tree)],
        [put(tree, KEY, b"5").is_ok(), is_known(tree)],
        [adds(tree, 2, 7), is_known(tree)],
        [removes(tree, true), is_known(tree)],
    ]
}

/// Whether the leaf is known at first, after each call, and once all is taken back.
fn stays_known(tree: &mut Tree) -> (bool, [[bool; 2]; 4], bool) {
    let first = is_known(tree);
    let known = leave_known(tree);
    tree.bucket.undo();
    (first, known, is_known(tree))
}

#[test]
fn a_key_is_absent_or_added_to_and_its_leaf_stays_known(rt: HostRuntime) -> Result<(), Fail> {
    assert_eq!(rt; on_bare(rt.alloc(), are_absent), [true; 3]);
    assert_eq!(rt; on_bare(rt.alloc(), add_twice), [true; 3]);
    assert_eq!(rt;
        on_bare(rt.alloc(), stays_known),
        (false, [[true; 2]; 4], false)
    );
    Ok(())
}
