//! Trees at the limits of numbers, depth and versions.

ghost use Rattle.std.specs.Prelude.{IfOk};

use super::fixtures::{Kind, Tree, call, del, on_bare, put};
use super::splits::{depth_of, put_keys};
use btree_nodes::TreeFault;
use fine_model::format::GREATEST;
use fine_model::{NoMemory, NodeId};
use std::alloc::Global;
use std::test::*;

/// Puts a row of bucket 64 behind others: kind, bucket, number, version, length of the body, and the body.
pub fn push(
    rows: &mut Vec<u8>,
    kind: u8,
    number: u32,
    version: u64,
    body: &[u8],
) -> Result<(), NoMemory> {
    let len = u32::try_from(body.len()).unwrap_or(0);
    for part in [
        [kind].as_slice(),
        b"\x00\x40".as_slice(),
        number.to_be_bytes().as_slice(),
        version.to_be_bytes().as_slice(),
        len.to_be_bytes().as_slice(),
        body,
    ] {
        rows.extend_from_slice(part)?;
    }
    Ok(())
}

/// The image of a head.
pub fn push_head(
    rows: &mut Vec<u8>,
    version: u64,
    root: u32,
    next: u32,
    depth: u8,
) -> Result<(), NoMemory> {
    let [a, b, c, d] = root.to_be_bytes();
    let [e, f, g, h] = next.to_be_bytes();
    push(
        rows,
        1,
        0,
        version,
        [a, b, c, d, e, f, g, h, depth].as_slice(),
    )
}

/// The image of an inner node with 32 separators of two bytes, the first of which is `level`, and 33 times the same child.
fn push_full_inner(
    alloc: Global,
    rows: &mut Vec<u8>,
    number: u32,
    level: u8,
    child: u32,
) -> Result<(), NoMemory> {
    let mut body = Vec::new(alloc);
    body.push(32u8)?;
    for _child in 0..33u32 {
        let bytes = child.to_be_bytes();
        body.extend_from_slice(bytes.as_slice())?;
    }
    for place in 0..32u8 {
        let sep = [2, level, place];
        body.extend_from_slice(sep.as_slice())?;
    }
    push(rows, 3, number, 1, body.as_slice())
}

/// The rows of a tree of a depth whose nodes on the way of the least key are all full but for the leaf, and whose head has a next unused number.
fn push_full(alloc: Global, rows: &mut Vec<u8>, depth: u8, next: u32) -> Result<(), NoMemory> {
    push_head(rows, 1, u32::from(depth), next, depth)?;
    for height in 1..depth {
        let number = u32::from(height);
        push_full_inner(alloc, rows, number + 1, 80 + height % 10, number)?;
    }
    Ok(())
}

/// The answer to the 33rd key of a leaf, or want of memory where an earlier one is not set.
fn split(tree: &mut Tree) -> Result<(), TreeFault> {
    if put_keys(tree, 32, 5, 1, 32).is_err() {
        return Err(TreeFault::NoMemory);
    }
    put(tree, b"AaAaAaAaC#", b"1")
}

/// What became of a split: the depth behind it, or the next unused number and the depth that it was refused with.
#[derive(Clone, Copy, Debug, PartialEq, Eq)]
enum SplitEnd {
    Done(u8),
    Full(u32, u8),
    Otherwise,
}

/// The split of a leaf in such a tree.
fn split_full(tree: &mut Tree, depth: u8, next: u32) -> Result<SplitEnd, NoMemory> {
    push_full(tree.alloc, &mut tree.source.bytes, depth, next)?;
    Ok(match split(tree) {
        Ok(()) => SplitEnd::Done(depth_of(tree)),
        Err(TreeFault::BucketFull { next, depth }) => SplitEnd::Full(next, depth),
        Err(_) => SplitEnd::Otherwise,
    })
}

#[test]
fn a_bucket_is_full_where_its_numbers_or_its_depth_end(rt: HostRuntime) -> Result<(), Fail> {
    for (depth, next, end) in [
        (1, 1_048_574, SplitEnd::Done(2)),
        (1, 1_048_575, SplitEnd::Full(1_048_575, 1)),
        (1, 1_048_576, SplitEnd::Full(1_048_576, 1)),
        (7, 20, SplitEnd::Done(8)),
        (8, 20, SplitEnd::Full(20, 8)),
    ] {
        assert_eq!(rt;
            on_bare(rt.alloc(), |tree| split_full(tree, depth, next))?,
            end
        );
    }
    Ok(())
}

/// Whether an answer says that a version of this node would pass its limit.
fn is_over(answer: Result<(), TreeFault>, number: u32) -> bool {
    match answer {
        Err(TreeFault::Number { node }) => node == NodeId { bucket: 64, number },
        _ => false,
    }
}

const KEY: &[u8] = b"AaAaAaAaAa";

/// Whether each call that changes the key would pass the limit of node 1.
fn are_over(tree: &mut Tree) -> [bool; 3] {
    [
        is_over(call(tree, KEY, Kind::Put), 1),
        is_over(call(tree, KEY, Kind::Del), 1),
        is_over(call(tree, KEY, Kind::Add), 1),
    ]
}

/// Behind a put to a leaf of the last version but one: whether each call that changes the key would pass the limit, whether another key was
/// there, and how many bytes were pushed.
fn pass_the_last(tree: &mut Tree) -> Result<([bool; 3], bool, usize), TreeFault> {
    push(&mut tree.source.bytes, 2, 1, GREATEST - 1, b"\x00")?;
    put(tree, KEY, b"5")?;
    let over = are_over(tree);
    let there = del(tree, b"BBBBBBBBBB")?;
    Ok((over, there, tree.log.bytes().len()))
}

/// Whether a split would pass the limit of the head, whose version is the last, and how many bytes were pushed.
fn split_late(tree: &mut Tree) -> Result<(bool, usize), NoMemory> {
    push_head(&mut tree.source.bytes, GREATEST, 1, 2, 1)?;
    Ok((is_over(split(tree), 0), tree.log.bytes().len()))
}

#[test]
fn the_last_version_of_a_node_is_its_last(rt: HostRuntime) -> Result<(), Fail> {
    // of a leaf, and of the head, of which a split needs one more
    assert_eq!(rt; on_bare(rt.alloc(), pass_the_last)?, ([true; 3], false, 33));
    assert_eq!(rt; on_bare(rt.alloc(), split_late)?, (true, 1056));
    Ok(())
}
