//! Trees that break the rules, one for each rule, and sources that fail.

ghost use Rattle.std.specs.Prelude.{IfOk};

use super::fixtures::{KINDS, Kind, Tree, call, lay, on_bare};
use super::limits::push;
use super::scans::deep_rows;
use btree_nodes::{TreeFault, scan};
use fine_model::{Bytes, FetchFault, Items, NoMemory, NodeId, Pairs};
use std::alloc::Global;
use std::test::*;

/// The image of an inner node with one separator, over nodes 2 and 3.
const OVER_2_AND_3: &[u8] = b"\x01\x00\x00\x00\x02\x00\x00\x00\x03\x0aBBAaAaAaAa";

/// A row of bucket 64: kind, number, version and body.
type Line = (u8, u32, u64, &'static [u8]);

/// The rows of a tree that breaks one rule, and the first node that shows it on the way of the least key.
type Broken = (&'static [Line], u32);

/// The root is below the next unused number.
const ROOT: Broken = (&[(1, 0, 1, b"\x00\x00\x00\x05\x00\x00\x00\x05\x01")], 0);

/// Leaves stand at height 0 alone.
const LEAF: Broken = (&[(1, 0, 1, b"\x00\x00\x00\x01\x00\x00\x00\x04\x02")], 1);

/// Inner nodes stand above height 0.
const INNER: Broken = (&[(3, 1, 1, OVER_2_AND_3)], 1);

/// Versions follow on each other.
const VERSION: Broken = (&[(4, 1, 2, b"\x0aAaAaAaAaAa\x00\x011")], 1);

/// Each child is below the next unused number.
const CHILD: Broken = (
    &[
        (1, 0, 1, b"\x00\x00\x00\x01\x00\x00\x00\x03\x02"),
        (3, 1, 1, OVER_2_AND_3),
    ],
    1,
);

/// Keys lie within the separators beside their leaf.
const KEY: Broken = (
    &[
        (1, 0, 1, b"\x00\x00\x00\x01\x00\x00\x00\x04\x02"),
        (3, 1, 1, OVER_2_AND_3),
        (4, 2, 1, b"\x0aBBAaAaAaAa\x00\x011"),
    ],
    2,
);

/// Keys belong to the bucket.
const BUCKET: Broken = (&[(4, 1, 1, b"\x01a\x00\x011")], 1);

/// Separators lie strictly within those further up.
const SEPARATOR: Broken = (
    &[
        (1, 0, 1, b"\x00\x00\x00\x01\x00\x00\x00\x06\x03"),
        (3, 1, 1, OVER_2_AND_3),
        (3, 2, 1, OVER_2_AND_3),
    ],
    2,
);

fn push_line(rows: &mut Vec<u8>, line: Line) -> Result<(), NoMemory> {
    let (kind, number, version, body) = line;
    push(rows, kind, number, version, body)
}

fn push_lines(rows: &mut Vec<u8>, lines: &[Line]) -> Result<(), NoMemory> {
    for line in lines {
        push_line(rows, *line)?;
    }
    Ok(())
}

/// Whether an answer names this node as unfit.
fn is_unfit(answer: Result<(), TreeFault>, number: u32) -> bool {
    match answer {
        Err(TreeFault::Unfit { node }) => node == NodeId { bucket: 64, number },
        _ => false,
    }
}

/// Whether a call on the least key names this node as unfit.
fn names_unfit(tree: &mut Tree, kind: Kind, number: u32) -> bool {
    is_unfit(call(tree, b"AaAaAaAaAa", kind), number)
}

/// How many of the five calls do.
fn count_unfit(tree: &mut Tree, number: u32) -> u32 {
    let mut count = 0u32;
    for kind in KINDS {
        if names_unfit(tree, kind, number) {
            count = count.saturating_add(1);
        }
    }
    count
}

/// So on these rows, or 0 where a call pushes a row.
fn unfit_on(tree: &mut Tree, lines: &[Line], number: u32) -> Result<u32, NoMemory> {
    push_lines(&mut tree.source.bytes, lines)?;
    let count = count_unfit(tree, number);
    Ok(if tree.log.bytes().is_empty() {
        count
    } else {
        0
    })
}

const RULES: [Broken; 8] = [ROOT, LEAF, INNER, VERSION, CHILD, KEY, BUCKET, SEPARATOR];

/// So of trees that had no rows, for each rule.
fn unfit_by_rule(alloc: Global) -> Result<[u32; 8], NoMemory> {
    let mut counts = [0; 8];
    for rule in 0..8 {
        let (lines, number) = RULES[rule];
        counts[rule] = on_bare(alloc, |tree| unfit_on(tree, lines, number))?;
    }
    Ok(counts)
}

#[test]
fn each_call_names_the_first_unfit_node(rt: HostRuntime) -> Result<(), Fail> {
    assert_eq!(rt; unfit_by_rule(rt.alloc())?, [5; 8]);
    Ok(())
}

/// What became of a call on a source of which a load may fail.
#[derive(Clone, Copy, PartialEq, Eq)]
enum Ends {
    Done,
    Failed,
    Otherwise,
}

fn end_of(answer: Result<(), TreeFault>) -> Ends {
    match answer {
        Ok(()) => Ends::Done,
        Err(
            TreeFault::Source {
                fault: FetchFault::Failed,
            },
        ) => Ends::Failed,
        Err(_) => Ends::Otherwise,
    }
}

/// How a scan over some leaves ends.
fn end_of_scan(tree: &mut Tree, out: &mut Pairs) -> Ends {
    if tree.bucket.bucket() > 255 {
        return Ends::Otherwise;
    }
    end_of(scan(
        &mut tree.source,
        &mut tree.bucket,
        b"AaAaAaAaAaAaAaAaAaAaAaBBAa",
        b"C",
        60,
        out,
    ))
}

/// So behind a pair that is put there before. Where it fails, the pair is all that is there.
fn scan_behind(tree: &mut Tree, out: &mut Pairs) -> Ends {
    if out
        .push((Bytes::new(tree.alloc), Bytes::new(tree.alloc)))
        .is_err()
    {
        return Ends::Otherwise;
    }
    let end = end_of_scan(tree, out);
    let many = if end == Ends::Done { 61 } else { 1 };
    if out.len() == many {
        end
    } else {
        Ends::Otherwise
    }
}

/// How one of the five calls ends, of which the scan is one behind a pair.
fn end_call(tree: &mut Tree, kind: Kind) -> Ends {
    if kind == Kind::Scan {
        let mut out = Items::new(tree.alloc);
        scan_behind(tree, &mut out)
    } else {
        end_of(call(tree, b"AaAaAaAaAaAaAaAaAaAaAaAaBB", kind))
    }
}

/// How a call on rows ends where this load fails, which is otherwise if it failed and pushed rows, and how many loads there were.
fn fail_load(
    tree: &mut Tree,
    rows: &[u8],
    kind: Kind,
    fails: u32,
) -> Result<(Ends, u32), NoMemory> {
    lay(tree, rows)?;
    tree.source.fails = fails;
    let end = end_call(tree, kind);
    let end = if end == Ends::Failed && !tree.log.bytes().is_empty() {
        Ends::Otherwise
    } else {
        end
    };
    Ok((end, tree.source.loads))
}

/// Makes each load of a call fail in turn, until none does. Answers how many loads there were, or 0 where an answer was another.
fn fail_each_load(alloc: Global, rows: &[u8], kind: Kind) -> Result<u32, NoMemory> {
    for fails in 1..20u32 {
        match on_bare(alloc, |tree| fail_load(tree, rows, kind, fails))? {
            (Ends::Done, loads) => return Ok(loads),
            (Ends::Failed, loads) if loads == fails => {}
            _ => return Ok(0),
        }
    }
    Ok(0)
}

/// So of each of the five calls.
fn fail_each_call(alloc: Global, rows: &[u8]) -> Result<[u32; 5], NoMemory> {
    let mut loads = [0; 5];
    for place in 0..5 {
        loads[place] = fail_each_load(alloc, rows, KINDS[place])?;
    }
    Ok(loads)
}

/// So on the rows of 600 keys.
fn fail_on_600(alloc: Global) -> Result<[u32; 5], TreeFault> {
    let rows = deep_rows(alloc)?;
    match fail_each_call(alloc, rows.as_slice()) {
        Ok(loads) => Ok(loads),
        Err(_no_memory) => Err(TreeFault::NoMemory),
    }
}

#[test]
fn a_load_that_fails_is_told(rt: HostRuntime) -> Result<(), Fail> {
    // the scan, which is the last of the five, loads more than the others
    assert_eq!(rt; fail_on_600(rt.alloc())?, [4, 4, 4, 4, 7]);
    Ok(())
}
