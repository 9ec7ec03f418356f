//! Merging the rows of two partitions that follow each other.
#![tactic(auto)]

ghost use Rattle.std.specs.Prelude.{◌≡◌, ◌++◌, IsTrue, IfOk, OnOk};
ghost use Rattle.std.specs.List.{AllByRecursion};
ghost use Rattle.fine_model.specs.RowBytes.{FitsRec};
ghost use Rattle.fine_model.specs.Merge.{is_ordered, merged};
ghost use Rattle.fine_model.specs.Nodes.{is_node};
ghost use Rattle.partition_merge.specs.Merging.{FitRows, node_at_head, lower, first_node, run_len, begins_above, merged_of, StandsFor};

mod blocks;
mod buffer;
mod fold;
mod laws;
mod leaf;
mod merger;
mod order;
mod pass;
mod piece;
mod reader;
mod through;
mod window;

pub use blocks::Blocks;
use fine_model::{Copied, Items, NoMemory, NodeId, Row, Rows};
use fold::folded;
pub use laws::{blocks_law, joins_law};
pub use merger::{Measure, Merger};
use std::alloc::Global;

/// The lower one of two nodes.
fn lower(older: Option<NodeId>, newer: Option<NodeId>) -> Option<NodeId>
    ensures { result ≡ lower older newer }
{
    match (older, newer) {
        (Some(old), Some(new)) => {
            if new.cmp(&old).is_lt() {
                Some(new)
            } else {
                Some(old)
            }
        }
        (Some(node), None) | (None, Some(node)) => Some(node),
        (None, None) => None,
    }
}

/// The node with which rows begin.
fn node_at_head(rows: &[Row]) -> Option<NodeId>
    ensures { result ≡ node_at_head rows.now }
{
    match rows.first() {
        Some(row) => Some(row.node),
        None => None,
    }
}

/// The lower one of the nodes with which two lists of rows begin.
fn first_node(older: &[Row], newer: &[Row]) -> Option<NodeId>
    ensures { result ≡ first_node older.now newer.now }
{
    lower(node_at_head(older), node_at_head(newer))
}

/// The number of rows of a node with which rows begin.
fn run_len(rows: &[Row], node: NodeId) -> usize
    ensures { result ≡ run_len node rows.now }
{
    for (i, row) in rows.iter().enumerate() {
        if row.node != node {
            return i;
        }
    }
    rows.len()
}

/// Whether the first of rows, if there is one, is above a row.
fn begins_above(row: &Row, rows: &[Row]) -> bool
    ensures { result ≡ begins_above row.now rows.now }
{
    match rows.first() {
        Some(next) => {
            let order = row.node.cmp(&next.node);
            order.then(row.version.cmp(&next.version)).is_lt()
        }
        None => true,
    }
}

/// Whether rows ascend strictly by bucket, number and version, as those of a partition do. They are gone over once. Takes no memory.
pub fn is_ordered(rows: &[Row]) -> bool
    ensures { result ≡ is_ordered rows.now }
{
    let mut left = rows;
    while let Some((row, rest)) = left.split_first() {
        if !begins_above(row, rest) {
            return false;
        }
        left = rest;
    }
    true
}

fn push_all(merged: &mut Rows, rows: &[Row]) -> Result<(), NoMemory>
    ensures { OnOk result (merged.new ≡ merged.old ++ rows.now) }
{
    for row in rows {
        let copy = row.copy()?;
        merged.push(copy)?;
    }
    Ok(())
}

/// Pushes what the rows of one node are merged into.
fn push_node(
    alloc: Global,
    merged: &mut Rows,
    node: NodeId,
    older: &[Row],
    newer: &[Row],
) -> Result<(), NoMemory>
    requires older { FitRows older.now }
    requires newer { FitRows newer.now }
    ensures { OnOk result (merged.new ≡ merged.old ++ merged_of node (older.now ++ newer.now)) }
{
    match folded(alloc, node, older, newer)? {
        Some(image) => merged.push(image)?,
        None => {
            push_all(merged, older)?;
            push_all(merged, newer)?;
        }
    }
    Ok(())
}

/// The rows of two partitions in one list: node by node, in order, the older rows and then the newer ones, or the node's image.
/// The image stands for a node's rows exactly where they begin with an image or with version 1, their replay is not broken, and
/// the image row is not longer than all of them together.
///
/// The rows of each list ascend strictly by bucket, number and version, and their bodies are within the format's bounds. Both
/// lists are gone over once. `NoMemory` is the only refusal.
pub fn merge_rows(alloc: Global, older: &Rows, newer: &Rows) -> Result<Rows, NoMemory>
    requires older_order { IsTrue (is_ordered older.now) }
    requires newer_order { IsTrue (is_ordered newer.now) }
    requires older { FitRows older.now }
    requires newer { FitRows newer.now }
    ensures merged { IfOk result (λ rows. rows ≡ merged older.now newer.now) }
    ensures same { IfOk result (StandsFor older.now newer.now) }
{
    let mut merged = Items::new(alloc);
    let mut old_left = older.as_slice();
    let mut new_left = newer.as_slice();
    while let Some(node) = first_node(old_left, new_left) {
        let (old_rows, old_rest) = old_left.split_at(run_len(old_left, node));
        let (new_rows, new_rest) = new_left.split_at(run_len(new_left, node));
        push_node(alloc, &mut merged, node, old_rows, new_rows)?;
        old_left = old_rest;
        new_left = new_rest;
    }
    Ok(merged)
}
