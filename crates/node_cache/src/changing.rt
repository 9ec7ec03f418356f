//! Changes of the pairs of a cached leaf.

ghost use Rattle.std.specs.Prelude.{◌≡◌, ◌≤◌, IfOk, OnErr, is_some, nat_eq, length};
ghost use Rattle.std.specs.Map.{lookup};
ghost use Rattle.indexmap.specs.IndexMap.{IsUnique};
ghost use Rattle.fine_model.specs.RowBytes.{most_in_node};
ghost use Rattle.node_cache.specs.Saves.{saved_in, IsOnce};
ghost use Rattle.node_cache.specs.Undo.{TakesBack, IsOfLeaf};
ghost use Rattle.node_cache.specs.Changing.{changes_pair, changes_leaf, changed_pairs, StepsBack, IsNoted, ChangesPair, FitsChange};

use crate::cached::Cached;
use crate::pairs::{cut_pairs, set_pair, unset_pair};
use crate::saved::Saved;
use crate::undo::{Step, UndoLog, rewind};
use fine_model::{Items, NoMemory, Node, Pairs, Rec, Row};
use indexmap::IndexMap;
use std::alloc::Global;
use std::snapshot::Snapshot;

/// Sets or removes a pair of a leaf, or cuts pairs off. Answers what takes this back, or none where nothing is changed.
fn change_leaf(alloc: Global, pairs: &mut Pairs, change: &Rec) -> Result<Option<Step>, NoMemory>
    requires { IsOfLeaf pairs.old }
    ensures done { IfOk result (λ step. is_some step ≡ changes_leaf pairs.old change.now) }
    ensures step { IfOk result (λ step. TakesBack step pairs.old pairs.new (changed_pairs pairs.old change.now)) }
    ensures few { length pairs.new ≤ most_in_node }
    ensures err { OnErr result (pairs.new ≡ pairs.old) }
{
    match change {
        Rec::Put { key, value } => set_pair(alloc, pairs, key.as_slice(), value.as_slice()),
        Rec::Del { key } => unset_pair(alloc, pairs, key.as_slice()),
        Rec::CutLeaf { key } => cut_pairs(alloc, pairs, key.as_slice()),
        _ => Ok(None),
    }
}

/// Does to a leaf what a row says of its pairs. Answers what takes this back, or none where nothing is changed.
fn step_pair(alloc: Global, kept: &mut Cached, row: &Row) -> Result<Option<Step>, NoMemory>
    requires row { FitsChange row.now }
    ensures done { IfOk result (λ step. is_some step ≡ changes_pair kept.old row.now) }
    ensures step { IfOk result (λ step. StepsBack step kept.old kept.new row.now) }
    ensures err { OnErr result (kept.new ≡ kept.old) }
{
    if kept.version >= row.version || row.version - kept.version != 1 {
        return Ok(None);
    }
    let Node::Leaf { pairs } = &mut kept.node else {
        return Ok(None);
    };
    let step = change_leaf(alloc, pairs, &row.rec)?;
    if step.is_some() {
        kept.version = row.version;
    }
    Ok(step)
}

/// Does to a cached leaf what a row says of its pairs, and notes what takes this back. Answers whether it did.
fn change_kept(
    alloc: Global,
    kept: &mut Cached,
    saved: &mut Saved,
    row: &Row,
) -> Result<bool, NoMemory>
    requires row { FitsChange row.now }
    requires once { IsOnce saved.old }
    ensures done { IfOk result (λ done. done ≡ changes_pair kept.old row.now) }
    ensures noted { IfOk result (λ done. IsNoted done kept.old kept.new (saved_in saved.old) (saved_in saved.new) row.now) }
    ensures once { IsOnce saved.new }
    ensures err_kept { OnErr result (kept.new ≡ kept.old) }
    ensures err_saved { OnErr result ((saved_in saved.new) ≡ (saved_in saved.old)) }
{
    let original = Snapshot::of(kept);
    let version = kept.version;
    let epoch = kept.epoch;
    let Some(last) = step_pair(alloc, kept, row)? else {
        return Ok(false);
    };
    let undo = UndoLog {
        original,
        version,
        epoch,
        earlier: Items::new(alloc),
        last,
    };
    if let Err(undo) = saved.note(row.node.number, undo) {
        rewind(alloc, kept, undo);
        return Err(NoMemory);
    }
    Ok(true)
}

/// Does to a cached leaf what a row says of its pairs, and saves what takes this back. Answers whether it did.
pub fn change_pair(
    nodes: &mut IndexMap<u32, Cached>,
    saved: &mut Saved,
    row: &Row,
) -> Result<bool, NoMemory>
    requires row { FitsChange row.now }
    requires once { IsOnce saved.old }
    ensures change { ChangesPair result nodes.old.entries nodes.new.entries (saved_in saved.old) (saved_in saved.new) row.now }
    ensures unique_nodes { IsUnique nat_eq nodes.new }
    ensures once { IsOnce saved.new }
{
    let alloc = *nodes.allocator();
    match nodes.get_mut(&row.node.number) {
        Some(kept) => change_kept(alloc, kept, saved, row),
        None => Ok(false),
    }
}
