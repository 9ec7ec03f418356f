//! What takes back the changes of a leaf's pairs.

ghost use Rattle.std.specs.Prelude.{◌≡◌, ◌<◌, ◌≤◌, ◌+◌, ◌-◌, ◌++◌, ◌∷◌, [], ℕ, OnOk, OnErr, IfErr, length, take, drop, reverse, vec_len, vec_capacity};
ghost use Rattle.std.specs.List.{insert};
ghost use Rattle.node_cache.specs.Undo.{CanTakeBack, CanTakeAll, back, all_back, latest_first, pushed, IsChangedBy};

use crate::cached::Cached;
use crate::pairs::exchange_value;
use fine_model::{Bytes, Items, Node, Pairs};
use std::alloc::Global;
use std::mem;
use std::snapshot::Snapshot;

/// What takes back one change of a leaf's pairs.
#[derive(Drop)]
pub enum Step {
    /// The pair at this place had this value.
    Replaced {
        at: usize,
        value: Bytes,
    },
    /// No pair stood at this place.
    Inserted {
        at: usize,
    },
    /// This pair stood at this place. The empty list has room for it beside all others, so that putting it back takes no memory.
    Removed {
        at: usize,
        pair: (Bytes, Bytes),
        room: Vec<(Bytes, Bytes)>,
    },
    /// These pairs stood behind all others, the last one first here. The list has room for the others too, so that putting them back takes no memory.
    Cut {
        cut: Vec<(Bytes, Bytes)>,
    },
}

/// What takes back all changes of a leaf: its version and epoch before them, and the step of each change, of which most leaves
/// have one.
#[derive(Drop)]
pub struct UndoLog {
    pub original: Snapshot<Cached>,
    pub version: u64,
    pub epoch: u64,
    pub earlier: Items<Step>,
    pub last: Step,
}

/// Moves the pairs from a place on into a list with room for them, the last one first.
pub fn pour(pairs: &mut Pairs, from: usize, room: &mut Vec<(Bytes, Bytes)>)
    requires from { from ≤ length pairs.old }
    requires room { vec_len room.old + (length pairs.old - from) ≤ vec_capacity room.old }
    ensures pairs { pairs.new ≡ take from pairs.old }
    ensures room { room.new.items ≡ room.old.items ++ reverse (drop from pairs.old) }
    ensures capacity { vec_capacity room.new ≡ vec_capacity room.old }
{
    while pairs.len() > from {
        let last = pairs.len() - 1;
        let pair = pairs.remove(last);
        room.push_reserved(pair);
    }
}

/// Puts pairs back that stood behind the others. The list has the last one first.
fn put_behind(pairs: &mut Pairs, cut: Vec<(Bytes, Bytes)>)
    requires { vec_len cut + length pairs.old ≤ vec_capacity cut }
    ensures { pairs.new ≡ pairs.old ++ reverse cut.items }
{
    let mut all = cut;
    pour(pairs, 0, &mut all);
    all.reverse();
    *pairs = Items::from_vec(all);
}

/// Puts a pair back that was removed.
fn put_back(pairs: &mut Pairs, at: usize, pair: (Bytes, Bytes), room: Vec<(Bytes, Bytes)>)
    requires at { at ≤ length pairs.old }
    requires room { length pairs.old < vec_capacity room }
    requires empty { room.items ≡ [] }
    ensures { pairs.new ≡ insert pairs.old at pair }
{
    let mut room = room;
    pour(pairs, at, &mut room);
    room.push_reserved(pair);
    put_behind(pairs, room);
}

/// Takes back one change.
fn take_back(alloc: Global, pairs: &mut Pairs, step: Step)
    requires { CanTakeBack step pairs.old }
    ensures { pairs.new ≡ back step pairs.old }
{
    match step {
        Step::Replaced { at, value } => {
            let _later = exchange_value(alloc, pairs, at, value);
        }
        Step::Inserted { at } => {
            let _later = pairs.remove(at);
        }
        Step::Removed { at, pair, room } => put_back(pairs, at, pair, room),
        Step::Cut { cut } => put_behind(pairs, cut),
    }
}

/// Takes back changes, the latest first.
fn take_all_back(alloc: Global, pairs: &mut Pairs, steps: Items<Step>)
    requires { CanTakeAll (reverse steps) pairs.old }
    ensures { pairs.new ≡ all_back (reverse steps) pairs.old }
{
    let mut steps = steps;
    while steps.len() > 0 {
        let last = steps.len() - 1;
        let step = steps.remove(last);
        take_back(alloc, pairs, step);
    }
}

/// Makes a node what it was before its changes. It takes no memory.
pub fn rewind(alloc: Global, kept: &mut Cached, undo: UndoLog)
    requires { IsChangedBy kept.old undo }
    ensures { kept.new ≡ undo.original.value }
{
    let UndoLog {
        original: _,
        version,
        epoch,
        earlier,
        last,
    } = undo;
    if let Node::Leaf { pairs } = &mut kept.node {
        take_back(alloc, pairs, last);
        take_all_back(alloc, pairs, earlier);
    }
    kept.version = version;
    kept.epoch = epoch;
}

/// Adds what takes back a later change, which comes back where memory is wanting.
pub fn add_step(undo: &mut UndoLog, step: Step) -> Result<(), Step>
    ensures ok { OnOk result (undo.new ≡ pushed undo.old step) }
    ensures err { OnErr result (undo.new ≡ undo.old) }
    ensures back { IfErr result (λ back. back ≡ step) }
{
    let last = mem::replace(&mut undo.last, step);
    match undo.earlier.push(last) {
        Ok(()) => Ok(()),
        Err((_, last)) => Err(mem::replace(&mut undo.last, last)),
    }
}
