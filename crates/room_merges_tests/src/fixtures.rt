//! Rooms in memory, and epochs of a few rows.

ghost use Rattle.std.specs.Prelude.{◌≡◌, ◌<◌, ◌≤◌, [], ◌∷◌, false, length, None, IfOk, OnOk};
ghost use Rattle.std.specs.List.{AllByRecursion};
ghost use Rattle.fine_model.specs.RowBytes.{FitsRow};
ghost use Rattle.fine_model.specs.declared.Mark.TheVariants as mark;
ghost use Rattle.room_merges_tests.specs.Turns.{HadTurns};

use epoch_room::{Fit, Room};
use fine_model::{Bytes, Items, NodeId, Rec, Row};
use log_disk::{FaultPlan, MemDisk};
use private_log::PrivateLog;
use room_merges::{MergeFault, merge_now};
use std::alloc::Global;

// Why a fixture was not made, as a test shows it that compares answers.
pub type Refusal = &'static str;

// A room on a new disk of eight regions, whose calls fail by a plan. What is done to a room stands in functions that borrow it: its drop at each
// exit of one that owns it costs a check seconds.
pub fn new_room(alloc: Global, plan: FaultPlan) -> Result<Room<MemDisk>, Refusal>
    ensures { IfOk result (λ room. (room.room.board ≡ None ∷ None ∷ None ∷ []) × (room.room.job ≡ None) × (room.room.places ≡ 0)) }
{
    let Ok(disk) = MemDisk::new(alloc, 8, 4096, plan) else {
        return Err("memory");
    };
    match Room::make(alloc, disk, Items::new(alloc), Items::new(alloc)) {
        Ok(room) => Ok(room),
        Err(_refused) => Err("memory"),
    }
}

// A plan by which each call of the disk fails from a number on.
pub fn stop_at(alloc: Global, stop: u64) -> FaultPlan {
    let mut plan = FaultPlan::none(alloc);
    plan.stop = stop;
    plan
}

pub fn text(alloc: Global, text: &[u8]) -> Result<Bytes, Refusal>
    ensures { IfOk result (λ b. b ≡ text.now) }
{
    Ok(Bytes::from_vec(Vec::from_slice(alloc, text).ok().ok_or("memory")?))
}

// A value of so many bytes.
pub fn value(alloc: Global, len: usize) -> Result<Bytes, Refusal>
    requires some { 1 ≤ len }
    requires few { len ≤ 256 }
    ensures some { IfOk result (λ b. 1 ≤ length b) }
    ensures few { IfOk result (λ b. length b ≤ 256) }
{
    Ok(Bytes::from_vec(vec![in alloc; b'v'; len].ok().ok_or("memory")?))
}

// A row of a version that puts a value at the key `a` in a node.
#[tactic(auto, unfolding(fine_model::specs::RowBytes::body))]
fn row_with(alloc: Global, number: u32, version: u64, value: Bytes) -> Result<Row, Refusal>
    requires low { 1 ≤ number }
    requires high { number < 100 }
    requires first { 1 ≤ version }
    requires last { version < 100 }
    requires some { 1 ≤ length value }
    requires few { length value ≤ 256 }
    ensures { IfOk result (FitsRow mark.Two) }
{
    let key = text(alloc, b"a")?;
    Ok(Row {
        node: NodeId { bucket: 97, number },
        version,
        rec: Rec::Put { key, value },
    })
}

// A row of the first version, whose value has so many bytes.
pub fn row_of(alloc: Global, number: u32, len: usize) -> Result<Row, Refusal>
    requires low { 1 ≤ number }
    requires high { number < 100 }
    requires some { 1 ≤ len }
    requires few { len ≤ 256 }
    ensures { IfOk result (FitsRow mark.Two) }
{
    row_with(alloc, number, 1, value(alloc, len)?)
}

fn push(log: &mut PrivateLog, row: &Row) -> Result<(), Refusal>
    requires row { FitsRow mark.Two row.now }
    requires fit { AllByRecursion (FitsRow mark.Two) log.old }
    ensures { OnOk result (AllByRecursion (FitsRow mark.Two) log.new) }
{
    match log.push(row) {
        Ok(()) => Ok(()),
        Err(_refused) => Err("memory"),
    }
}

fn put(log: &mut PrivateLog, alloc: Global, number: u32, len: usize) -> Result<(), Refusal>
    requires low { 1 ≤ number }
    requires high { number < 100 }
    requires some { 1 ≤ len }
    requires few { len ≤ 256 }
    requires fit { AllByRecursion (FitsRow mark.Two) log.old }
    ensures { OnOk result (AllByRecursion (FitsRow mark.Two) log.new) }
{
    let row = row_of(alloc, number, len)?;
    push(log, &row)
}

// So in each of so many nodes, from a number on.
fn put_some(alloc: Global, from: u32, nodes: u32, len: usize) -> Result<PrivateLog, Refusal>
    requires low { 1 ≤ from }
    requires high { from < 50 }
    requires nodes { nodes < 50 }
    requires some { 1 ≤ len }
    requires few { len ≤ 256 }
    ensures { IfOk result (AllByRecursion (FitsRow mark.Two)) }
{
    let mut log = PrivateLog::new(alloc);
    let end = from + nodes;
    let mut number = from;
    while number < end {
        put(&mut log, alloc, number, len)?;
        number += 1;
    }
    Ok(log)
}

#[tactic(auto, using(crate::proofs::Turned::no_turns), unfolding(epoch_room::specs::Steps::appended))]
fn commit(room: &mut Room<MemDisk>, log: &PrivateLog) -> Result<(), Refusal>
    requires { AllByRecursion (FitsRow mark.Two) log.now }
    ensures waits { OnOk result (1 ≤ room.new.room.waiting) }
    ensures turns { HadTurns room.old room.new }
{
    match room.fit(log.cost()) {
        Fit::Fits => {
            let _stamp = room.append(log);
            Ok(())
        }
        _ => Err("fit"),
    }
}

// An epoch more of one entry, of these rows. The board, and the job that is out, are as they were, whatever the answer.
fn seal_log(room: &mut Room<MemDisk>, log: &PrivateLog) -> Result<(), Refusal>
    requires { AllByRecursion (FitsRow mark.Two) log.now }
    ensures turns { HadTurns room.old room.new }
    ensures open { OnOk result (room.new.room.is_shut ≡ false) }
{
    commit(room, log)?;
    match room.seal() {
        Ok(_epoch) => Ok(()),
        Err(_fault) => Err("seal"),
    }
}

// An epoch more of one entry, which puts values of so many bytes in so many nodes, from a number on.
#[tactic(auto, using(crate::proofs::Turned::no_turns))]
pub fn seal_some(
    room: &mut Room<MemDisk>,
    alloc: Global,
    from: u32,
    nodes: u32,
    len: usize,
) -> Result<(), Refusal>
    requires low { 1 ≤ from }
    requires high { from < 50 }
    requires nodes { nodes < 50 }
    requires some { 1 ≤ len }
    requires few { len ≤ 256 }
    ensures turns { HadTurns room.old room.new }
    ensures open { OnOk result (room.new.room.is_shut ≡ false) }
{
    seal_log(room, &put_some(alloc, from, nodes, len)?)
}

// So of this row.
#[tactic(auto, using(crate::proofs::Turned::no_turns))]
fn seal_row(room: &mut Room<MemDisk>, alloc: Global, row: &Row) -> Result<(), Refusal>
    requires { FitsRow mark.Two row.now }
    ensures turns { HadTurns room.old room.new }
{
    let mut log = PrivateLog::new(alloc);
    push(&mut log, row)?;
    seal_log(room, &log)
}

// An epoch more of one entry, which puts a text at the key `a` in the first node, as a version of it.
#[tactic(auto, using(crate::proofs::Turned::no_turns))]
pub fn seal_version(
    room: &mut Room<MemDisk>,
    alloc: Global,
    version: u64,
    value: &[u8],
) -> Result<(), Refusal>
    requires first { 1 ≤ version }
    requires last { version < 100 }
    requires some { 1 ≤ length value.now }
    requires few { length value.now ≤ 256 }
    ensures turns { HadTurns room.old room.new }
{
    let row = row_with(alloc, 1, version, text(alloc, value)?)?;
    seal_row(room, alloc, &row)
}

// A merge of a room of which nothing is out, and nothing is out of it then.
pub fn merge_idle(room: &mut Room<MemDisk>, alloc: Global) -> Result<bool, MergeFault>
    requires board { room.old.room.board ≡ None ∷ None ∷ None ∷ [] }
    requires job { room.old.room.job ≡ None }
    ensures board { room.new.room.board ≡ None ∷ None ∷ None ∷ [] }
    ensures job { room.new.room.job ≡ None }
{
    merge_now(alloc, room)
}
