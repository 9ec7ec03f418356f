//! Merges whose calls of the disk fail, and what a crash leaves of them.

ghost use Rattle.std.specs.Prelude.{◌≡◌, ◌≤◌, [], ◌∷◌, None, IfOk};
ghost use Rattle.epoch_room.specs.Whole.{IsIdle};
ghost use Rattle.room_merges_tests.specs.Turns.{HadTurns};

use crate::fixtures::{Refusal, merge_idle, new_room, seal_some, stop_at, text, value};
use epoch_room::{Room, RoomFault};
use fine_model::{Bytes, FetchFault, Items, Node, NodeId};
use log_disk::{FaultPlan, LogEye, MemDisk};
use partition_hold::View;
use reopen::open_log;
use room_merges::MergeFault;
use std::alloc::Global;

// What a merge answers.
#[derive(Clone, Copy, Debug, PartialEq, Eq)]
enum Answer {
    Merged,
    NoneFit,
    Read,
    Disk,
    Shut,
    Other,
}

use Answer::{Disk, Merged, NoneFit, Other, Read, Shut};

fn answer_of(answer: Result<bool, MergeFault>) -> Answer {
    match answer {
        Ok(merged) => { if merged { Merged } else { NoneFit } }
        Err(fault) => match fault {
            MergeFault::Fetch(FetchFault::Failed) => Read,
            MergeFault::Room(RoomFault::Disk) => Disk,
            MergeFault::Room(RoomFault::Shut { epoch: _ }) => Shut,
            _ => Other,
        },
    }
}

fn merge(room: &mut Room<MemDisk>, alloc: Global) -> Answer
    requires board { room.old.room.board ≡ None ∷ None ∷ None ∷ [] }
    requires job { room.old.room.job ≡ None }
    ensures board { room.new.room.board ≡ None ∷ None ∷ None ∷ [] }
    ensures job { room.new.room.job ≡ None }
{
    answer_of(merge_idle(room, alloc))
}

// Three merges of a room, one after another.
fn merge_thrice(room: &mut Room<MemDisk>, alloc: Global) -> [Answer; 3]
    requires board { room.old.room.board ≡ None ∷ None ∷ None ∷ [] }
    requires job { room.old.room.job ≡ None }
    ensures board { room.new.room.board ≡ None ∷ None ∷ None ∷ [] }
    ensures job { room.new.room.job ≡ None }
{
    let first = merge(room, alloc);
    let second = merge(room, alloc);
    [first, second, merge(room, alloc)]
}

// ---- calls that fail

// Two epochs more of one row each.
fn seal_two(room: &mut Room<MemDisk>, alloc: Global) -> Result<(), Refusal>
    ensures { HadTurns room.old room.new }
{
    seal_some(room, alloc, 1, 1, 1)?;
    seal_some(room, alloc, 2, 1, 1)
}

// Three merges of two parts of one row, which take four calls of the disk each.
fn merge_two(room: &mut Room<MemDisk>, alloc: Global) -> Result<[Answer; 3], Refusal>
    requires board { room.old.room.board ≡ None ∷ None ∷ None ∷ [] }
    requires job { room.old.room.job ≡ None }
{
    seal_two(room, alloc)?;
    Ok(merge_thrice(room, alloc))
}

// So in a new room.
fn merged_with(alloc: Global, plan: FaultPlan) -> Result<[Answer; 3], Refusal> {
    let mut room = new_room(alloc, plan)?;
    merge_two(&mut room, alloc)
}

#[test]
fn each_call_that_fails_is_told(rt: HostRuntime) {
    let alloc = rt.alloc();
    // the view's eye, the body and the header and their sync, the gate and its sync, and two gates and a sync to erase the two
    for stop in 9..18 {
        assert_eq!(rt;
            merged_with(alloc, stop_at(alloc, stop)),
            Ok([Disk, Shut, Shut])
        );
    }
    assert_eq!(rt;
        merged_with(alloc, stop_at(alloc, 18)),
        Ok([Merged, Disk, Shut])
    );
    assert_eq!(rt;
        merged_with(alloc, FaultPlan::none(alloc)),
        Ok([Merged, NoneFit, NoneFit])
    );
}

// A plan by which one read of the first eye fails.
fn failing_read(alloc: Global, read: u64) -> Result<FaultPlan, Refusal> {
    let mut plan = FaultPlan::none(alloc);
    plan.eye_reads.push((1, read)).ok().ok_or("memory")?;
    Ok(plan)
}

fn merged_reading(alloc: Global, read: u64) -> Result<[Answer; 3], Refusal> {
    merged_with(alloc, failing_read(alloc, read)?)
}

#[test]
fn a_read_that_fails_leaves_the_room_open(rt: HostRuntime) {
    // the index and the rows of two parts, to measure them and to merge them
    for read in 1..10 {
        let first = if read < 9 { Read } else { Merged };
        let second = if read < 9 { Merged } else { NoneFit };
        assert_eq!(rt;
            merged_reading(rt.alloc(), read),
            Ok([first, second, NoneFit])
        );
    }
}

// ---- crashes

// Three epochs more of eight rows each. Each row has 279 bytes, so that the merged rows of two parts need two regions.
fn seal_three(room: &mut Room<MemDisk>, alloc: Global) -> Result<(), Refusal>
    ensures { HadTurns room.old room.new }
{
    seal_some(room, alloc, 1, 8, 256)?;
    seal_some(room, alloc, 9, 8, 256)?;
    seal_some(room, alloc, 17, 8, 256)
}

// A room of three such parts, which take twelve calls of the disk.
pub fn three_parts(alloc: Global, plan: FaultPlan) -> Result<Room<MemDisk>, Refusal>
    ensures { IfOk result (λ room. (room.room.board ≡ None ∷ None ∷ None ∷ []) × (room.room.job ≡ None)) }
{
    let mut room = new_room(alloc, plan)?;
    seal_three(&mut room, alloc)?;
    Ok(room)
}

// The disk of a room as a crash leaves it, where all that was not synced has one byte; as the last sync left it without such bytes.
fn crash(alloc: Global, room: Room<MemDisk>, byte: u8, len: usize) -> Result<MemDisk, Refusal>
    requires board { room.room.board ≡ None ∷ None ∷ None ∷ [] }
    requires job { room.room.job ≡ None }
    ensures { IfOk result (λ disk. IsIdle disk.disk) }
{
    let disk = room.into_disk();
    let picks = vec![in alloc; byte; len].ok().ok_or("memory")?;
    match disk.crashed(picks.as_slice()) {
        Ok(disk) => Ok(disk),
        Err(_refused) => Err("memory"),
    }
}

// The pair of the key `a` and a value of so many bytes.
fn pair_of(alloc: Global, len: usize) -> Result<(Bytes, Bytes), Refusal>
    requires some { 1 ≤ len }
    requires few { len ≤ 256 }
{
    Ok((text(alloc, b"a")?, value(alloc, len)?))
}

// The leaf of one such pair.
fn leaf_of(alloc: Global, len: usize) -> Result<Node, Refusal>
    requires some { 1 ≤ len }
    requires few { len ≤ 256 }
{
    let pair = pair_of(alloc, len)?;
    let mut pairs = Items::new(alloc);
    match pairs.push(pair) {
        Ok(()) => Ok(Node::Leaf { pairs }),
        Err(_refused) => Err("memory"),
    }
}

// Whether a view shows one of these leaves in a node.
fn shows<E: LogEye>(view: &mut View<E>, number: u32, leaves: &[Node]) -> bool {
    match view.fetch(NodeId { bucket: 97, number }) {
        Ok((found, _version)) => leaves.contains(&found),
        Err(_fault) => false,
    }
}

// In how many nodes it does, from the first one on, up to 32.
fn count_shown<E: LogEye>(view: &mut View<E>, leaves: &[Node]) -> u32 {
    for number in 1..33 {
        if !shows(view, number, leaves) {
            return number - 1;
        }
    }
    32
}

// So of a room.
fn nodes_with(room: &mut Room<MemDisk>, leaves: &[Node]) -> Result<u32, Refusal>
    requires { room.old.room.board ≡ None ∷ None ∷ None ∷ [] }
{
    match room.view_for(1) {
        Ok(mut view) => Ok(count_shown(&mut view, leaves)),
        Err(_fault) => Err("view"),
    }
}

// How many nodes a room shows with a value of one byte or of 256, from the first one on, up to 32.
fn nodes_of(room: &mut Room<MemDisk>, alloc: Global) -> Result<u32, Refusal>
    requires { room.old.room.board ≡ None ∷ None ∷ None ∷ [] }
{
    let leaves = [leaf_of(alloc, 1)?, leaf_of(alloc, 256)?];
    nodes_with(room, &leaves)
}

// The last epoch of a room, and how many nodes it shows, from the first one on.
fn shown_in(room: &mut Room<MemDisk>, alloc: Global) -> Result<(u64, u32), Refusal>
    requires { room.old.room.board ≡ None ∷ None ∷ None ∷ [] }
{
    let sealed = room.counts().sealed;
    Ok((sealed, nodes_of(room, alloc)?))
}

// So of a log.
fn reopened(alloc: Global, disk: MemDisk) -> Result<(u64, u32), Refusal>
    requires { IsIdle disk.disk }
{
    match open_log(alloc, disk) {
        Ok(mut room) => shown_in(&mut room, alloc),
        Err(_refused) => Err("open"),
    }
}

// So of what such a crash leaves of a room.
pub fn left_by(
    alloc: Global,
    room: Room<MemDisk>,
    byte: u8,
    len: usize,
) -> Result<(u64, u32), Refusal>
    requires board { room.room.board ≡ None ∷ None ∷ None ∷ [] }
    requires job { room.room.job ≡ None }
{
    reopened(alloc, crash(alloc, room, byte, len)?)
}

// What merging three parts answers where the calls fail from a number on, and what a crash then leaves of them.
fn stopped(
    alloc: Global,
    stop: u64,
    byte: u8,
    len: usize,
) -> Result<([Answer; 3], (u64, u32)), Refusal> {
    let mut room = three_parts(alloc, stop_at(alloc, stop))?;
    let answers = merge_thrice(&mut room, alloc);
    Ok((answers, left_by(alloc, room, byte, len)?))
}

// What three merges of three parts answer, where the calls fail from a number on. The first merge takes eleven calls, the second eleven, and
// the third one, for the view's eye.
fn answers_at(stop: u64) -> [Answer; 3] {
    if stop < 24 {
        return [Disk, Shut, Shut];
    }
    if stop < 35 {
        return [Merged, Disk, Shut];
    }
    [Merged, Merged, if stop == 35 { Disk } else { NoneFit }]
}

#[test]
fn a_merge_that_is_stopped_loses_no_row(rt: HostRuntime) {
    // what was not synced is as it was; or each gate that was being written is open, or closed, behind which other bytes stand
    for (byte, len) in [(0, 0), (0xa7, 8192), (0, 8192)] {
        for stop in 13..37 {
            assert_eq!(rt;
                stopped(rt.alloc(), stop, byte, len),
                Ok((answers_at(stop), (3, 24)))
            );
        }
    }
}
