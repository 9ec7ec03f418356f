//! A run of a script, each lane on a thread of its own.

ghost use Rattle.std.specs.Prelude.{◌≡◌, ◌≤◌, ◌+◌, ◌*◌, List, [], length, replicate, true, Some, vec_capacity};
ghost use Rattle.fine_model.specs.declared.Options.{Options as Limits};
ghost use Rattle.fine_model.specs.declared.Outcome.TheVariants as outcome;
ghost use Rattle.fine_model.specs.declared.RunFault.TheVariants as run_fault;
ghost use Rattle.fine_model.specs.declared.ScriptTxn.{ScriptTxn};
ghost use Rattle.fine_model.specs.Bounds.{FitsScript};
ghost use Rattle.epoch_room.specs.Value.{RoomValue};
ghost use Rattle.hall_rooms.specs.Opening.{HandsBack, OpensHall};
ghost use Rattle.hall_rooms.specs.Rooms.{beginning_of};
ghost use Rattle.run_laws.specs.Runs.{IsReady, RunsLanes};
ghost use Rattle.lane_threads.specs.Beginning.{AreNewPasses, BeginsFresh};
ghost use Rattle.lane_threads.specs.Means.{HasMeans};
ghost use Rattle.lane_threads.specs.Resting.{AreAllDone};
ghost use Rattle.lane_threads.specs.Workers.{MayRun};

use crate::closing::{close, of_room, seal_left};
use crate::gathering::gather;
use crate::means::{Means, make_means};
use crate::resting::finish_lanes;
use crate::threads::{Joined, Lists, run_threads};
use epoch_room::{Room, RoomFault};
use fine_model::{Gate, Items, Options, Outcomes, Ran, RunFault, Script};
use hall_rooms::{Opened, RoomHall, open_hall};
use lane_laws::{lanes_law, no_hall_law};
use log_disk::LogDisk;
use partition_hold::View;
use run_laws::{EndedLanes, nothing_law};
use std::alloc::Global;
use std::sync::Wait;
use std::thread::Threads;
use txn_tries::Signals;

/// Whether a fault is want of memory.
fn is_memory(fault: Option<RunFault>) -> bool
    ensures is { result ≡ true → fault ≡ Some run_fault.Memory }
    ensures only { fault ≡ Some run_fault.Memory → result ≡ true }
{
    match fault {
        Some(fault) => match fault {
            RunFault::Memory => true,
            RunFault::Disk => false,
            RunFault::Damaged { what: _ } => false,
        },
        None => false,
    }
}

/// What a run gives for which there was no memory to begin.
fn not_begun<D: LogDisk>(alloc: Global, room: Room<D>) -> (Ran, Room<D>)
    requires ready { IsReady room }
    ensures { (script : List ScriptTxn) (options : Limits) → RunsLanes script options room result.1 result.0 }
{
    nothing_law();
    let durable = room.sealed();
    let ran = Ran {
        outcomes: Items::new(alloc),
        durable,
        fault: Some(RunFault::Memory),
        unsealed: false,
    };
    (ran, room)
}

/// What a run gives for which no hall could be made.
fn no_hall<D: LogDisk>(outcomes: Outcomes, room: Room<D>, fault: RoomFault) -> (Ran, Room<D>)
    ensures { (script : List ScriptTxn) (options : Limits) (old : RoomValue) → IsReady old → HandsBack old room fault → outcomes ≡ replicate (length script) outcome.NotRun → RunsLanes script options old result.1 result.0 }
{
    no_hall_law();
    let durable = room.sealed();
    let ran = Ran {
        outcomes,
        durable,
        fault: Some(of_room(fault)),
        unsealed: false,
    };
    (ran, room)
}

/// Puts the outcomes together, closes the hall, and seals what waits.
fn end_run<D: LogDisk, G: Gate>(
    script: &Script,
    gate: &G,
    _options: &Options,
    seats: u32,
    hall: RoomHall<D>,
    joined: Joined<D>,
    ended: EndedLanes,
    mut outcomes: Outcomes,
    spare: Vec<View<D::Eye>>,
) -> (Ran, Room<D>)
    requires fits { FitsScript script.now }
    requires done { AreAllDone hall script.now _options.now.group joined.first joined.others.items joined.parts.items ended }
    requires none_run { outcomes ≡ replicate (length script.now) outcome.NotRun }
    requires seats { (beginning_of hall).seats ≡ length joined.parts.items + 2 }
    requires room { length joined.parts.items + 2 ≤ vec_capacity joined.others }
    requires spare { (spare.items ≡ []) × (2 * (beginning_of hall).seats ≤ vec_capacity spare) }
    ensures { (old : RoomValue) → IsReady old → OpensHall old (length joined.parts.items + 2) (beginning_of hall) → RunsLanes script.now _options.now old result.1 result.0 }
{
    lanes_law();
    gather(script, joined.parts, &mut outcomes);
    let mut room = close(hall, joined.first, joined.others, spare);
    let last = seal_left(&mut room, gate, seats);
    let ran = Ran {
        outcomes,
        durable: room.sealed(),
        fault: ended.fault_with(last),
        unsealed: is_memory(last),
    };
    (ran, room)
}

/// Runs a script on a hall that was just opened for one seat a lane and two more.
fn run_on<R: Threads + Wait + Sync, D: LogDisk, G: Gate>(
    rt: &R,
    alloc: Global,
    script: &Script,
    gate: &G,
    options: &Options,
    region_len: u64,
    seats: u32,
    means: Means<D>,
    opened: Opened<D>,
) -> (Ran, Room<D>)
    requires may { MayRun opened.hall script.now options.now }
    requires region_len { region_len ≡ (beginning_of opened.hall).room.region_len }
    requires fresh { BeginsFresh (beginning_of opened.hall) }
    requires means { HasMeans script.now means }
    requires passes { AreNewPasses opened.hall opened.passes.items }
    requires count { length opened.passes.items ≡ length means.parts.items + 2 }
    requires seats { (beginning_of opened.hall).seats ≡ length means.parts.items + 2 }
    requires spare { (opened.spare.items ≡ []) × (2 * (beginning_of opened.hall).seats ≤ vec_capacity opened.spare) }
    ensures { (old : RoomValue) → IsReady old → OpensHall old (length means.parts.items + 2) (beginning_of opened.hall) → RunsLanes script.now options.now old result.1 result.0 }
{
    let Opened {
        hall,
        passes,
        spare,
    } = opened;
    let Means {
        outcomes,
        parts,
        workers,
        stopped,
        passes: all,
    } = means;
    let signals = Signals::new(parts.len() as u64);
    let lists = Lists {
        workers,
        stopped,
        passes: all,
    };
    let mut joined = run_threads(
        rt, &hall, script, gate, options, &signals, passes, parts, lists,
    );
    let ended = finish_lanes(
        rt,
        alloc,
        &hall,
        script,
        gate,
        options,
        &signals,
        region_len,
        &mut joined.first,
        joined.others.as_mut_slice(),
        joined.parts.as_mut_slice(),
    );
    end_run(
        script, gate, options, seats, hall, joined, ended, outcomes, spare,
    )
}

/// Runs a script on a room, each lane on a thread of its own; a lane for which no thread can be made is run by the caller.
///
/// A transaction that the script commits is committed at the next place, in the open epoch, or refused. An epoch is sealed once a lane has as many entries in it as a group has,
/// where the rows of a transaction do not fit it any more, and at the end. A fault ends its lane and no other: of want of memory, a failed disk and damage the soonest is told. A lane whose
/// transaction was tried as often as `tries` says is set aside, and the caller runs what the lane has left, after the threads were joined, in ascending order of lanes. Where the log is full then, the caller makes room.
/// All memory but the hall's is taken before the hall is opened. The gate is called as each transaction begins and ends, and after each seal, for the seat of the lane: from 2 on, in the order of
/// the lanes. The last seal is the caller's, behind these.
///
/// On return the room is whole, no view of it is out, and it is a room of the same log at entry. On a sound log that the disk told it stands for all that was committed, and each refusal has
/// its cause. `unsealed` says that memory was wanting for the last seal, so that entries wait which are not durable; else all that was committed is durable, whatever ended the lanes,
/// unless the disk failed on its own. Damage is told on a log alone that is not sound; which place or node is named, no clause says.
pub fn run_lanes<R: Threads + Wait + Sync, D: LogDisk, G: Gate>(
    rt: &R,
    alloc: Global,
    room: Room<D>,
    script: &Script,
    gate: &G,
    options: &Options,
) -> (Ran, Room<D>)
    requires ready { IsReady room }
    requires script { FitsScript script.now }
    requires group { 1 ≤ options.now.group }
    ensures run { RunsLanes script.now options.now room result.1 result.0 }
{
    let Ok(means) = make_means(alloc, script) else {
        return not_begun(alloc, room);
    };
    let region_len = room.region_len();
    let seats = means.parts.len() as u32 + 2;
    match open_hall(alloc, room, seats) {
        Ok(opened) => run_on(
            rt, alloc, script, gate, options, region_len, seats, means, opened,
        ),
        Err(refused) => {
            let (fault, room) = refused;
            no_hall(means.outcomes, room, fault)
        }
    }
}
