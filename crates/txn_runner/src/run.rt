//! The run of a script: its transactions, one after another.

ghost use Rattle.std.specs.Prelude.{◌≡◌, ◌≤◌, List, length, None, replicate, IfOk};
ghost use Rattle.fine_model.specs.declared.Options.{Options as Limits};
ghost use Rattle.fine_model.specs.declared.Outcome.TheVariants as outcome;
ghost use Rattle.fine_model.specs.declared.ScriptTxn.{ScriptTxn};
ghost use Rattle.fine_model.specs.Bounds.{FitsScript};
ghost use Rattle.epoch_room.specs.Value.{RoomValue};
ghost use Rattle.open_txn.specs.Buckets.{BucketsValue};
ghost use Rattle.room_shelf.specs.Shelves.{IsShelf};
ghost use Rattle.run_laws.specs.Runs.{IsReady, RunsLanes};
ghost use Rattle.txn_runner.specs.Body.{RunsSoFar, body};

use crate::faults::is_memory;
use crate::runner::Runner;
use crate::seats::{SeatGate, Seats};
use epoch_room::Room;
use fine_model::{Gate, Items, NoMemory, Options, Outcome, Outcomes, Ran, RunFault, Script};
use log_disk::LogDisk;
use open_txn::Buckets;
use run_laws::EndedLanes;
use std::alloc::Global;

/// The outcomes of transactions of which none was run yet.
fn none_run(alloc: Global, count: usize) -> Result<Outcomes, NoMemory>
    ensures { IfOk result (λ outcomes. outcomes ≡ replicate count outcome.NotRun) }
{
    let mut outcomes = Items::new(alloc);
    for _ in 0..count {
        outcomes.push(Outcome::NotRun)?;
    }
    Ok(outcomes)
}

/// What a run gives for which there was no memory to begin.
fn not_begun<D: LogDisk>(alloc: Global, room: Room<D>) -> (Ran, Room<D>)
    requires ready { IsReady room }
    ensures { (script : List ScriptTxn) (options : Limits) → RunsLanes script options room result.1 result.0 }
{
    let durable = room.sealed();
    let ran = Ran {
        outcomes: Items::new(alloc),
        durable,
        fault: Some(RunFault::Memory),
        unsealed: false,
    };
    (ran, room)
}

/// Runs the transactions in the order of the script, each lane up to its first fault.
fn run_txns<D: LogDisk, G: Gate>(
    alloc: Global,
    runner: &mut Runner<D>,
    buckets: &mut Buckets,
    script: &Script,
    gate: &G,
    seats: Seats,
    options: &Options,
    outcomes: &mut Outcomes,
)
    requires ready { IsReady runner.old.room }
    requires script { FitsScript script.now }
    requires group { 1 ≤ options.now.group }
    requires begins { RunsSoFar script.now options.now 0 runner.old.room (body runner.old buckets.old) outcomes.old }
    ensures { RunsSoFar script.now options.now (length script.now) runner.old.room (body runner.new buckets.new) outcomes.new }
{
    for i in 0..script.len() {
        let txn = script.at(i);
        let own = SeatGate::new(gate, seats.of_lane(txn.lane));
        let outcome = runner.run_txn(alloc, buckets, &own, options, i as u32 + 1, txn);
        outcomes.replace(i, outcome);
    }
}

/// What a run gives behind its last transaction: the view is taken back, and what waits is sealed.
fn finish<D: LogDisk, G: Gate>(
    mut runner: Runner<D>,
    gate: &SeatGate<G>,
    outcomes: Outcomes,
) -> (Ran, Room<D>)
    requires shelf { IsShelf runner.room.room runner.view }
    requires no_job { runner.room.room.job ≡ None }
    ensures { (script : List ScriptTxn) (options : Limits) (entry : RoomValue) (buckets : BucketsValue) → IsReady entry → RunsSoFar script options (length script) entry (body runner buckets) outcomes → RunsLanes script options entry result.1 result.0 }
{
    let last = runner.close(gate);
    let unsealed = is_memory(last);
    let ran = Ran {
        outcomes,
        durable: runner.room.sealed(),
        fault: runner.ended.fault_with(last),
        unsealed,
    };
    (ran, runner.room)
}

/// Runs a script on a room, on one thread: the transactions in the order of the script, each lane up to its first fault.
///
/// A transaction that the script commits is committed at the next place, in the open epoch, or refused. An epoch is sealed once as many entries wait as a group has, where
/// the rows of a transaction do not fit it any more, and at the end. A fault ends its lane: of want of memory, a failed disk and damage the soonest is told. The gate is called as
/// each transaction of a lane that goes on begins and ends, and behind each seal, for the seat that the lane has where each runs on a thread of its own: from 2 on, in the order of the lanes. The last seal
/// is the caller's, behind these. No point of a merge is called. `tries` is not used on one thread.
///
/// On return the room is whole, no view of it is out, and it is a room of the same log at entry. On a sound log that the disk told it stands for all that was committed, and each refusal has
/// its cause. `unsealed` says that memory was wanting for the last seal, so that entries wait which are not durable; else all that was committed is durable, whatever ended the lanes,
/// unless the disk failed on its own. Damage is told on a log alone that is not sound; which place or node is named, no clause says.
pub fn run_lanes<D: LogDisk, G: Gate>(
    alloc: Global,
    room: Room<D>,
    script: &Script,
    gate: &G,
    options: &Options,
) -> (Ran, Room<D>)
    requires ready { IsReady room }
    requires script { FitsScript script.now }
    requires group { 1 ≤ options.now.group }
    ensures run { RunsLanes script.now options.now room result.1 result.0 }
{
    let (ran, room, _cached) = run_cached(alloc, room, script, gate, options);
    (ran, room)
}

/// Runs a script on a room as `run_lanes` does, and hands out the buckets with the nodes that the run cached, unless there was no memory to begin. They serve no later call: a program that ends behind the run may leave them in memory, which
/// `run_lanes` gives back block by block.
pub fn run_cached<D: LogDisk, G: Gate>(
    alloc: Global,
    room: Room<D>,
    script: &Script,
    gate: &G,
    options: &Options,
) -> (Ran, Room<D>, Option<Buckets>)
    requires ready { IsReady room }
    requires script { FitsScript script.now }
    requires group { 1 ≤ options.now.group }
    ensures run { RunsLanes script.now options.now room result.1 result.0 }
{
    let Ok(mut outcomes) = none_run(alloc, script.len()) else {
        let (ran, room) = not_begun(alloc, room);
        return (ran, room, None);
    };
    let Ok(mut buckets) = Buckets::new(alloc) else {
        let (ran, room) = not_begun(alloc, room);
        return (ran, room, None);
    };
    let mut runner = Runner {
        room,
        view: None,
        full: false,
        ended: EndedLanes::none(),
    };
    let seats = Seats::of_script(script);
    run_txns(
        alloc,
        &mut runner,
        &mut buckets,
        script,
        gate,
        seats,
        options,
        &mut outcomes,
    );
    let last = SeatGate::new(gate, seats.of_caller());
    let (ran, room) = finish(runner, &last, outcomes);
    (ran, room, Some(buckets))
}
