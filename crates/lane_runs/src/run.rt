//! A lane on its own thread.

ghost use Rattle.std.specs.Prelude.{◌≡◌, ◌≤◌, true};
ghost use Rattle.fine_model.specs.Bounds.{FitsScript};
ghost use Rattle.fine_model.specs.RowBytes.{longest_region};
ghost use Rattle.hall_rooms.specs.Rooms.{beginning_of};
ghost use Rattle.lane_laws.specs.Lanes.{HasFull, LaneEnds, LaneSoFar};
ghost use Rattle.txn_engine.specs.Txns.{IsBlankTxn};
ghost use Rattle.lane_runs.specs.Lane.{is_aside};
ghost use Rattle.lane_runs.specs.Steps.{IsNextOf};

use crate::lane::Lane;
use crate::step::{Went, take_turn};
use fine_hall::Pass;
use fine_model::{Gate, Options, Script};
use hall_rooms::RoomHall;
use log_disk::LogDisk;
use partition_hold::View;
use std::sync::Wait;
use txn_engine::Txn;
use txn_tries::{Signals, Tries};

/// How a worker came to its end.
#[derive(Clone, Copy, Debug, PartialEq, Eq)]
pub enum Stop {
    /// All transactions of its lane were run, or the lane has ended.
    Done,
    /// A transaction was refused too often, and is left with those after it.
    Aside,
}

/// Tries the next transaction of a lane until the lane goes on, or no try is left: then the answer is false.
fn try_next<D: LogDisk, G: Gate, W: Wait>(
    rt: &W,
    hall: &RoomHall<D>,
    script: &Script,
    gate: &G,
    options: &Options,
    signals: &Signals,
    pass: &mut Pass<View<D::Eye>>,
    txn: &mut Txn,
    lane: &mut Lane,
    at: u32,
) -> bool
    requires so_far { LaneSoFar hall.now script.now options.now.group pass.old lane.old }
    requires next { IsNextOf script.now lane.old at }
    requires region { (beginning_of hall.now).room.region_len ≤ longest_region }
    requires script { FitsScript script.now }
    requires group { 1 ≤ options.now.group }
    requires blank { IsBlankTxn txn.old }
    ensures so_far { LaneSoFar hall.now script.now options.now.group pass.new lane.new }
    ensures none_full { HasFull lane.new → ⊥ }
    ensures number { pass.new.number ≡ pass.old.number }
    ensures blank { IsBlankTxn txn.new }
    ensures same { lane.new.lane ≡ lane.old.lane }
{
    let mut tries = Tries {
        left: options.tries,
        is_begun: lane.is_begun(),
    };
    for _ in rt.forever() {
        match take_turn(
            rt, hall, script, gate, options, signals, pass, txn, lane, at, &mut tries,
        ) {
            Went::On => return true,
            Went::Tried => {
                lane.note_begun(tries.is_begun);
                return false;
            }
            Went::Full => {
                if tries.left == 0 {
                    lane.note_begun(tries.is_begun);
                    return false;
                }
                signals.wait_at_full(rt);
            }
        }
    }
    unreachable!()
}

/// Runs the transactions of a lane, one after another, until none is left, a fault has ended the lane, or it is set aside.
fn run_all<D: LogDisk, G: Gate, W: Wait>(
    rt: &W,
    hall: &RoomHall<D>,
    script: &Script,
    gate: &G,
    options: &Options,
    signals: &Signals,
    pass: &mut Pass<View<D::Eye>>,
    txn: &mut Txn,
    lane: &mut Lane,
) -> Stop
    requires so_far { LaneSoFar hall.now script.now options.now.group pass.old lane.old }
    requires none_full { HasFull lane.old → ⊥ }
    requires region { (beginning_of hall.now).room.region_len ≤ longest_region }
    requires script { FitsScript script.now }
    requires group { 1 ≤ options.now.group }
    requires blank { IsBlankTxn txn.old }
    ensures ends { LaneEnds hall.now script.now options.now.group pass.new lane.new (is_aside result) }
    ensures none_full { HasFull lane.new → ⊥ }
    ensures number { pass.new.number ≡ pass.old.number }
    ensures blank { IsBlankTxn txn.new }
    ensures same { lane.new.lane ≡ lane.old.lane }
{
    for _ in rt.forever() {
        if lane.ended().is_some() {
            return Stop::Done;
        }
        let Some(at) = lane.next() else {
            return Stop::Done;
        };
        if !try_next(
            rt, hall, script, gate, options, signals, pass, txn, lane, at,
        ) {
            return Stop::Aside;
        }
    }
    unreachable!()
}

/// Runs the transactions of a lane on its thread, one after another, until none is left, a fault has ended the lane, or it is set aside: where the tries of a transaction are used up, this one and those after it
/// are left to the caller.
///
/// Each outcome is that of its transaction, by what the pass saw. Each commit has its place in the history, and each refusal its cause; none is a refusal for a full log. A fault ends the lane, and what
/// was committed before stays. It waits for the room, and for news where the log is full.
pub fn run_lane<D: LogDisk, G: Gate, W: Wait>(
    rt: &W,
    hall: &RoomHall<D>,
    script: &Script,
    gate: &G,
    options: &Options,
    signals: &Signals,
    pass: &mut Pass<View<D::Eye>>,
    txn: &mut Txn,
    lane: &mut Lane,
) -> Stop
    requires so_far { LaneSoFar hall.now script.now options.now.group pass.old lane.old }
    requires none_full { HasFull lane.old → ⊥ }
    requires region { (beginning_of hall.now).room.region_len ≤ longest_region }
    requires script { FitsScript script.now }
    requires group { 1 ≤ options.now.group }
    requires blank { IsBlankTxn txn.old }
    ensures ends { LaneEnds hall.now script.now options.now.group pass.new lane.new (is_aside result) }
    ensures none_full { HasFull lane.new → ⊥ }
    ensures number { pass.new.number ≡ pass.old.number }
    ensures blank { IsBlankTxn txn.new }
    ensures same { lane.new.lane ≡ lane.old.lane }
{
    signals.part_begins();
    let stop = run_all(rt, hall, script, gate, options, signals, pass, txn, lane);
    signals.part_ends();
    stop
}
