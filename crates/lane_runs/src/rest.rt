//! The rest of a lane that was set aside, by the caller.

ghost use Rattle.std.specs.Prelude.{◌≡◌, ◌≤◌, ◌<◌, length, true};
ghost use mathlib.Core.Option.{some};
ghost use lib.ListN.{get_elem?};
ghost use Rattle.fine_model.specs.Bounds.{FitsScript};
ghost use Rattle.fine_model.specs.RowBytes.{longest_region};
ghost use Rattle.hall_rooms.specs.Rooms.{IsIdle, RoomPass, beginning_of};
ghost use Rattle.txn_engine.specs.Txns.{IsBlankTxn};
ghost use Rattle.lane_runs.specs.Rest.{AreOthers, IsAside, IsFirst, RunsRest};
ghost use Rattle.lane_runs.specs.Resting.{FullSoFar, GoesOnFor, RefusesNext};
ghost use Rattle.lane_runs.specs.Steps.{IsNextOf, MetFull, StandsNext};

use crate::faults::{fault_of, is_stuck};
use crate::lane::Lane;
use crate::step::{Went, take_end, take_turn};
use fine_hall::Pass;
use fine_model::{Gate, Options, Outcome, Point, Script, Why};
use hall_rooms::{RoomHall, try_room};
use log_disk::LogDisk;
use partition_hold::View;
use std::alloc::Global;
use std::sync::Wait;
use txn_engine::Txn;
use txn_tries::{Signals, Tries, run_on_full};

/// One try of the next transaction of a lane. A bucket that is found held counts nothing after the threads were joined.
fn one_try(lane: &Lane) -> Tries {
    Tries {
        left: 1,
        is_begun: lane.is_begun(),
    }
}

/// Makes room in a full log for the next transaction of a lane, which stands at a place of the script, from 0. Where the log is stuck the transaction is refused, and the answer is true. A fault ends the
/// lane.
fn seek_room<D: LogDisk, G: Gate, W: Wait>(
    rt: &W,
    alloc: Global,
    hall: &RoomHall<D>,
    script: &Script,
    gate: &G,
    options: &Options,
    first: &mut Pass<View<D::Eye>>,
    others: &mut [Pass<View<D::Eye>>],
    at: usize,
    lane: &mut Lane,
    place: u32,
) -> bool
    requires first { IsFirst hall.now first.old }
    requires others { AreOthers hall.now others.old }
    requires at { at < length others.old }
    requires script { FitsScript script.now }
    requires group { 1 ≤ options.now.group }
    requires next { IsNextOf script.now lane.old place }
    requires full { (own : RoomPass) → get_elem? others.old at ≡ some own → MetFull (beginning_of hall.now) script.now place own }
    ensures rest { GoesOnFor hall.now script.now options.now.group at first.old first.new others.old others.new lane.old lane.new }
    ensures full { FullSoFar result (beginning_of hall.now) first.new lane.new }
    ensures same { lane.new.lane ≡ lane.old.lane }
{
    let who = others[at].number();
    match try_room(rt, alloc, hall, first, others, 0) {
        Ok(space) => {
            if !is_stuck(space) {
                return false;
            }
            lane.finish(Outcome::Refused { why: Why::Full });
            gate.at(who, Point::TxnEnd { turn: place + 1 });
            true
        }
        Err(fault) => {
            lane.end(fault_of(fault));
            gate.at(who, Point::TxnEnd { turn: place + 1 });
            false
        }
    }
}

/// Tries the next transaction of a lane, and makes room where the log is full. Where it is stuck the transaction is refused, and the answer is true.
fn try_rest<D: LogDisk, G: Gate, W: Wait>(
    rt: &W,
    alloc: Global,
    hall: &RoomHall<D>,
    script: &Script,
    gate: &G,
    options: &Options,
    signals: &Signals,
    first: &mut Pass<View<D::Eye>>,
    others: &mut [Pass<View<D::Eye>>],
    at: usize,
    txn: &mut Txn,
    lane: &mut Lane,
    place: u32,
) -> bool
    requires first { IsFirst hall.now first.old }
    requires others { AreOthers hall.now others.old }
    requires at { at < length others.old }
    requires script { FitsScript script.now }
    requires group { 1 ≤ options.now.group }
    requires region { (beginning_of hall.now).room.region_len ≤ longest_region }
    requires next { IsNextOf script.now lane.old place }
    requires blank { IsBlankTxn txn.old }
    ensures rest { GoesOnFor hall.now script.now options.now.group at first.old first.new others.old others.new lane.old lane.new }
    ensures full { FullSoFar result (beginning_of hall.now) first.new lane.new }
    ensures blank { IsBlankTxn txn.new }
    ensures same { lane.new.lane ≡ lane.old.lane }
{
    let mut tries = one_try(lane);
    let went = take_turn(
        rt,
        hall,
        script,
        gate,
        options,
        signals,
        &mut others[at],
        txn,
        lane,
        place,
        &mut tries,
    );
    match went {
        Went::On => false,
        Went::Tried => {
            lane.note_begun(tries.is_begun);
            false
        }
        Went::Full => {
            lane.note_begun(tries.is_begun);
            seek_room(
                rt, alloc, hall, script, gate, options, first, others, at, lane, place,
            )
        }
    }
}

/// Refuses the next transaction of a lane by a pass, where the log is known to be full, or aborts it as the script has it.
fn refuse_turn<D: LogDisk, G: Gate>(
    hall: &RoomHall<D>,
    script: &Script,
    gate: &G,
    options: &Options,
    pass: &mut Pass<View<D::Eye>>,
    txn: &mut Txn,
    lane: &mut Lane,
    place: u32,
    region_len: u64,
)
    requires idle { IsIdle hall.now pass.old }
    requires script { FitsScript script.now }
    requires group { 1 ≤ options.now.group }
    requires next { StandsNext script.now lane.old place }
    requires blank { IsBlankTxn txn.old }
    requires region_len { region_len ≡ (beginning_of hall.now).room.region_len }
    ensures idle { IsIdle hall.now pass.new × (pass.new.number ≡ pass.old.number) }
    ensures refuses { RefusesNext (beginning_of hall.now) script.now options.now.group pass.old pass.new lane.old lane.new }
    ensures blank { IsBlankTxn txn.new }
    ensures same { lane.new.lane ≡ lane.old.lane }
{
    let mut tries = one_try(lane);
    let end = run_on_full(
        hall,
        pass,
        txn,
        script.at(place as usize),
        place + 1,
        gate,
        options,
        region_len,
        &mut tries,
    );
    match take_end(lane, end) {
        Went::On => {}
        Went::Tried => lane.note_begun(tries.is_begun),
        Went::Full => {}
    }
}

/// So it is by the lane's own pass.
fn refuse_next<D: LogDisk, G: Gate>(
    hall: &RoomHall<D>,
    script: &Script,
    gate: &G,
    options: &Options,
    first: &Pass<View<D::Eye>>,
    others: &mut [Pass<View<D::Eye>>],
    at: usize,
    txn: &mut Txn,
    lane: &mut Lane,
    place: u32,
    region_len: u64,
)
    requires others { AreOthers hall.now others.old }
    requires at { at < length others.old }
    requires script { FitsScript script.now }
    requires group { 1 ≤ options.now.group }
    requires next { StandsNext script.now lane.old place }
    requires full { FullSoFar true (beginning_of hall.now) first.now lane.old }
    requires blank { IsBlankTxn txn.old }
    requires region_len { region_len ≡ (beginning_of hall.now).room.region_len }
    ensures rest { GoesOnFor hall.now script.now options.now.group at first.now first.now others.old others.new lane.old lane.new }
    ensures full { FullSoFar true (beginning_of hall.now) first.now lane.new }
    ensures blank { IsBlankTxn txn.new }
    ensures same { lane.new.lane ≡ lane.old.lane }
{
    refuse_turn(
        hall,
        script,
        gate,
        options,
        &mut others[at],
        txn,
        lane,
        place,
        region_len,
    );
}

/// Runs what a lane that was set aside has left, after the threads were joined: `others` are the passes of lanes in their order, `at` is the place of the lane's own, and `first` is the pass of the seat 1.
/// `region_len` is the length of a region, in bytes.
///
/// A transaction for which the log is full is tried again after room was made, as often as some was found. Once the log is stuck the transaction is refused, and the lane's others, which the script commits, are refused
/// too: nothing more is committed. A fault ends the lane, and what was committed before stays. The pass of the seat 1 adds nothing and seals nothing, and each other pass looks at its mailbox at most. It waits for the
/// room.
pub fn run_rest<D: LogDisk, G: Gate, W: Wait>(
    rt: &W,
    alloc: Global,
    hall: &RoomHall<D>,
    script: &Script,
    gate: &G,
    options: &Options,
    signals: &Signals,
    first: &mut Pass<View<D::Eye>>,
    others: &mut [Pass<View<D::Eye>>],
    at: usize,
    txn: &mut Txn,
    lane: &mut Lane,
    region_len: u64,
)
    requires first { IsFirst hall.now first.old }
    requires others { AreOthers hall.now others.old }
    requires lane { (own : RoomPass) × (get_elem? others.old at ≡ some own) × IsAside (beginning_of hall.now) first.old script.now options.now.group own lane.old }
    requires script { FitsScript script.now }
    requires group { 1 ≤ options.now.group }
    requires region { (beginning_of hall.now).room.region_len ≤ longest_region }
    requires blank { IsBlankTxn txn.old }
    requires region_len { region_len ≡ (beginning_of hall.now).room.region_len }
    ensures rest { RunsRest hall.now script.now options.now.group at first.old first.new others.old others.new lane.new }
    ensures blank { IsBlankTxn txn.new }
    ensures same { lane.new.lane ≡ lane.old.lane }
{
    let mut is_full = false;
    for _ in rt.forever() {
        if lane.ended().is_some() {
            return;
        }
        let Some(place) = lane.next() else {
            return;
        };
        if is_full {
            refuse_next(
                hall, script, gate, options, first, others, at, txn, lane, place, region_len,
            );
        } else {
            is_full = try_rest(
                rt, alloc, hall, script, gate, options, signals, first, others, at, txn, lane,
                place,
            );
        }
    }
    unreachable!()
}
