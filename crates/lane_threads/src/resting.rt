//! What the caller does for lanes after their threads were joined.

ghost use Rattle.std.specs.Prelude.{◌≡◌, ◌<◌, ◌≤◌, ◌+◌, length, true, false};
ghost use Rattle.hall_rooms.specs.Rooms.{beginning_of};
ghost use Rattle.lane_threads.specs.Resting.{AreAllDone, AreJoined, AreLanes, EndedSoFar, RestedSoFar};
ghost use Rattle.lane_threads.specs.Workers.{MayRun};

use crate::worker::Part;
use fine_hall::Pass;
use fine_model::{Gate, Options, Script};
use hall_rooms::RoomHall;
use lane_runs::{Stop, run_rest};
use log_disk::LogDisk;
use partition_hold::View;
use run_laws::EndedLanes;
use std::alloc::Global;
use std::sync::Wait;
use txn_tries::Signals;

/// Runs what the part at a place has left, where it was set aside and no fault ended it.
fn finish_part<D: LogDisk, G: Gate, W: Wait>(
    rt: &W,
    alloc: Global,
    hall: &RoomHall<D>,
    script: &Script,
    gate: &G,
    options: &Options,
    signals: &Signals,
    region_len: u64,
    first: &mut Pass<View<D::Eye>>,
    others: &mut [Pass<View<D::Eye>>],
    parts: &mut [Part],
    at: usize,
)
    requires may { MayRun hall.now script.now options.now }
    requires region_len { region_len ≡ (beginning_of hall.now).room.region_len }
    requires at { at < length parts.old }
    requires so_far { RestedSoFar hall.now script.now options.now.group at first.old others.old parts.old }
    ensures { RestedSoFar hall.now script.now options.now.group (at + 1) first.new others.new parts.new }
{
    let part = &mut parts[at];
    if part.lane.ended().is_some() {
        return;
    }
    match part.stop {
        Stop::Done => {}
        Stop::Aside => run_rest(
            rt,
            alloc,
            hall,
            script,
            gate,
            options,
            signals,
            first,
            others,
            at,
            &mut part.txn,
            &mut part.lane,
            region_len,
        ),
    }
}

/// Runs what lanes that were set aside have left, in ascending order.
fn finish_parts<D: LogDisk, G: Gate, W: Wait>(
    rt: &W,
    alloc: Global,
    hall: &RoomHall<D>,
    script: &Script,
    gate: &G,
    options: &Options,
    signals: &Signals,
    region_len: u64,
    first: &mut Pass<View<D::Eye>>,
    others: &mut [Pass<View<D::Eye>>],
    parts: &mut [Part],
)
    requires may { MayRun hall.now script.now options.now }
    requires region_len { region_len ≡ (beginning_of hall.now).room.region_len }
    requires joined { AreJoined hall.now script.now options.now.group first.old others.old parts.old }
    ensures { RestedSoFar hall.now script.now options.now.group (length parts.new) first.new others.new parts.new }
{
    for at in 0..parts.len() {
        finish_part(
            rt, alloc, hall, script, gate, options, signals, region_len, first, others, parts, at,
        );
    }
}

/// The faults that ended lanes.
fn ended_of(parts: &[Part]) -> EndedLanes
    requires { AreLanes parts.now }
    ensures { EndedSoFar (length parts.now) parts.now result }
{
    let mut ended = EndedLanes::none();
    for k in 0..parts.len() {
        let lane = &parts[k].lane;
        if let Some(fault) = lane.ended() {
            ended.end(lane.lane(), fault);
        }
    }
    ended
}

/// Runs what lanes that were set aside have left, in ascending order, and answers which lanes have ended, and by which faults.
pub(crate) fn finish_lanes<D: LogDisk, G: Gate, W: Wait>(
    rt: &W,
    alloc: Global,
    hall: &RoomHall<D>,
    script: &Script,
    gate: &G,
    options: &Options,
    signals: &Signals,
    region_len: u64,
    first: &mut Pass<View<D::Eye>>,
    others: &mut [Pass<View<D::Eye>>],
    parts: &mut [Part],
) -> EndedLanes
    requires may { MayRun hall.now script.now options.now }
    requires region_len { region_len ≡ (beginning_of hall.now).room.region_len }
    requires joined { AreJoined hall.now script.now options.now.group first.old others.old parts.old }
    ensures { AreAllDone hall.now script.now options.now.group first.new others.new parts.new result }
{
    finish_parts(
        rt, alloc, hall, script, gate, options, signals, region_len, first, others, parts,
    );
    ended_of(parts)
}
