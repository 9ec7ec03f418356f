//! The threads of a run: how they begin, and what is left after they were joined.

ghost use Rattle.std.specs.Prelude.{◌≡◌, ◌≤◌, ◌+◌, [], length, vec_capacity};
ghost use Rattle.hall_rooms.specs.Rooms.{beginning_of};
ghost use Rattle.lane_threads.specs.Beginning.{AreNewPasses, BeginsFresh};
ghost use Rattle.lane_threads.specs.Means.{AreNewParts};
ghost use Rattle.lane_threads.specs.Resting.{AreJoined};
ghost use Rattle.lane_threads.specs.Workers.{MayRun};

use crate::at_once::run_all;
use crate::beginning::{give_passes, take_back};
use crate::worker::{Part, Worker};
use fine_hall::Pass;
use fine_model::{Gate, Options, Script};
use hall_rooms::RoomHall;
use log_disk::LogDisk;
use partition_hold::View;
use std::sync::Wait;
use std::thread::Threads;
use txn_tries::Signals;

/// What is left after the threads were joined: the pass of the seat 1, those of the lanes in their order and behind them that of the caller, and the parts of the lanes.
#[derive(Drop)]
pub(crate) struct Joined<D: LogDisk> {
    pub(crate) first: Pass<View<D::Eye>>,
    pub(crate) others: Vec<Pass<View<D::Eye>>>,
    pub(crate) parts: Vec<Part>,
}

/// The lists that take what comes back: workers, their parts, and all passes. They are empty.
#[derive(Drop)]
pub(crate) struct Lists<D: LogDisk> {
    pub(crate) workers: Vec<Worker<D>>,
    pub(crate) stopped: Vec<Part>,
    pub(crate) passes: Vec<Pass<View<D::Eye>>>,
}

/// Runs each part on a thread of its own, and joins the threads. The passes are those of a new hall, from the greatest number down.
pub(crate) fn run_threads<R: Threads + Wait + Sync, D: LogDisk, G: Gate>(
    rt: &R,
    hall: &RoomHall<D>,
    script: &Script,
    gate: &G,
    options: &Options,
    signals: &Signals,
    passes: Vec<Pass<View<D::Eye>>>,
    parts: Vec<Part>,
    lists: Lists<D>,
) -> Joined<D>
    requires may { MayRun hall.now script.now options.now }
    requires fresh { BeginsFresh (beginning_of hall.now) }
    requires passes { AreNewPasses hall.now passes.items }
    requires count { length passes.items ≡ length parts.items + 2 }
    requires parts { AreNewParts script.now parts.items }
    requires workers { (lists.workers.items ≡ []) × (length parts.items ≤ vec_capacity lists.workers) }
    requires stopped { (lists.stopped.items ≡ []) × (length parts.items ≤ vec_capacity lists.stopped) }
    requires others { (lists.passes.items ≡ []) × (length parts.items + 2 ≤ vec_capacity lists.passes) }
    ensures joined { AreJoined hall.now script.now options.now.group result.first result.others.items result.parts.items }
    ensures count { length result.parts.items ≡ length parts.items }
    ensures capacity { length parts.items + 2 ≤ vec_capacity result.others }
{
    let Lists {
        workers,
        mut stopped,
        passes: mut others,
    } = lists;
    let seated = give_passes(hall, passes, parts, workers);
    let workers = run_all(rt, hall, script, gate, options, signals, seated.workers);
    take_back(workers, &mut others, &mut stopped);
    others.push_reserved(seated.last);
    Joined {
        first: seated.first,
        others,
        parts: stopped,
    }
}
