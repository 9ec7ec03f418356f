//! Workers at once, each on a thread of its own where one can be made.

ghost use Rattle.std.specs.Prelude.{◌≡◌, ◌<◌, length};
ghost use Rattle.lane_threads.specs.Workers.{CanAllRun, HasStopped, HaveStopped, IsWorker, MayRun};

use crate::worker::Worker;
use fine_model::{Gate, Options, Script};
use hall_rooms::RoomHall;
use lane_runs::run_lane;
use log_disk::LogDisk;
use std::sync::Wait;
use std::thread;
use std::thread::Threads;
use txn_tries::Signals;

/// Runs the lane of one worker, and notes how it came to its end.
fn run_worker<D: LogDisk, G: Gate, W: Wait>(
    rt: &W,
    hall: &RoomHall<D>,
    script: &Script,
    gate: &G,
    options: &Options,
    signals: &Signals,
    worker: &mut Worker<D>,
)
    requires may { MayRun hall.now script.now options.now }
    requires worker { IsWorker hall.now script.now options.now.group worker.old }
    ensures { HasStopped hall.now script.now options.now.group worker.old worker.new }
{
    let part = &mut worker.part;
    part.stop = run_lane(
        rt,
        hall,
        script,
        gate,
        options,
        signals,
        &mut worker.pass,
        &mut part.txn,
        &mut part.lane,
    );
}

/// Runs the lanes of workers that are lent.
fn run_at_once<R: Threads + Wait + Sync, D: LogDisk, G: Gate>(
    rt: &R,
    hall: &RoomHall<D>,
    script: &Script,
    gate: &G,
    options: &Options,
    signals: &Signals,
    workers: &mut [Worker<D>],
)
    requires some { 0 < length workers.old }
    requires may { MayRun hall.now script.now options.now }
    requires workers { CanAllRun hall.now script.now options.now.group workers.old }
    ensures { HaveStopped hall.now script.now options.now.group workers.old workers.new }
{
    let count = workers.len();
    let work = |_at: usize, worker: &mut Worker<D>|
        requires { MayRun hall.now script.now options.now × IsWorker hall.now script.now options.now.group worker.now }
        ensures { HasStopped hall.entry.now script.entry.now options.entry.now.group worker.entry.now worker.exit.now }
    { run_worker(rt, hall, script, gate, options, signals, worker) };
    thread::for_each_mut(rt, workers, count, &work);
}

/// Runs the lanes of all workers at once. A worker for whom no thread can be made is run by the caller.
pub(crate) fn run_all<R: Threads + Wait + Sync, D: LogDisk, G: Gate>(
    rt: &R,
    hall: &RoomHall<D>,
    script: &Script,
    gate: &G,
    options: &Options,
    signals: &Signals,
    mut workers: Vec<Worker<D>>,
) -> Vec<Worker<D>>
    requires may { MayRun hall.now script.now options.now }
    requires workers { CanAllRun hall.now script.now options.now.group workers.items }
    ensures { HaveStopped hall.now script.now options.now.group workers.items result.items }
{
    if workers.is_empty() {
        return workers;
    }
    run_at_once(
        rt,
        hall,
        script,
        gate,
        options,
        signals,
        workers.as_mut_slice(),
    );
    workers
}
