//! All memory of a run but that of its hall.

ghost use Rattle.std.specs.Prelude.{◌≡◌, ◌≤◌, length, replicate, IfOk};
ghost use Rattle.fine_model.specs.declared.Outcome.TheVariants as outcome;
ghost use Rattle.lane_threads.specs.Means.{AreNewParts, HasMeans, IsNewPart, names};

use crate::worker::{Part, Worker};
use fine_hall::Pass;
use fine_model::{Items, NoMemory, Outcome, Outcomes, Script};
use lane_runs::{Lane, Stop};
use log_disk::LogDisk;
use partition_hold::View;
use std::alloc::Global;
use txn_engine::Txn;

/// What a run takes before its hall is opened: an outcome for each transaction, the part of each lane, and lists with room for workers, for what comes back
/// of them, and for all passes.
#[derive(Drop)]
pub(crate) struct Means<D: LogDisk> {
    pub(crate) outcomes: Outcomes,
    pub(crate) parts: Vec<Part>,
    pub(crate) workers: Vec<Worker<D>>,
    pub(crate) stopped: Vec<Part>,
    pub(crate) passes: Vec<Pass<View<D::Eye>>>,
}

/// The outcomes of transactions of which none was run yet.
pub(crate) fn none_run(alloc: Global, count: usize) -> Result<Outcomes, NoMemory>
    ensures { IfOk result (λ outcomes. outcomes ≡ replicate count outcome.NotRun) }
{
    let mut outcomes = Items::new(alloc);
    for _ in 0..count {
        outcomes.push(Outcome::NotRun)?;
    }
    Ok(outcomes)
}

/// Whether a script has a transaction of a lane.
fn has_lane(script: &Script, lane: u8) -> bool
    ensures { result ≡ names script.now lane }
{
    script.as_slice().iter().any(|txn| txn.lane == lane)
}

/// The part of a lane, of which nothing was run.
fn make_part(alloc: Global, script: &Script, lane: u8) -> Result<Part, NoMemory>
    requires few { length script.now ≤ 100000 }
    ensures { IfOk result (IsNewPart script.now lane) }
{
    Ok(Part {
        lane: Lane::of_script(alloc, script, lane)?,
        txn: Txn::new(alloc, lane, 1)?,
        stop: Stop::Done,
    })
}

/// The parts of all lanes of a script, in ascending order.
fn make_parts(alloc: Global, script: &Script) -> Result<Vec<Part>, NoMemory>
    requires few { length script.now ≤ 100000 }
    ensures { IfOk result (λ parts. AreNewParts script.now parts.items) }
{
    let mut parts = Vec::new(alloc);
    for lane in 1..17 {
        if has_lane(script, lane) {
            parts.push(make_part(alloc, script, lane)?)?;
        }
    }
    Ok(parts)
}

/// All memory of a run of a script but that of its hall.
pub(crate) fn make_means<D: LogDisk>(alloc: Global, script: &Script) -> Result<Means<D>, NoMemory>
    requires few { length script.now ≤ 100000 }
    ensures { IfOk result (HasMeans script.now) }
{
    let outcomes = none_run(alloc, script.len())?;
    let parts = make_parts(alloc, script)?;
    let lanes = parts.len();
    Ok(Means {
        outcomes,
        parts,
        workers: Vec::with_capacity(alloc, lanes)?,
        stopped: Vec::with_capacity(alloc, lanes)?,
        passes: Vec::with_capacity(alloc, lanes + 2)?,
    })
}
