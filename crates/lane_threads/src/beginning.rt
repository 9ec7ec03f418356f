//! How passes come to the parts of lanes, and back.

ghost use Rattle.std.specs.Prelude.{◌≡◌, ◌≤◌, ◌+◌, [], ◌++◌, length, map, vec_capacity};
ghost use Rattle.lane_threads.specs.Beginning.{AreNewPasses, GetPasses, IsNewPass};
ghost use Rattle.lane_threads.specs.declared.worker.Worker.{Worker as HasWorker};

use crate::worker::{Part, Worker};
use fine_hall::Pass;
use hall_rooms::RoomHall;
use log_disk::LogDisk;
use partition_hold::View;

/// The passes of a new hall: that of the seat 1, those of the lanes with their parts, and that of the caller.
#[derive(Drop)]
pub(crate) struct Seated<D: LogDisk> {
    pub(crate) first: Pass<View<D::Eye>>,
    pub(crate) workers: Vec<Worker<D>>,
    pub(crate) last: Pass<View<D::Eye>>,
}

/// Gives the passes of the seats from 2 on to the parts in their order, which go into an empty list. The passes come from the greatest number down, one for each part and two more.
pub(crate) fn give_passes<D: LogDisk>(
    hall: &RoomHall<D>,
    mut passes: Vec<Pass<View<D::Eye>>>,
    parts: Vec<Part>,
    mut workers: Vec<Worker<D>>,
) -> Seated<D>
    requires passes { AreNewPasses hall.now passes.items }
    requires count { length passes.items ≡ length parts.items + 2 }
    requires room { (workers.items ≡ []) × (length parts.items ≤ vec_capacity workers) }
    ensures first { IsNewPass hall.now 1 result.first }
    ensures workers { GetPasses hall.now parts.items result.workers.items }
    ensures last { IsNewPass hall.now (length parts.items + 2) result.last }
{
    let Some(first) = passes.pop() else {
        unreachable!()
    };
    for part in parts {
        let Some(pass) = passes.pop() else {
            unreachable!()
        };
        workers.push_reserved(Worker { pass, part });
    }
    let Some(last) = passes.pop() else {
        unreachable!()
    };
    Seated {
        first,
        workers,
        last,
    }
}

/// Takes the passes of workers back, and their parts, both in the order of the workers.
pub(crate) fn take_back<D: LogDisk>(
    workers: Vec<Worker<D>>,
    passes: &mut Vec<Pass<View<D::Eye>>>,
    parts: &mut Vec<Part>,
)
    requires passes { (passes.old.items ≡ []) × (length workers.items ≤ vec_capacity passes.old) }
    requires parts { (parts.old.items ≡ []) × (length workers.items ≤ vec_capacity parts.old) }
    ensures passes { passes.new.items ≡ map (λ (w : HasWorker _ _). w.pass) workers.items }
    ensures parts { parts.new.items ≡ map (λ (w : HasWorker _ _). w.part) workers.items }
    ensures capacity { vec_capacity passes.new ≡ vec_capacity passes.old }
{
    for worker in workers {
        let Worker { pass, part } = worker;
        passes.push_reserved(pass);
        parts.push_reserved(part);
    }
}
