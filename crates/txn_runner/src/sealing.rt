//! The seal of a group of entries, and that of the last ones.

ghost use Rattle.std.specs.Prelude.{◌≡◌, ◌≤◌, None};
ghost use Rattle.open_txn.specs.Buckets.{BucketsValue};
ghost use Rattle.room_shelf.specs.Shelves.{IsShelf};
ghost use Rattle.txn_runner.specs.Body.{body};
ghost use Rattle.txn_runner.specs.Steps.{Closes, SealsAll};

use crate::runner::Runner;
use crate::seats::SeatGate;
use fine_model::{Gate, Point, RunFault};
use log_disk::LogDisk;
use room_shelf::rest;
use room_steps::{seal_waiting, tidy};
use std::alloc::Global;

impl<D: LogDisk> Runner<D> {
    /// Seals what waits, and gathers and merges what the policy names behind it.
    pub(crate) fn seal_group<G: Gate>(
        &mut self,
        alloc: Global,
        gate: &SeatGate<G>,
    ) -> Result<(), RunFault>
        requires shelf { IsShelf self.old.room.room self.old.view }
        requires no_job { self.old.room.room.job ≡ None }
        requires waiting { 1 ≤ self.old.room.room.waiting }
        ensures { (buckets : BucketsValue) → SealsAll (body self.old buckets) (body self.new buckets) result }
    {
        match seal_waiting(&mut self.room, &mut self.view) {
            Ok(epoch) => {
                gate.at(Point::Sealed { epoch });
                tidy(alloc, &mut self.room, &mut self.view)
            }
            Err(fault) => Err(fault),
        }
    }

    /// Takes the view back and seals what waits, behind the last transaction. A fault of this seal is answered.
    pub(crate) fn close<G: Gate>(&mut self, gate: &SeatGate<G>) -> Option<RunFault>
        requires shelf { IsShelf self.old.room.room self.old.view }
        requires no_job { self.old.room.room.job ≡ None }
        ensures { (buckets : BucketsValue) → Closes (body self.old buckets) (body self.new buckets) result }
    {
        if self.room.waiting() == 0 {
            let out = self.view.take();
            rest(&mut self.room, out);
            let _whole = self.room.sealed();
            return None;
        }
        match seal_waiting(&mut self.room, &mut self.view) {
            Ok(epoch) => {
                gate.at(Point::Sealed { epoch });
                None
            }
            Err(fault) => Some(fault),
        }
    }
}
