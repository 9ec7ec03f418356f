//! The commit of a transaction all of whose calls were answered.

ghost use Rattle.std.specs.Prelude.{◌≡◌, ◌<◌, ◌≤◌, ℕ, None, false};
ghost use Rattle.std.specs.List.{AllByRecursion};
ghost use Rattle.fine_model.specs.declared.Mark.TheVariants as mark;
ghost use Rattle.fine_model.specs.Merge.{cost};
ghost use Rattle.fine_model.specs.RowBytes.{FitsRow, greatest};
ghost use Rattle.epoch_room.specs.Fitting.{fit_of};
ghost use Rattle.epoch_room.specs.declared.answers.Fit.TheVariants as fit;
ghost use Rattle.open_txn.specs.Buckets.{BucketsValue};
ghost use Rattle.room_shelf.specs.Shelves.{IsShelf};
ghost use Rattle.txn_runner.specs.Body.{IsHeld, body};
ghost use Rattle.txn_runner.specs.Steps.{Appends, MakesPlace, TriesToCommit};

use crate::runner::Runner;
use crate::seats::SeatGate;
use fine_model::{Gate, Outcome, Point, RunFault, Why};
use log_disk::LogDisk;
use open_txn::Buckets;
use room_steps::make_room;
use std::alloc::Global;
use txn_draft::Draft;

impl<D: LogDisk> Runner<D> {
    /// Makes room for rows of a cost; where what waited was sealed for it, the gate is told.
    fn make_place<G: Gate>(
        &mut self,
        alloc: Global,
        gate: &SeatGate<G>,
        cost: u64,
    ) -> Result<Option<Why>, RunFault>
        requires shelf { IsShelf self.old.room.room self.old.view }
        requires no_job { self.old.room.room.job ≡ None }
        ensures { (buckets : BucketsValue) → MakesPlace cost (body self.old buckets) (body self.new buckets) result }
    {
        let before = self.room.sealed();
        let made = make_room(alloc, &mut self.room, &mut self.view, &mut self.full, cost);
        let epoch = self.room.sealed();
        if before < epoch {
            gate.at(Point::Sealed { epoch });
        }
        made
    }

    /// Appends the rows of a draft, which fit, as an entry of the open epoch, and settles the buckets under it. It takes no memory.
    fn append(&mut self, buckets: &mut Buckets, mut draft: Draft, keep: usize) -> Outcome
        requires fits { fit_of self.old.room.room (cost draft.rows) ≡ fit.Fits }
        requires rows { AllByRecursion (FitsRow mark.Two) draft.rows }
        requires open { draft.failed ≡ false }
        ensures { Appends draft (body self.old buckets.old) (body self.new buckets.new) result }
    {
        let published = self.room.sealed();
        let stamp = self.room.append(draft.log());
        let _whole = self.room.sealed();
        let entry = draft.take_entry();
        buckets.settle(stamp.epoch, published, keep);
        Outcome::Committed {
            place: stamp.place,
            epoch: stamp.epoch,
            entry,
        }
    }

    /// Makes room for a draft and commits it, or takes it back where it is refused.
    pub(crate) fn commit<G: Gate>(
        &mut self,
        alloc: Global,
        buckets: &mut Buckets,
        gate: &SeatGate<G>,
        draft: Draft,
        keep: usize,
    ) -> Result<Outcome, RunFault>
        requires shelf { IsShelf self.old.room.room self.old.view }
        requires no_job { self.old.room.room.job ≡ None }
        requires places { self.old.room.room.places < greatest }
        requires rows { AllByRecursion (FitsRow mark.Two) draft.rows }
        requires open { draft.failed ≡ false }
        ensures { IsHeld self.new.room.room self.new.view × ((group : ℕ) → 1 ≤ group → TriesToCommit group (body self.old buckets.old) (body self.new buckets.new) draft result) }
    {
        match self.make_place(alloc, gate, draft.cost()) {
            Ok(refusal) => match refusal {
                None => Ok(self.append(buckets, draft, keep)),
                Some(why) => {
                    self.take_back(buckets, keep);
                    Ok(Outcome::Refused { why })
                }
            },
            Err(fault) => {
                self.take_back(buckets, keep);
                Err(fault)
            }
        }
    }
}
