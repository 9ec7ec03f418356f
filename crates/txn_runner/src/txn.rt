//! One transaction of a script.

ghost use Rattle.std.specs.Prelude.{◌≡◌, ◌<◌, ◌≤◌, ℕ, None};
ghost use Rattle.fine_model.specs.Bounds.{FitsTxn};
ghost use Rattle.fine_model.specs.RowBytes.{greatest};
ghost use Rattle.room_shelf.specs.Shelves.{IsShelf};
ghost use Rattle.open_txn.specs.Buckets.{BucketsValue};
ghost use Rattle.run_laws.specs.Lanes.{IsLane, fault_of};
ghost use Rattle.txn_runner.specs.Body.{IsHeld, body};
ghost use Rattle.txn_runner.specs.Steps.{BehindTxns, EndsGroup, RunsTxn, Tries, refused_as};

use crate::runner::Runner;
use crate::seats::SeatGate;
use fine_model::{Ending, Gate, Options, Outcome, Point, RunFault, ScriptTxn, Why};
use log_disk::LogDisk;
use open_txn::Buckets;
use std::alloc::Global;
use txn_draft::Draft;

/// How a transaction ends that was refused: one that the script aborts is aborted.
fn refused(ending: Ending, why: Why) -> Outcome
    ensures { result ≡ refused_as ending why }
{
    match ending {
        Ending::Commit => Outcome::Refused { why },
        Ending::Abort => Outcome::Aborted,
    }
}

impl<D: LogDisk> Runner<D> {
    /// Runs a transaction, but for what comes behind its commit. With a fault nothing of it is left.
    fn attempt<G: Gate>(
        &mut self,
        alloc: Global,
        buckets: &mut Buckets,
        gate: &SeatGate<G>,
        keep: usize,
        turn: u32,
        txn: &ScriptTxn,
    ) -> Result<Outcome, RunFault>
        requires shelf { IsShelf self.old.room.room self.old.view }
        requires no_job { self.old.room.room.job ≡ None }
        requires places { self.old.room.room.places < greatest }
        requires txn { FitsTxn txn.now }
        ensures { IsHeld self.new.room.room self.new.view × ((group : ℕ) → 1 ≤ group → Tries group (body self.old buckets.old) (body self.new buckets.new) txn.now turn result) }
    {
        let calls = txn.calls.as_slice();
        let mut draft = Draft::for_calls(alloc, txn.lane, turn, calls);
        match self.answer(buckets, &mut draft, calls, keep) {
            Ok(refusal) => match refusal {
                None => match txn.ending {
                    Ending::Commit => self.commit(alloc, buckets, gate, draft, keep),
                    Ending::Abort => {
                        self.take_back(buckets, keep);
                        Ok(Outcome::Aborted)
                    }
                },
                Some(why) => Ok(refused(txn.ending, why)),
            },
            Err(fault) => Err(fault),
        }
    }

    /// Ends the group of entries that wait, where it is full. A fault ends the lane; what was committed stays so.
    fn end_group<G: Gate>(&mut self, alloc: Global, gate: &SeatGate<G>, group: u32, lane: u8)
        requires shelf { IsShelf self.old.room.room self.old.view }
        requires no_job { self.old.room.room.job ≡ None }
        requires group { 1 ≤ group }
        requires lane { IsLane lane }
        ensures { (buckets : BucketsValue) → EndsGroup group (body self.old buckets) (body self.new buckets) lane }
    {
        if self.room.waiting() < u64::from(group) {
            return;
        }
        match self.seal_group(alloc, gate) {
            Ok(()) => {}
            Err(fault) => self.ended.end(lane, fault),
        }
    }

    /// Runs a transaction of a lane that has not ended. A fault ends the lane.
    fn run_open<G: Gate>(
        &mut self,
        alloc: Global,
        buckets: &mut Buckets,
        gate: &SeatGate<G>,
        options: &Options,
        turn: u32,
        txn: &ScriptTxn,
    ) -> Outcome
        requires shelf { IsShelf self.old.room.room self.old.view }
        requires no_job { self.old.room.room.job ≡ None }
        requires places { self.old.room.room.places < greatest }
        requires txn { FitsTxn txn.now }
        requires group { 1 ≤ options.now.group }
        requires goes_on { fault_of self.old.ended txn.now.lane ≡ None }
        ensures { BehindTxns options.now.group turn (body self.old buckets.old) (λ entry done. RunsTxn options.now.group entry done txn.now result (body self.old buckets.old) (body self.new buckets.new)) }
    {
        match self.attempt(alloc, buckets, gate, options.keep as usize, turn, txn) {
            Ok(outcome) => {
                self.end_group(alloc, gate, options.group, txn.lane);
                outcome
            }
            Err(fault) => {
                self.ended.end(txn.lane, fault);
                Outcome::NotRun
            }
        }
    }

    /// Runs the transaction with a number of the script, counted from 1, if its lane has not ended.
    pub(crate) fn run_txn<G: Gate>(
        &mut self,
        alloc: Global,
        buckets: &mut Buckets,
        gate: &SeatGate<G>,
        options: &Options,
        turn: u32,
        txn: &ScriptTxn,
    ) -> Outcome
        requires shelf { IsShelf self.old.room.room self.old.view }
        requires no_job { self.old.room.room.job ≡ None }
        requires places { self.old.room.room.places < greatest }
        requires txn { FitsTxn txn.now }
        requires group { 1 ≤ options.now.group }
        ensures { BehindTxns options.now.group turn (body self.old buckets.old) (λ entry done. RunsTxn options.now.group entry done txn.now result (body self.old buckets.old) (body self.new buckets.new)) }
    {
        if self.ended.has_ended(txn.lane) {
            return Outcome::NotRun;
        }
        gate.at(Point::TxnStart { turn });
        let outcome = self.run_open(alloc, buckets, gate, options, turn, txn);
        gate.at(Point::TxnEnd { turn });
        outcome
    }
}
