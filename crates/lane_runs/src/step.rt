//! One try of a lane's next transaction.

ghost use Rattle.std.specs.Prelude.{◌≡◌, ◌≤◌, ◌<◌, length};
ghost use Rattle.fine_model.specs.Bounds.{FitsScript};
ghost use Rattle.fine_model.specs.RowBytes.{longest_region};
ghost use Rattle.hall_rooms.specs.Rooms.{IsIdle, beginning_of};
ghost use Rattle.txn_engine.specs.Txns.{IsBlankTxn};
ghost use Rattle.lane_runs.specs.Steps.{IsNextOf, StepsLane, taken, went_of};

use crate::lane::Lane;
use fine_hall::Pass;
use fine_model::{Gate, Options, Script};
use hall_rooms::RoomHall;
use log_disk::LogDisk;
use partition_hold::View;
use std::sync::Wait;
use txn_engine::Txn;
use txn_tries::{Signals, Tries, TurnEnd, run_turn};

/// How a try went.
#[derive(Clone, Copy, Debug, PartialEq, Eq)]
pub(crate) enum Went {
    /// The transaction has its outcome, or a fault ended the lane.
    On,
    /// No try is left, of which the last one met a bucket that another seat held.
    Tried,
    /// The log was full.
    Full,
}

/// Takes what a try came to: the outcome, and the fault that ended the lane.
pub(crate) fn take_end(lane: &mut Lane, end: TurnEnd) -> Went
    requires next { length lane.old.work.done < length lane.old.work.at }
    ensures lane { lane.new ≡ taken lane.old end }
    ensures went { result ≡ went_of end }
    ensures same { lane.new.lane ≡ lane.old.lane }
{
    match end {
        TurnEnd::Done { outcome } => {
            lane.finish(outcome);
            Went::On
        }
        TurnEnd::Tried => Went::Tried,
        TurnEnd::Full => Went::Full,
        TurnEnd::Ended { done, fault } => {
            match done {
                Some(outcome) => lane.finish(outcome),
                None => {}
            }
            lane.end(fault);
            Went::On
        }
    }
}

/// Tries the next transaction of a lane, which stands at a place of the script, from 0.
pub(crate) fn take_turn<D: LogDisk, G: Gate, W: Wait>(
    rt: &W,
    hall: &RoomHall<D>,
    script: &Script,
    gate: &G,
    options: &Options,
    signals: &Signals,
    pass: &mut Pass<View<D::Eye>>,
    txn: &mut Txn,
    lane: &mut Lane,
    at: u32,
    tries: &mut Tries,
) -> Went
    requires idle { IsIdle hall.now pass.old }
    requires region { (beginning_of hall.now).room.region_len ≤ longest_region }
    requires blank { IsBlankTxn txn.old }
    requires script { FitsScript script.now }
    requires group { 1 ≤ options.now.group }
    requires next { IsNextOf script.now lane.old at }
    ensures idle { IsIdle hall.now pass.new × (pass.new.number ≡ pass.old.number) }
    ensures blank { IsBlankTxn txn.new }
    ensures steps { StepsLane (beginning_of hall.now) script.now options.now.group at pass.old pass.new lane.old lane.new result }
    ensures same { lane.new.lane ≡ lane.old.lane }
{
    let scripted = script.at(at as usize);
    let end = run_turn(
        rt,
        hall,
        pass,
        txn,
        scripted,
        at + 1,
        gate,
        options,
        signals,
        tries,
    );
    take_end(lane, end)
}
