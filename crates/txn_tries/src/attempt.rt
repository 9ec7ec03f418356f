//! The calls of one try of a transaction.

ghost use Rattle.fine_model.specs.Bounds.{FitsTxn};
ghost use Rattle.hall_rooms.specs.Rooms.{IsIdle};
ghost use Rattle.txn_engine.specs.Txns.{IsBlankTxn};
ghost use Rattle.txn_tries.specs.Answering.{AnswersTxn};

use crate::calls::answer_all;
use crate::faults::over_by;
use crate::turn::TurnEnd;
use fine_hall::Pass;
use fine_model::ScriptTxn;
use hall_rooms::RoomHall;
use log_disk::LogDisk;
use partition_hold::View;
use txn_engine::Txn;

/// What answering the calls of a transaction comes to.
#[derive(Drop)]
pub(crate) enum Answered {
    /// All were answered, and it is open.
    All,
    /// One met a bucket that another seat held, and it is undone.
    Conflict,
    /// A refusal of one ended it so, and it is undone.
    Over { end: TurnEnd },
}

/// Begins a transaction with its number and answers its calls; one that is refused undoes it.
pub(crate) fn answer<D: LogDisk>(
    hall: &RoomHall<D>,
    pass: &mut Pass<View<D::Eye>>,
    txn: &mut Txn,
    scripted: &ScriptTxn,
    turn: u32,
    keep: usize,
) -> Answered
    requires idle { IsIdle hall.now pass.old }
    requires blank { IsBlankTxn txn.old }
    requires scripted { FitsTxn scripted.now }
    ensures { AnswersTxn hall.now scripted.now turn txn.new pass.old pass.new result }
{
    txn.begin(scripted.lane, turn);
    match answer_all(hall, pass, txn, scripted.calls.as_slice()) {
        Ok(()) => Answered::All,
        Err(fault) => {
            txn.abort(hall, pass, keep);
            over_by(scripted.ending, fault)
        }
    }
}
