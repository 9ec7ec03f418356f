//! The calls of a transaction, one after another.

ghost use Rattle.std.specs.Prelude.{◌≡◌, false};
ghost use Rattle.std.specs.List.{AllByRecursion};
ghost use Rattle.fine_model.specs.Bounds.{FitsCall};
ghost use Rattle.hall_rooms.specs.Rooms.{beginning_of};
ghost use Rattle.txn_engine.specs.Txns.{SeesCall};
ghost use Rattle.txn_tries.specs.Answering.{AnswersAll};
ghost use Rattle.txn_tries.specs.Going.{IsGoing};

use fine_hall::Pass;
use fine_model::Call;
use hall_rooms::RoomHall;
use log_disk::LogDisk;
use partition_hold::View;
use txn_engine::{Txn, TxnFault};

/// Answers calls one after another, up to the first that is refused.
pub(crate) fn answer_all<D: LogDisk>(
    hall: &RoomHall<D>,
    pass: &mut Pass<View<D::Eye>>,
    txn: &mut Txn,
    calls: &[Call],
) -> Result<(), TxnFault>
    requires going { IsGoing hall.now txn.old pass.old }
    requires not_failed { txn.old.draft.failed ≡ false }
    requires calls { AllByRecursion FitsCall calls.now }
    ensures going { IsGoing hall.now txn.new pass.new × (pass.new.number ≡ pass.old.number) }
    ensures sees { SeesCall (beginning_of hall.now) pass.old pass.new }
    ensures answers { AnswersAll (beginning_of hall.now) calls.now txn.old txn.new pass.old pass.new result }
{
    match calls {
        [] => Ok(()),
        [call, rest @ ..] => match txn.call(hall, pass, call) {
            Ok(()) => answer_all(hall, pass, txn, rest),
            Err(fault) => Err(fault),
        },
    }
}
