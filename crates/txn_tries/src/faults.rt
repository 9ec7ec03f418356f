//! What faults of calls and of the room are told as.

ghost use Rattle.std.specs.Prelude.{◌≡◌};
ghost use Rattle.txn_tries.specs.Faults.{ended_by, ends_with, fault_of, over_by, over_with, refused_as};

use crate::attempt::Answered;
use crate::turn::TurnEnd;
use epoch_room::RoomFault;
use fine_model::{Damage, Ending, Outcome, RunFault, Why};
use txn_engine::TxnFault;

/// How a transaction ends that was refused: one that the script aborts is aborted.
pub(crate) fn refused_as(ending: Ending, why: Why) -> Outcome
    ensures { result ≡ refused_as ending why }
{
    match ending {
        Ending::Commit => Outcome::Refused { why },
        Ending::Abort => Outcome::Aborted,
    }
}

fn ended_by(fault: RunFault) -> Answered
    ensures { result ≡ over_with (ended_by fault) }
{
    Answered::Over {
        end: TurnEnd::Ended { done: None, fault },
    }
}

fn ends_with(ending: Ending, why: Why) -> Answered
    ensures { result ≡ over_with (ends_with ending why) }
{
    Answered::Over {
        end: TurnEnd::Done {
            outcome: refused_as(ending, why),
        },
    }
}

/// What a refused call makes of its transaction.
pub(crate) fn over_by(ending: Ending, fault: TxnFault) -> Answered
    ensures { result ≡ over_by ending fault }
{
    match fault {
        TxnFault::Conflict {
            bucket: _,
            owner: _,
        } => Answered::Conflict,
        TxnFault::Disk => ended_by(RunFault::Disk),
        TxnFault::BadRow { region, at } => ended_by(RunFault::Damaged {
            what: Damage::Region { region, at },
        }),
        TxnFault::BadIndex { region, at } => ended_by(RunFault::Damaged {
            what: Damage::Region { region, at },
        }),
        TxnFault::Unfit { node } => ended_by(RunFault::Damaged {
            what: Damage::Node { node },
        }),
        TxnFault::BucketFull { next: _, depth: _ } => ends_with(ending, Why::Bucket),
        TxnFault::Number { node: _ } => ends_with(ending, Why::Number),
        TxnFault::NoMemory => ended_by(RunFault::Memory),
    }
}

/// What a fault of the room ends a lane with.
pub(crate) fn fault_of(fault: RoomFault) -> RunFault
    ensures { result ≡ fault_of fault }
{
    match fault {
        RoomFault::Disk => RunFault::Disk,
        RoomFault::Shut { epoch: _ } => RunFault::Disk,
        RoomFault::NoMemory => RunFault::Memory,
    }
}
