//! The commit of a transaction all of whose calls were answered.

ghost use Rattle.std.specs.Prelude.{◌≡◌, ◌≤◌};
ghost use Rattle.fine_model.specs.Merge.{cost};
ghost use Rattle.fine_model.specs.RowBytes.{longest_region};
ghost use Rattle.epoch_room.specs.Fitting.{fit_of};
ghost use Rattle.fine_hall.specs.Passes.{last_room};
ghost use Rattle.hall_rooms.specs.Rooms.{beginning_of};
ghost use Rattle.txn_engine.specs.Faults.{refusal_of};
ghost use Rattle.txn_tries.specs.Committing.{CommitsAtLast, HasLast, MakesPlace, TriesToCommit};
ghost use Rattle.txn_tries.specs.Going.{IsCommittable, IsGoing};

use crate::faults::fault_of;
use crate::grouping::seal;
use crate::signals::Signals;
use crate::turn::TurnEnd;
use fine_hall::Pass;
use fine_model::{Options, Outcome, RunFault, Why};
use hall_rooms::RoomHall;
use log_disk::LogDisk;
use partition_hold::View;
use std::sync::Wait;
use txn_engine::{CommitFault, Committed, Txn};

/// What committing comes to.
#[derive(Drop)]
pub(crate) enum CommitEnd {
    /// The entry has its place.
    Placed { done: Committed },
    /// The transaction ended so, without a commit, and is undone.
    Over { end: TurnEnd },
}

/// Seals what waits where its epoch has too little place for a transaction, which stays open, and keeps the number of
/// the epoch. Any other refusal is how the transaction ends, and so
/// is a fault of the seal.
fn make_place<D: LogDisk, W: Wait>(
    rt: &W,
    hall: &RoomHall<D>,
    pass: &mut Pass<View<D::Eye>>,
    txn: &Txn,
    cause: CommitFault,
    options: &Options,
    signals: &Signals,
    sealed: &mut Option<u64>,
) -> Option<TurnEnd>
    requires region { (beginning_of hall.now).room.region_len ≤ longest_region }
    requires going { IsGoing hall.now txn.now pass.old }
    requires answered { IsCommittable txn.now.draft }
    requires last { HasLast (beginning_of hall.now) pass.old }
    requires cause { fit_of (last_room (beginning_of hall.now) pass.old) (cost txn.now.draft.rows) ≡ refusal_of cause }
    ensures { MakesPlace hall.now options.now.group txn.now pass.old pass.new result }
{
    match cause {
        CommitFault::EpochFull { need: _, room: _ } => match seal(rt, hall, pass, signals) {
            Ok(epoch) => {
                *sealed = Some(epoch);
                None
            }
            Err(fault) => Some(TurnEnd::Ended {
                done: None,
                fault: fault_of(fault),
            }),
        },
        CommitFault::TooLarge { need: _, room: _ } => Some(TurnEnd::Done {
            outcome: Outcome::Refused { why: Why::Large },
        }),
        CommitFault::Number { epoch: _, place: _ } => Some(TurnEnd::Done {
            outcome: Outcome::Refused { why: Why::Number },
        }),
        CommitFault::Full {
            free: _,
            live: _,
            retired: _,
        } => Some(TurnEnd::Full),
        CommitFault::Shut { epoch: _ } => Some(TurnEnd::Ended {
            done: None,
            fault: RunFault::Disk,
        }),
    }
}

/// Tries once to commit. None where what waited was sealed to make place: the transaction is open, and may be tried
/// again.
fn try_commit<D: LogDisk, W: Wait>(
    rt: &W,
    hall: &RoomHall<D>,
    pass: &mut Pass<View<D::Eye>>,
    txn: &mut Txn,
    options: &Options,
    signals: &Signals,
    sealed: &mut Option<u64>,
) -> Option<CommitEnd>
    requires region { (beginning_of hall.now).room.region_len ≤ longest_region }
    requires going { IsGoing hall.now txn.old pass.old }
    requires answered { IsCommittable txn.old.draft }
    ensures { TriesToCommit hall.now options.now.group txn.old txn.new pass.old pass.new result }
{
    let keep = options.keep as usize;
    match txn.commit(rt, hall, pass, keep) {
        Ok(done) => Some(CommitEnd::Placed { done }),
        Err(cause) => match make_place(rt, hall, pass, txn, cause, options, signals, sealed) {
            Some(end) => {
                txn.abort(hall, pass, keep);
                Some(CommitEnd::Over { end })
            }
            None => None,
        },
    }
}

/// Commits an open transaction, however often what waits is to be sealed for it, and keeps the number of the last epoch
/// that was sealed so. It may wait for the room.
pub(crate) fn commit<D: LogDisk, W: Wait>(
    rt: &W,
    hall: &RoomHall<D>,
    pass: &mut Pass<View<D::Eye>>,
    txn: &mut Txn,
    options: &Options,
    signals: &Signals,
    sealed: &mut Option<u64>,
) -> CommitEnd
    requires region { (beginning_of hall.now).room.region_len ≤ longest_region }
    requires going { IsGoing hall.now txn.old pass.old }
    requires answered { IsCommittable txn.old.draft }
    ensures { CommitsAtLast hall.now options.now.group txn.old txn.new pass.old pass.new result }
{
    for _ in rt.forever() {
        if let Some(end) = try_commit(rt, hall, pass, txn, options, signals, sealed) {
            return end;
        }
    }
    unreachable!()
}
