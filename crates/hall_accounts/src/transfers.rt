//! Transactions of several calls, as transfers between two accounts are, each with a pass that is idle before and after.

ghost use Rattle.std.specs.Prelude.{◌≡◌, IfSome};
ghost use Rattle.std.specs.List.{AllByRecursion};
ghost use Rattle.fine_model.specs.Bounds.{FitsCall};
ghost use Rattle.fine_hall.specs.Passes.{mine};
ghost use Rattle.hall_accounts.specs.Doing.{EndsTxn};
ghost use Rattle.txn_engine.specs.Txns.{IsBlankTxn};
ghost use Rattle.hall_accounts.specs.Going.{IsAtRest, IsGoing, StaysOwn};

use crate::accounts::{balance_of, get_of, put_of};
use epoch_room::RoomFault;
use fine_hall::Pass;
use fine_model::Call;
use log_disk::LogDisk;
use partition_hold::View;
use std::alloc::Global;
use std::sync::Wait;
use txn_engine::{CommitFault, Committed, RoomHall, Txn, TxnFault, seal_and_post};

/// How a transaction ended.
#[derive(Drop)]
pub enum Ended {
    Committed(Committed),
    /// A call was refused, and all was taken back.
    Refused(TxnFault),
    /// The room had no place, and all was taken back.
    NoPlace(CommitFault),
}

/// The number of a pass's seat, or 0 where it is above 255.
pub(crate) fn seat_of<V>(pass: &Pass<V>) -> u8 {
    u8::try_from(pass.number()).unwrap_or(0)
}

/// A transaction that holds nothing. None where there is no memory.
pub fn fresh(alloc: Global, lane: u8) -> Option<Txn>
    ensures { IfSome result IsBlankTxn }
{
    match Txn::new(alloc, lane, 1) {
        Ok(txn) => Some(txn),
        Err(_refused) => None,
    }
}

/// Answers a call, for which there was memory or not.
pub(crate) fn answer<D: LogDisk>(
    txn: &mut Txn,
    hall: &RoomHall<D>,
    pass: &mut Pass<View<D::Eye>>,
    asked: Option<Call>,
) -> Result<(), TxnFault>
    requires going { IsGoing hall.now txn.old pass.old }
    requires asked { IfSome asked FitsCall }
    ensures going { IsGoing hall.now txn.new pass.new }
    ensures stays { StaysOwn pass.old pass.new }
{
    match asked {
        Some(asked) => txn.call(hall, pass, &asked),
        None => Err(TxnFault::NoMemory),
    }
}

/// Answers calls one after another, up to the first refusal.
fn answer_all<D: LogDisk>(
    txn: &mut Txn,
    hall: &RoomHall<D>,
    pass: &mut Pass<View<D::Eye>>,
    calls: &[Call],
) -> Result<(), TxnFault>
    requires going { IsGoing hall.now txn.old pass.old }
    requires calls { AllByRecursion FitsCall calls.now }
    ensures going { IsGoing hall.now txn.new pass.new }
    ensures stays { StaysOwn pass.old pass.new }
{
    match calls {
        [] => Ok(()),
        [call, rest @ ..] => {
            txn.call(hall, pass, call)?;
            answer_all(txn, hall, pass, rest)
        }
    }
}

/// Takes all back.
pub fn give_up<D: LogDisk>(
    txn: &mut Txn,
    hall: &RoomHall<D>,
    pass: &mut Pass<View<D::Eye>>,
    keep: usize,
)
    requires going { IsGoing hall.now txn.old pass.old }
    ensures idle { IsAtRest hall.now pass.new }
    ensures stays { StaysOwn pass.old pass.new }
    ensures free { IsBlankTxn txn.new }
{
    txn.abort(hall, pass, keep);
}

/// Commits, or takes all back.
pub fn commit<D: LogDisk, W: Wait>(
    rt: &W,
    txn: &mut Txn,
    hall: &RoomHall<D>,
    pass: &mut Pass<View<D::Eye>>,
    keep: usize,
) -> Ended
    requires going { IsGoing hall.now txn.old pass.old }
    ensures { EndsTxn hall.now txn.new pass.old pass.new result }
{
    if txn.failed() {
        give_up(txn, hall, pass, keep);
        return Ended::Refused(TxnFault::NoMemory);
    }
    match txn.commit(rt, hall, pass, keep) {
        Ok(done) => Ended::Committed(done),
        Err(cause) => {
            give_up(txn, hall, pass, keep);
            Ended::NoPlace(cause)
        }
    }
}

/// Commits a transaction whose calls were answered, or gives it up.
fn finish<D: LogDisk, W: Wait>(
    rt: &W,
    txn: &mut Txn,
    hall: &RoomHall<D>,
    pass: &mut Pass<View<D::Eye>>,
    answered: Result<(), TxnFault>,
    keep: usize,
) -> Ended
    requires going { IsGoing hall.now txn.old pass.old }
    ensures { EndsTxn hall.now txn.new pass.old pass.new result }
{
    match answered {
        Ok(()) => commit(rt, txn, hall, pass, keep),
        Err(fault) => {
            give_up(txn, hall, pass, keep);
            Ended::Refused(fault)
        }
    }
}

/// One transaction of these calls.
pub fn run<D: LogDisk, W: Wait>(
    rt: &W,
    txn: &mut Txn,
    hall: &RoomHall<D>,
    pass: &mut Pass<View<D::Eye>>,
    calls: &[Call],
    keep: usize,
) -> Ended
    requires idle { IsAtRest hall.now pass.old }
    requires free { IsBlankTxn txn.old }
    requires calls { AllByRecursion FitsCall calls.now }
    ensures { EndsTxn hall.now txn.new pass.old pass.new result }
{
    let answered = answer_all(txn, hall, pass, calls);
    finish(rt, txn, hall, pass, answered, keep)
}

/// The balances that the first two calls of a transaction read.
fn balances(txn: &Txn) -> (u8, u8) {
    let replies = txn.replies();
    (balance_of(replies.first()), balance_of(replies.get(1)))
}

/// Moves 1 from an account to another one, where it has 1 and the other has room for it.
fn move_one<D: LogDisk>(
    alloc: Global,
    txn: &mut Txn,
    hall: &RoomHall<D>,
    pass: &mut Pass<View<D::Eye>>,
    from: u8,
    to: u8,
) -> Result<(), TxnFault>
    requires going { IsGoing hall.now txn.old pass.old }
    ensures going { IsGoing hall.now txn.new pass.new }
    ensures stays { StaysOwn pass.old pass.new }
{
    answer(txn, hall, pass, get_of(alloc, from))?;
    answer(txn, hall, pass, get_of(alloc, to))?;
    let (left, right) = balances(txn);
    if left == 0 || right == u8::MAX {
        return Ok(());
    }
    answer(txn, hall, pass, put_of(alloc, from, left - 1))?;
    answer(txn, hall, pass, put_of(alloc, to, right + 1))
}

/// A transfer of 1 from an account to another one, in one transaction that reads both balances before it puts. It moves nothing where the one has nothing, or
/// the other has no room.
pub fn transfer<D: LogDisk, W: Wait>(
    rt: &W,
    alloc: Global,
    txn: &mut Txn,
    hall: &RoomHall<D>,
    pass: &mut Pass<View<D::Eye>>,
    from: u8,
    to: u8,
) -> Ended
    requires idle { IsAtRest hall.now pass.old }
    requires free { IsBlankTxn txn.old }
    ensures { EndsTxn hall.now txn.new pass.old pass.new result }
{
    let answered = move_one(alloc, txn, hall, pass, from, to);
    finish(rt, txn, hall, pass, answered, 0)
}

/// Seals what waits, and posts views of it to all seats, in a turn without an entry.
pub fn show<D: LogDisk, W: Wait>(
    rt: &W,
    hall: &RoomHall<D>,
    pass: &mut Pass<View<D::Eye>>,
) -> Result<u64, RoomFault>
    requires idle { IsAtRest hall.now pass.old }
    ensures idle { IsAtRest hall.now pass.new × (pass.new.number ≡ pass.old.number) }
    ensures mine { mine pass.new ≡ mine pass.old }
{
    seal_and_post(rt, hall, pass)
}
