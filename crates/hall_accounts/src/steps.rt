//! Steps of transactions of a seat, with what each answers.

ghost use Rattle.std.specs.Prelude.{◌≡◌, ◌==◌, count_by, IfOk, IfSome};
ghost use Rattle.fine_model.specs.Bounds.{FitsCall};
ghost use Rattle.fine_hall.specs.Passes.{seen};
ghost use Rattle.txn_engine.specs.Txns.{IsBlankTxn};
ghost use Rattle.hall_accounts.specs.Going.{IsAtRest, IsGoing};

use crate::accounts::{balance_of, get_in, get_of, put_in, put_of, scan_of, sum_of};
use crate::transfers::{Ended, answer, commit, give_up, seat_of, show};
use epoch_room::RoomFault;
use fine_hall::Pass;
use fine_model::{Call, Reply};
use log_disk::{MemDisk, MemEye};
use partition_hold::View;
use std::alloc::Global;
use std::sync::Wait;
use txn_engine::{
    CommitFault, Committed, RoomHall, Space, Txn, TxnFault, settle_views, show_views,
};

/// A pass with its transaction.
#[derive(Drop)]
pub struct Seat {
    pub pass: Pass<View<MemEye>>,
    pub txn: Txn,
}

/// A step of a seat.
#[derive(Clone, Copy, Debug, PartialEq, Eq)]
pub enum Step {
    Get(u8),
    Put(u8, u8),
    /// Asks for the pair with a number in a bucket.
    GetIn(u8, u8),
    /// Puts the pair with a number in a bucket. Its value is the number.
    PutIn(u8, u8),
    Scan,
    /// Commits, or takes back what is open. Either end evicts all that is published.
    Commit,
    /// The same, where so many published nodes of each held bucket stay cached.
    CommitKeeping(usize),
    /// Commits, or leaves open what is open.
    TryCommit,
    /// The same, and tells more of the entry.
    TellCommit,
    /// Takes back what is open, and begins anew with this number.
    Begin(u8),
    /// Takes back what is open, and evicts all that is published.
    Abort,
    /// The same, where so many published nodes of each held bucket stay cached.
    AbortKeeping(usize),
    /// Takes back what is open, seals what waits, and posts views of it.
    Show,
    /// Posts views of what is sealed, and seals nothing. What is open stays open.
    Post,
    /// Erases what is retired and no view names. What is open stays open.
    Settle,
}

/// What a step answers.
#[derive(Clone, Copy, Debug, PartialEq, Eq)]
pub enum Told {
    Balance(u8),
    Sum(u64),
    Stored,
    Refused(TxnFault),
    /// The place and the epoch of the entry.
    Committed(u64, u64),
    /// The place and the epoch of the entry, how many wait behind it, and its number in the script.
    Entry(u64, u64, u64, u32),
    Begun,
    NoPlace(CommitFault),
    Aborted,
    /// The sealed epoch.
    Shown(u64),
    NotShown(RoomFault),
    /// How many parts were erased.
    Settled(u32),
    NotSettled(RoomFault),
    /// Whether two parts were merged.
    Merged(bool),
    NotMerged,
    Room(Space),
    NoRoom,
}

fn told_by(reply: Option<&Reply>) -> Told {
    match reply {
        Some(Reply::Found { pairs: _ }) => Told::Sum(sum_of(reply)),
        Some(Reply::Stored) => Told::Stored,
        _ => Told::Balance(balance_of(reply)),
    }
}

fn ask(hall: &RoomHall<MemDisk>, seat: &mut Seat, asked: Option<Call>) -> Told
    requires going { IsGoing hall.now seat.old.txn seat.old.pass }
    requires asked { IfSome asked FitsCall }
    ensures going { IsGoing hall.now seat.new.txn seat.new.pass × (seat.new.pass.number ≡ seat.old.pass.number) }
{
    match answer(&mut seat.txn, hall, &mut seat.pass, asked) {
        Ok(()) => told_by(seat.txn.replies().last()),
        Err(fault) => Told::Refused(fault),
    }
}

fn told_of(ended: Ended) -> Told {
    match ended {
        Ended::Committed(done) => Told::Committed(done.stamp.place, done.stamp.epoch),
        Ended::Refused(fault) => Told::Refused(fault),
        Ended::NoPlace(cause) => Told::NoPlace(cause),
    }
}

fn end<W: Wait>(rt: &W, hall: &RoomHall<MemDisk>, seat: &mut Seat, keep: usize) -> Told
    requires going { IsGoing hall.now seat.old.txn seat.old.pass }
    ensures going { IsGoing hall.now seat.new.txn seat.new.pass × (seat.new.pass.number ≡ seat.old.pass.number) }
{
    told_of(commit(rt, &mut seat.txn, hall, &mut seat.pass, keep))
}

/// Commits, and hands the entry out. Where that is refused, what is open stays open, and the answer says why.
///
/// As many wait as the pass saw entries of this epoch, this one included.
fn commit_now<W: Wait>(rt: &W, hall: &RoomHall<MemDisk>, seat: &mut Seat) -> Result<Committed, Told>
    requires going { IsGoing hall.now seat.old.txn seat.old.pass }
    ensures going { IsGoing hall.now seat.new.txn seat.new.pass × (seat.new.pass.number ≡ seat.old.pass.number) }
    ensures waits { IfOk result (λ done. done.waiting ≡ count_by (λ c. c.epoch == done.stamp.epoch) (seen seat.new.pass)) }
{
    if seat.txn.failed() {
        return Err(Told::Refused(TxnFault::NoMemory));
    }
    match seat.txn.commit(rt, hall, &mut seat.pass, 0) {
        Ok(done) => Ok(done),
        Err(cause) => Err(Told::NoPlace(cause)),
    }
}

fn try_commit<W: Wait>(rt: &W, hall: &RoomHall<MemDisk>, seat: &mut Seat) -> Told
    requires going { IsGoing hall.now seat.old.txn seat.old.pass }
    ensures going { IsGoing hall.now seat.new.txn seat.new.pass × (seat.new.pass.number ≡ seat.old.pass.number) }
{
    match commit_now(rt, hall, seat) {
        Ok(done) => Told::Committed(done.stamp.place, done.stamp.epoch),
        Err(told) => told,
    }
}

fn tell_commit<W: Wait>(rt: &W, hall: &RoomHall<MemDisk>, seat: &mut Seat) -> Told
    requires going { IsGoing hall.now seat.old.txn seat.old.pass }
    ensures going { IsGoing hall.now seat.new.txn seat.new.pass × (seat.new.pass.number ≡ seat.old.pass.number) }
{
    match commit_now(rt, hall, seat) {
        Ok(done) => Told::Entry(
            done.stamp.place,
            done.stamp.epoch,
            done.waiting,
            done.entry.turn,
        ),
        Err(told) => told,
    }
}

/// Takes back what is open.
pub fn take_back(hall: &RoomHall<MemDisk>, seat: &mut Seat)
    requires going { IsGoing hall.now seat.old.txn seat.old.pass }
    ensures idle { IsAtRest hall.now seat.new.pass × (seat.new.pass.number ≡ seat.old.pass.number) }
    ensures free { IsBlankTxn seat.new.txn }
{
    give_up(&mut seat.txn, hall, &mut seat.pass, 0);
}

fn abort(hall: &RoomHall<MemDisk>, seat: &mut Seat, keep: usize) -> Told
    requires going { IsGoing hall.now seat.old.txn seat.old.pass }
    ensures going { IsGoing hall.now seat.new.txn seat.new.pass × (seat.new.pass.number ≡ seat.old.pass.number) }
{
    give_up(&mut seat.txn, hall, &mut seat.pass, keep);
    Told::Aborted
}

fn begin(hall: &RoomHall<MemDisk>, seat: &mut Seat, number: u8) -> Told
    requires going { IsGoing hall.now seat.old.txn seat.old.pass }
    ensures going { IsGoing hall.now seat.new.txn seat.new.pass × (seat.new.pass.number ≡ seat.old.pass.number) }
{
    take_back(hall, seat);
    let lane = seat_of(&seat.pass);
    seat.txn.begin(lane, u32::from(number));
    Told::Begun
}

fn told_shown(shown: Result<u64, RoomFault>) -> Told {
    match shown {
        Ok(epoch) => Told::Shown(epoch),
        Err(fault) => Told::NotShown(fault),
    }
}

fn post_now<W: Wait>(rt: &W, hall: &RoomHall<MemDisk>, seat: &mut Seat) -> Told
    requires going { IsGoing hall.now seat.old.txn seat.old.pass }
    ensures going { IsGoing hall.now seat.new.txn seat.new.pass × (seat.new.pass.number ≡ seat.old.pass.number) }
{
    told_shown(show_views(rt, hall, &mut seat.pass))
}

fn show_now<W: Wait>(rt: &W, hall: &RoomHall<MemDisk>, seat: &mut Seat) -> Told
    requires going { IsGoing hall.now seat.old.txn seat.old.pass }
    ensures going { IsGoing hall.now seat.new.txn seat.new.pass × (seat.new.pass.number ≡ seat.old.pass.number) }
{
    take_back(hall, seat);
    told_shown(show(rt, hall, &mut seat.pass))
}

fn told_settled(settled: Result<u32, RoomFault>) -> Told {
    match settled {
        Ok(erased) => Told::Settled(erased),
        Err(fault) => Told::NotSettled(fault),
    }
}

fn settle_now<W: Wait>(rt: &W, hall: &RoomHall<MemDisk>, seat: &mut Seat) -> Told
    requires going { IsGoing hall.now seat.old.txn seat.old.pass }
    ensures going { IsGoing hall.now seat.new.txn seat.new.pass × (seat.new.pass.number ≡ seat.old.pass.number) }
{
    told_settled(settle_views(rt, hall, &mut seat.pass))
}

/// A step of a seat.
pub fn take<W: Wait>(
    rt: &W,
    alloc: Global,
    hall: &RoomHall<MemDisk>,
    seat: &mut Seat,
    step: Step,
) -> Told
    requires going { IsGoing hall.now seat.old.txn seat.old.pass }
    ensures going { IsGoing hall.now seat.new.txn seat.new.pass × (seat.new.pass.number ≡ seat.old.pass.number) }
{
    match step {
        Step::Get(account) => ask(hall, seat, get_of(alloc, account)),
        Step::Put(account, balance) => ask(hall, seat, put_of(alloc, account, balance)),
        Step::GetIn(bucket, number) => ask(hall, seat, get_in(alloc, bucket, number)),
        Step::PutIn(bucket, number) => ask(hall, seat, put_in(alloc, bucket, number)),
        Step::Scan => ask(hall, seat, scan_of(alloc)),
        Step::Commit => end(rt, hall, seat, 0),
        Step::CommitKeeping(keep) => end(rt, hall, seat, keep),
        Step::TryCommit => try_commit(rt, hall, seat),
        Step::TellCommit => tell_commit(rt, hall, seat),
        Step::Begin(number) => begin(hall, seat, number),
        Step::Abort => abort(hall, seat, 0),
        Step::AbortKeeping(keep) => abort(hall, seat, keep),
        Step::Show => show_now(rt, hall, seat),
        Step::Post => post_now(rt, hall, seat),
        Step::Settle => settle_now(rt, hall, seat),
    }
}
