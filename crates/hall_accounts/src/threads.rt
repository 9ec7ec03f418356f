//! Two threads that move money between accounts on one hall.

ghost use Rattle.std.specs.Prelude.{◌≡◌, ◌<◌, IfErr, IfOk, IfSome, vec_len, vec_capacity};
ghost use Rattle.hall_accounts.specs.Doing.{IsKept, IsRunOfTwo, IsWorker, KeepsAll};
ghost use Rattle.hall_accounts.specs.Going.{IsAtRest, StaysOwn};

use crate::accounts::{put_of, scan_of, sum_of};
use crate::halls::{Two, end_two, open_two};
use crate::transfers::{Ended, answer, fresh, give_up, run, seat_of, show, transfer};
use epoch_room::Room;
use fine_hall::Pass;
use log_disk::{FaultPlan, LogDisk, MemDisk, MemEye};
use partition_hold::View;
use std::alloc::Global;
use std::sync::Wait;
use std::thread;
use std::thread::{Threads, join};
use txn_engine::{Committed, RoomHall, Txn, TxnFault};

/// From which account to which one.
#[derive(Clone, Copy, Debug)]
pub struct Route {
    pub from: u8,
    pub to: u8,
}

/// Why a call of a transaction was refused, where one was.
fn refusal_of(ended: &Ended) -> Option<TxnFault> {
    match ended {
        Ended::Refused(fault) => Some(*fault),
        _ => None,
    }
}

/// Whether a bucket was found held.
fn is_conflict(refused: Option<TxnFault>) -> bool {
    matches!(
        refused,
        Some(TxnFault::Conflict {
            bucket: _,
            owner: _
        })
    )
}

/// Whether a read failed.
fn is_disk(refused: Option<TxnFault>) -> bool {
    matches!(refused, Some(TxnFault::Disk))
}

/// Keeps what a transaction committed, for which there is room.
fn keep(kept: &mut Vec<Committed>, ended: Ended)
    requires { vec_len kept.old < vec_capacity kept.old }
    ensures { IsKept kept.old.items ended kept.new.items }
{
    match ended {
        Ended::Committed(done) => kept.push_reserved(done),
        Ended::Refused(_fault) => {}
        Ended::NoPlace(_cause) => {}
    }
}

/// A pass, and all that it committed, in order.
type Worker = (Pass<View<MemEye>>, Vec<Committed>);

/// The same, and how many of its tries a failing read ended.
type Worked = (Pass<View<MemEye>>, Vec<Committed>, u64);

/// A worker in the midst of its work, with a transaction that holds nothing.
#[derive(Drop)]
struct Active {
    alloc: Global,
    pass: Pass<View<MemEye>>,
    txn: Txn,
    kept: Vec<Committed>,
    met: u64,
}

/// Begins with the work. The worker comes back where there is no memory.
fn begin(alloc: Global, hall: &RoomHall<MemDisk>, worker: Worker) -> Result<Active, Worker>
    requires { IsWorker hall.now worker.0 worker.1.items }
    ensures begun { IfOk result (λ active. KeepsAll hall.now active.txn active.pass active.kept.items × (active.pass.number ≡ worker.0.number)) }
    ensures back { IfErr result (λ back. IsWorker hall.now back.0 back.1.items × (back.0.number ≡ worker.0.number)) }
{
    let (pass, kept) = worker;
    match fresh(alloc, seat_of(&pass)) {
        Some(txn) => Ok(Active {
            alloc,
            pass,
            txn,
            kept,
            met: 0,
        }),
        None => Err((pass, kept)),
    }
}

/// One try of a transfer, whose entry is kept. Whether it is to be tried again, since a bucket was found held or a read failed, which is counted.
fn try_once<W: Wait>(rt: &W, hall: &RoomHall<MemDisk>, active: &mut Active, route: Route) -> bool
    requires { KeepsAll hall.now active.old.txn active.old.pass active.old.kept.items }
    ensures { KeepsAll hall.now active.new.txn active.new.pass active.new.kept.items × (active.new.pass.number ≡ active.old.pass.number) }
{
    if active.kept.reserve(1).is_err() {
        return false;
    }
    let ended = transfer(
        rt,
        active.alloc,
        &mut active.txn,
        hall,
        &mut active.pass,
        route.from,
        route.to,
    );
    let refused = refusal_of(&ended);
    keep(&mut active.kept, ended);
    let failed = is_disk(refused);
    active.met = active.met.saturating_add(u64::from(failed));
    failed | is_conflict(refused)
}

/// Moves 1 once no bucket of the two accounts is found held and no read fails, and keeps the entry.
fn move_at_last<W: Wait>(rt: &W, hall: &RoomHall<MemDisk>, active: &mut Active, route: Route)
    requires { KeepsAll hall.now active.old.txn active.old.pass active.old.kept.items }
    ensures { KeepsAll hall.now active.new.txn active.new.pass active.new.kept.items × (active.new.pass.number ≡ active.old.pass.number) }
{
    for _ in rt.forever() {
        if !try_once(rt, hall, active, route) {
            return;
        }
        thread::yield_now();
    }
    unreachable!()
}

/// Moves 1 on each of two routes, so many times.
fn move_often<W: Wait>(
    rt: &W,
    hall: &RoomHall<MemDisk>,
    active: &mut Active,
    routes: (Route, Route),
    times: u32,
)
    requires { KeepsAll hall.now active.old.txn active.old.pass active.old.kept.items }
    ensures { KeepsAll hall.now active.new.txn active.new.pass active.new.kept.items × (active.new.pass.number ≡ active.old.pass.number) }
{
    for _ in 0..times {
        move_at_last(rt, hall, active, routes.0);
        move_at_last(rt, hall, active, routes.1);
    }
}

/// Moves 1 on each of two routes so many times, seals and shows what waits, and does it again.
fn work<W: Wait>(
    rt: &W,
    alloc: Global,
    hall: &RoomHall<MemDisk>,
    worker: Worker,
    routes: (Route, Route),
    times: u32,
) -> Worked
    requires { IsWorker hall.now worker.0 worker.1.items }
    ensures { IsWorker hall.now result.0 result.1.items × (result.0.number ≡ worker.0.number) }
{
    let mut active = match begin(alloc, hall, worker) {
        Ok(active) => active,
        Err((pass, kept)) => return (pass, kept, 0),
    };
    move_often(rt, hall, &mut active, routes, times);
    let _shown = show(rt, hall, &mut active.pass);
    move_often(rt, hall, &mut active, routes, times);
    (active.pass, active.kept, active.met)
}

/// Both threads at once. Both move 1 between the accounts 1 and 2, in different directions, and then 1 between two accounts of their own.
fn both<R: Threads + Wait + Sync>(
    rt: &R,
    alloc: Global,
    hall: &RoomHall<MemDisk>,
    first: Worker,
    second: Worker,
    times: u32,
) -> (Worked, Worked)
    requires first { IsWorker hall.now first.0 first.1.items }
    requires second { IsWorker hall.now second.0 second.1.items }
    ensures first { IsWorker hall.now result.0.0 result.0.1.items × (result.0.0.number ≡ first.0.number) }
    ensures second { IsWorker hall.now result.1.0 result.1.1.items × (result.1.0.number ≡ second.0.number) }
{
    let (one, one_kept) = first;
    let (two, two_kept) = second;
    let forth = (Route { from: 1, to: 2 }, Route { from: 10, to: 11 });
    let back = (Route { from: 2, to: 1 }, Route { from: 20, to: 21 });
    join(
        rt,
        || -> Worked
            requires { IsWorker hall.now one one_kept.items }
            ensures { IsWorker hall.entry.now result.0 result.1.items × (result.0.number ≡ one.number) }
        { work(rt, alloc, hall, (one, one_kept), forth, times) },
        || -> Worked
            requires { IsWorker hall.now two two_kept.items }
            ensures { IsWorker hall.entry.now result.0 result.1.items × (result.0.number ≡ two.number) }
        { work(rt, alloc, hall, (two, two_kept), back, times) },
    )
}

/// Puts 100 into an account, and keeps the entry.
fn put_once<W: Wait>(rt: &W, hall: &RoomHall<MemDisk>, active: &mut Active, account: u8)
    requires { KeepsAll hall.now active.old.txn active.old.pass active.old.kept.items }
    ensures { KeepsAll hall.now active.new.txn active.new.pass active.new.kept.items × (active.new.pass.number ≡ active.old.pass.number) }
{
    let Some(call) = put_of(active.alloc, account, 100) else {
        return;
    };
    if active.kept.reserve(1).is_err() {
        return;
    }
    let calls = [call];
    let ended = run(rt, &mut active.txn, hall, &mut active.pass, &calls, 0);
    keep(&mut active.kept, ended);
}

/// Puts 100 into each of the four accounts from which is moved.
fn fill<W: Wait>(rt: &W, alloc: Global, hall: &RoomHall<MemDisk>, worker: Worker) -> Worker
    requires { IsWorker hall.now worker.0 worker.1.items }
    ensures { IsWorker hall.now result.0 result.1.items × (result.0.number ≡ worker.0.number) }
{
    let mut active = match begin(alloc, hall, worker) {
        Ok(active) => active,
        Err(worker) => return worker,
    };
    for account in [1u8, 2, 10, 20] {
        put_once(rt, hall, &mut active, account);
    }
    (active.pass, active.kept)
}

/// The sum of all accounts, as a transaction finds it that is then taken back.
fn sum_now<D: LogDisk>(alloc: Global, hall: &RoomHall<D>, pass: &mut Pass<View<D::Eye>>) -> u64
    requires idle { IsAtRest hall.now pass.old }
    ensures idle { IsAtRest hall.now pass.new }
    ensures stays { StaysOwn pass.old pass.new }
{
    let seat = seat_of(pass);
    let Some(mut txn) = fresh(alloc, seat) else {
        return 0;
    };
    let answered = answer(&mut txn, hall, pass, scan_of(alloc));
    let sum = match answered {
        Ok(()) => sum_of(txn.replies().last()),
        Err(_fault) => 0,
    };
    give_up(&mut txn, hall, pass, 0);
    sum
}

/// What a run of two threads leaves: the room, the sum of all accounts, what each committed, and how many tries of each a failing read ended.
#[derive(Drop)]
pub struct RunOfTwo {
    pub room: Room<MemDisk>,
    pub sum: u64,
    pub first: Vec<Committed>,
    pub second: Vec<Committed>,
    pub met: (u64, u64),
}

/// Opens a hall of two seats on a new disk in memory, which fails where the plan says so, fills four accounts, lets two threads make twice so many transfers on each of two routes at once, each with a
/// seal between, and ends the hall. The sum is 0 where the read of it is refused. None where there is no memory.
///
/// There is one history, in which each entry has the store's replies, and of which each thread was handed just its own entries, in their order.
pub fn two_threads<R: Threads + Wait + Sync>(
    rt: &R,
    alloc: Global,
    plan: FaultPlan,
    times: u32,
) -> Option<RunOfTwo>
    ensures history { IfSome result (λ made. IsRunOfTwo made.first.items made.second.items made.room) }
{
    let Two {
        hall,
        one,
        two,
        spare,
    } = open_two(alloc, 65_536, plan)?;
    let one = fill(rt, alloc, &hall, (one, Vec::new(alloc)));
    let two = (two, Vec::new(alloc));
    let ((mut one, first, first_met), (two, second, second_met)) = both(
        rt, alloc, &hall, one, two, times,
    );
    let sum = sum_now(alloc, &hall, &mut one);
    let room = end_two(alloc, hall, one, two, spare)?;
    Some(RunOfTwo {
        room,
        sum,
        first,
        second,
        met: (first_met, second_met),
    })
}
