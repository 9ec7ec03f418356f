//! Tables of the steps of two seats, one after another, with what each is to answer.

ghost use Rattle.std.specs.Prelude.{◌≡◌, ◌≤◌, [], IfSome, vec_capacity};
ghost use Rattle.hall_rooms.specs.Rooms.{beginning_of};
ghost use Rattle.txn_engine.specs.Txns.{IsBlankTxn};
ghost use Rattle.hall_accounts.specs.Going.{AreGoing, AreTwo, IsGoing, KeepsMarks};

use crate::halls::{Two, end_two, open_two};
use crate::steps::{Seat, Step, Told, take, take_back};
use crate::transfers::fresh;
use epoch_room::Counts;
use log_disk::{FaultPlan, MemDisk, MemEye};
use partition_hold::View;
use room_merges::MergeFault;
use std::alloc::Global;
use std::slice;
use std::sync::Wait;
use txn_engine::{RoomHall, Space, Txn, merge_next, try_room};

/// Both seats of a hall.
#[derive(Drop)]
struct Seats {
    one: Seat,
    two: Seat,
}

/// A step of one of two seats, or of both.
#[derive(Clone, Copy, Debug, PartialEq, Eq)]
pub enum Act {
    One(Step),
    Two(Step),
    /// Merges the first neighbours that fit, with the pass of the seat 1. What is open stays open, as after the next two.
    Merge,
    /// Makes room with both passes.
    TryRoom,
    /// Makes room with the pass of the seat 1 alone, which holds back what the views of the other name.
    TryAlone,
}

/// What is done, and what it answers.
#[derive(Clone, Copy, Debug, PartialEq, Eq)]
pub struct Line(pub Act, pub Told);

/// What came of a table.
#[derive(Clone, Copy, Debug, PartialEq, Eq)]
pub enum Outcome {
    /// Each line answered as it is to. The room in numbers, as the hall ended.
    Room(Counts),
    /// The first line that answered otherwise, with what it answered.
    Otherwise(Line),
    NoMemory,
}

fn told_merged(merged: Result<bool, MergeFault>) -> Told {
    match merged {
        Ok(merged) => Told::Merged(merged),
        Err(_fault) => Told::NotMerged,
    }
}

fn merge_now<W: Wait>(rt: &W, alloc: Global, hall: &RoomHall<MemDisk>, seat: &mut Seat) -> Told
    requires going { IsGoing hall.now seat.old.txn seat.old.pass }
    requires first { seat.old.pass.number ≡ 1 }
    ensures going { IsGoing hall.now seat.new.txn seat.new.pass × (seat.new.pass.number ≡ seat.old.pass.number) }
{
    told_merged(merge_next(rt, alloc, hall, &mut seat.pass, 0))
}

fn told_space(space: Result<Space, MergeFault>) -> Told {
    match space {
        Ok(space) => Told::Room(space),
        Err(_fault) => Told::NoRoom,
    }
}

fn try_room_now<W: Wait>(rt: &W, alloc: Global, hall: &RoomHall<MemDisk>, seats: &mut Seats) -> Told
    requires { AreGoing hall.now seats.old.one.txn seats.old.one.pass seats.old.two.txn seats.old.two.pass }
    ensures going { AreGoing hall.now seats.new.one.txn seats.new.one.pass seats.new.two.txn seats.new.two.pass }
    ensures marked { KeepsMarks seats.old.two.pass seats.new.two.pass }
{
    let others = slice::from_mut(&mut seats.two.pass);
    told_space(try_room(rt, alloc, hall, &mut seats.one.pass, others, 0))
}

fn try_alone_now<W: Wait>(rt: &W, alloc: Global, hall: &RoomHall<MemDisk>, seat: &mut Seat) -> Told
    requires going { IsGoing hall.now seat.old.txn seat.old.pass }
    requires first { seat.old.pass.number ≡ 1 }
    ensures going { IsGoing hall.now seat.new.txn seat.new.pass × (seat.new.pass.number ≡ seat.old.pass.number) }
{
    let mut none = Vec::new(alloc);
    let others = none.as_mut_slice();
    told_space(try_room(rt, alloc, hall, &mut seat.pass, others, 0))
}

fn do_act<W: Wait>(
    rt: &W,
    alloc: Global,
    hall: &RoomHall<MemDisk>,
    seats: &mut Seats,
    act: Act,
) -> Told
    requires { AreGoing hall.now seats.old.one.txn seats.old.one.pass seats.old.two.txn seats.old.two.pass }
    ensures { AreGoing hall.now seats.new.one.txn seats.new.one.pass seats.new.two.txn seats.new.two.pass }
{
    match act {
        Act::One(step) => take(rt, alloc, hall, &mut seats.one, step),
        Act::Two(step) => take(rt, alloc, hall, &mut seats.two, step),
        Act::Merge => merge_now(rt, alloc, hall, &mut seats.one),
        Act::TryRoom => try_room_now(rt, alloc, hall, seats),
        Act::TryAlone => try_alone_now(rt, alloc, hall, &mut seats.one),
    }
}

/// Goes through a table, up to the first line that answers otherwise.
fn walk<W: Wait>(
    rt: &W,
    alloc: Global,
    hall: &RoomHall<MemDisk>,
    seats: &mut Seats,
    table: &[Line],
) -> Option<Line>
    requires { AreGoing hall.now seats.old.one.txn seats.old.one.pass seats.old.two.txn seats.old.two.pass }
    ensures { AreGoing hall.now seats.new.one.txn seats.new.one.pass seats.new.two.txn seats.new.two.pass }
{
    for line in table {
        let told = do_act(rt, alloc, hall, seats, line.0);
        if told != line.1 {
            return Some(Line(line.0, told));
        }
    }
    None
}

/// What came of a table, whose hall ended so.
fn outcome_of(otherwise: Option<Line>, counts: Counts) -> Outcome {
    match otherwise {
        Some(line) => Outcome::Otherwise(line),
        None => Outcome::Room(counts),
    }
}

/// Ends the hall of two seats, with what is open taken back. None where there is no memory.
fn finish(
    alloc: Global,
    hall: RoomHall<MemDisk>,
    seats: Seats,
    spare: Vec<View<MemEye>>,
) -> Option<Counts>
    requires seats { (beginning_of hall).seats ≡ 2 }
    requires going { AreGoing hall seats.one.txn seats.one.pass seats.two.txn seats.two.pass }
    requires spare { (spare.items ≡ []) × (4 ≤ vec_capacity spare) }
{
    let Seats { mut one, mut two } = seats;
    take_back(&hall, &mut one);
    take_back(&hall, &mut two);
    let room = end_two(alloc, hall, one.pass, two.pass, spare)?;
    Some(room.counts())
}

/// Two transactions that hold nothing. None where there is no memory.
fn fresh_two(alloc: Global) -> Option<(Txn, Txn)>
    ensures { IfSome result (λ txns. IsBlankTxn txns.0 × IsBlankTxn txns.1) }
{
    let one = fresh(alloc, 1)?;
    let two = fresh(alloc, 2)?;
    Some((one, two))
}

/// Goes through a table on a hall of two seats with these transactions, and ends it.
fn walk_opened<W: Wait>(
    rt: &W,
    alloc: Global,
    opened: Two,
    txns: (Txn, Txn),
    table: &[Line],
) -> Option<Outcome>
    requires two { AreTwo opened.hall opened.one opened.two opened.spare.items (vec_capacity opened.spare) }
    requires free { IsBlankTxn txns.0 × IsBlankTxn txns.1 }
{
    let Two {
        hall,
        one,
        two,
        spare,
    } = opened;
    let mut seats = Seats {
        one: Seat {
            pass: one,
            txn: txns.0,
        },
        two: Seat {
            pass: two,
            txn: txns.1,
        },
    };
    let otherwise = walk(rt, alloc, &hall, &mut seats, table);
    let counts = finish(alloc, hall, seats, spare)?;
    Some(outcome_of(otherwise, counts))
}

/// Goes through a table on a new hall of two seats.
fn walk_all<W: Wait>(rt: &W, alloc: Global, plan: FaultPlan, table: &[Line]) -> Option<Outcome> {
    let txns = fresh_two(alloc)?;
    let opened = open_two(alloc, 4096, plan)?;
    walk_opened(rt, alloc, opened, txns, table)
}

/// What comes of a table on a new hall of two seats, on a disk in memory of eight regions of 4 KiB, which fails where the plan says so.
pub fn walked<W: Wait>(rt: &W, alloc: Global, plan: FaultPlan, table: &[Line]) -> Outcome {
    match walk_all(rt, alloc, plan, table) {
        Some(outcome) => outcome,
        None => Outcome::NoMemory,
    }
}
