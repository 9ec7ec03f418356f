//! One transaction of a script where the log is known to be full.

ghost use Rattle.std.specs.Prelude.{◌≡◌};
ghost use Rattle.fine_model.specs.Bounds.{FitsTxn};
ghost use Rattle.hall_rooms.specs.Rooms.{IsIdle, beginning_of};
ghost use Rattle.txn_engine.specs.Txns.{IsBlankTxn};
ghost use Rattle.txn_tries.specs.Answering.{IsAnswer};
ghost use Rattle.txn_tries.specs.Committing.{RefusesOnFull, TriesOnFull};
ghost use Rattle.txn_tries.specs.Faults.{refused_as, why_on_full};
ghost use Rattle.txn_tries.specs.Going.{IsGoing};
ghost use Rattle.txn_tries.specs.Turns.{RefusesTurn};

use crate::attempt::{Answered, answer};
use crate::faults::refused_as;
use crate::turn::{Tries, TurnEnd, tell_end};
use fine_hall::Pass;
use fine_model::{Gate, Options, ScriptTxn, Why};
use hall_rooms::RoomHall;
use log_disk::LogDisk;
use partition_hold::View;
use std::thread;
use txn_engine::Txn;

/// The bytes of the header of a partition of one region, with its gate.
const HEADER: u64 = 41;

/// Why rows are refused where the log is full: they alone need more bytes than a region has, or else the log is full.
fn why_on_full(cost: u64, region_len: u64) -> Why
    ensures { result ≡ why_on_full cost region_len }
{
    if cost.saturating_add(HEADER) > region_len {
        Why::Large
    } else {
        Why::Full
    }
}

/// Refuses a transaction all of whose calls were answered, and undoes it.
fn refuse<D: LogDisk>(
    hall: &RoomHall<D>,
    pass: &mut Pass<View<D::Eye>>,
    txn: &mut Txn,
    scripted: &ScriptTxn,
    options: &Options,
    region_len: u64,
) -> TurnEnd
    requires region { region_len ≡ (beginning_of hall.now).room.region_len }
    requires going { IsGoing hall.now txn.old pass.old }
    requires answered { IsAnswer scripted.now txn.old.draft.turn txn.old.draft }
    ensures { RefusesOnFull hall.now scripted.now txn.new pass.old pass.new result }
{
    let cost = txn.cost();
    txn.abort(hall, pass, options.keep as usize);
    TurnEnd::Done {
        outcome: refused_as(scripted.ending, why_on_full(cost, region_len)),
    }
}

/// Tries a transaction once. None where a call met a bucket that another seat held; the transaction is undone with each
/// answer.
fn try_on_full<D: LogDisk>(
    hall: &RoomHall<D>,
    pass: &mut Pass<View<D::Eye>>,
    txn: &mut Txn,
    scripted: &ScriptTxn,
    turn: u32,
    options: &Options,
    region_len: u64,
) -> Option<TurnEnd>
    requires region { region_len ≡ (beginning_of hall.now).room.region_len }
    requires idle { IsIdle hall.now pass.old }
    requires blank { IsBlankTxn txn.old }
    requires scripted { FitsTxn scripted.now }
    ensures { TriesOnFull hall.now scripted.now txn.new pass.old pass.new result }
{
    match answer(hall, pass, txn, scripted, turn, options.keep as usize) {
        Answered::All => Some(refuse(hall, pass, txn, scripted, options, region_len)),
        Answered::Conflict => None,
        Answered::Over { end } => Some(end),
    }
}

/// Tries a transaction as often as it may be tried.
fn try_often_on_full<D: LogDisk>(
    hall: &RoomHall<D>,
    pass: &mut Pass<View<D::Eye>>,
    txn: &mut Txn,
    scripted: &ScriptTxn,
    turn: u32,
    options: &Options,
    region_len: u64,
    tries: &mut Tries,
) -> TurnEnd
    requires region { region_len ≡ (beginning_of hall.now).room.region_len }
    requires idle { IsIdle hall.now pass.old }
    requires blank { IsBlankTxn txn.old }
    requires scripted { FitsTxn scripted.now }
    ensures { RefusesOnFull hall.now scripted.now txn.new pass.old pass.new result }
{
    while tries.left > 0 {
        let tried = try_on_full(hall, pass, txn, scripted, turn, options, region_len);
        tries.left -= 1;
        if let Some(end) = tried {
            return end;
        }
        thread::yield_now();
    }
    TurnEnd::Tried
}

/// Runs the transaction with this number of the script where the log is known to be full: answers its calls, and undoes
/// it without a turn of the room. `region_len` is the length of a region, in
/// bytes.
///
/// One that the script commits is refused, as too large where its rows alone need more than a region, and else for the
/// full log; one that it aborts is aborted. A refused call ends it as
/// `run_turn` says, and so do tries and the calls of the gate.
pub fn run_on_full<D: LogDisk, G: Gate>(
    hall: &RoomHall<D>,
    pass: &mut Pass<View<D::Eye>>,
    txn: &mut Txn,
    scripted: &ScriptTxn,
    turn: u32,
    gate: &G,
    options: &Options,
    region_len: u64,
    tries: &mut Tries,
) -> TurnEnd
    requires region { region_len ≡ (beginning_of hall.now).room.region_len }
    requires idle { IsIdle hall.now pass.old }
    requires blank { IsBlankTxn txn.old }
    requires scripted { FitsTxn scripted.now }
    ensures idle { IsIdle hall.now pass.new × (pass.new.number ≡ pass.old.number) }
    ensures blank { IsBlankTxn txn.new }
    ensures turn { RefusesTurn (beginning_of hall.now) scripted.now pass.old pass.new result }
{
    let who = pass.number();
    tries.begin(gate, who, turn);
    let end = try_often_on_full(hall, pass, txn, scripted, turn, options, region_len, tries);
    tell_end(gate, who, turn, &end);
    end
}
