//! One transaction of a script, tried until it comes to an end.

ghost use Rattle.std.specs.Prelude.{◌≡◌, ◌≤◌};
ghost use Rattle.fine_model.specs.Bounds.{FitsTxn};
ghost use Rattle.fine_model.specs.RowBytes.{longest_region};
ghost use Rattle.hall_rooms.specs.Rooms.{IsIdle, beginning_of};
ghost use Rattle.txn_engine.specs.Txns.{IsBlankTxn};
ghost use Rattle.txn_tries.specs.Answering.{IsAnswer};
ghost use Rattle.txn_tries.specs.Committing.{FinishesTurn, TriesTurn};
ghost use Rattle.txn_tries.specs.Going.{IsCommittable, IsGoing, txn_of};
ghost use Rattle.txn_tries.specs.Turns.{RunsTurn};

use crate::attempt::{Answered, answer};
use crate::committing::{CommitEnd, commit};
use crate::grouping::end_group;
use crate::signals::Signals;
use fine_hall::Pass;
use fine_model::{Ending, Gate, Options, Outcome, Point, RunFault, ScriptTxn};
use hall_rooms::RoomHall;
use log_disk::LogDisk;
use partition_hold::View;
use std::sync::Wait;
use std::thread;
use txn_engine::Txn;

/// What trying a transaction came to.
#[derive(Drop)]
pub enum TurnEnd {
    /// It has its outcome.
    Done {
        outcome: Outcome,
    },
    /// The last of the tries that were left met a bucket that another seat held. The transaction is undone.
    Tried,
    /// The log was full. The transaction is undone, and this was a try.
    Full,
    /// A fault ended it. It has an outcome where it was committed before, and the fault came as its group was sealed.
    Ended {
        done: Option<Outcome>,
        fault: RunFault,
    },
}

/// How often a transaction may still be tried, and whether its start was told to the gate.
#[derive(Clone, Copy, Debug, PartialEq, Eq)]
pub struct Tries {
    pub left: u32,
    pub is_begun: bool,
}

impl Tries {
    /// Tells the gate that a transaction starts, unless that was told.
    pub(crate) fn begin<G: Gate>(&mut self, gate: &G, who: u32, turn: u32) {
        if !self.is_begun {
            self.is_begun = true;
            gate.at(who, Point::TxnStart { turn });
        }
    }
}

/// Tells the gate that a transaction ended, where it did.
pub(crate) fn tell_end<G: Gate>(gate: &G, who: u32, turn: u32, end: &TurnEnd) {
    match end {
        TurnEnd::Done { outcome: _ } => gate.at(who, Point::TxnEnd { turn }),
        TurnEnd::Ended { done: _, fault: _ } => gate.at(who, Point::TxnEnd { turn }),
        TurnEnd::Tried => {}
        TurnEnd::Full => {}
    }
}

fn tell_sealed<G: Gate>(gate: &G, who: u32, sealed: Option<u64>) {
    if let Some(epoch) = sealed {
        gate.at(who, Point::Sealed { epoch });
    }
}

/// Commits a transaction all of whose calls were answered, or ends it as the room has it.
fn finish<D: LogDisk, G: Gate, W: Wait>(
    rt: &W,
    hall: &RoomHall<D>,
    pass: &mut Pass<View<D::Eye>>,
    txn: &mut Txn,
    gate: &G,
    options: &Options,
    signals: &Signals,
) -> TurnEnd
    requires region { (beginning_of hall.now).room.region_len ≤ longest_region }
    requires going { IsGoing hall.now txn.old pass.old }
    requires answered { IsCommittable txn.old.draft }
    requires group { 1 ≤ options.now.group }
    ensures { FinishesTurn hall.now options.now.group (txn_of txn.old.draft) txn.old.draft.turn txn.new pass.old pass.new result }
{
    let mut sealed = None;
    let end = commit(rt, hall, pass, txn, options, signals, &mut sealed);
    // no bucket is held any more
    tell_sealed(gate, pass.number(), sealed);
    match end {
        CommitEnd::Placed { done } => end_group(rt, hall, pass, done, gate, options, signals),
        CommitEnd::Over { end } => end,
    }
}

/// Ends a transaction all of whose calls were answered, as the script has it.
fn end_answered<D: LogDisk, G: Gate, W: Wait>(
    rt: &W,
    hall: &RoomHall<D>,
    pass: &mut Pass<View<D::Eye>>,
    txn: &mut Txn,
    scripted: &ScriptTxn,
    turn: u32,
    gate: &G,
    options: &Options,
    signals: &Signals,
) -> TurnEnd
    requires region { (beginning_of hall.now).room.region_len ≤ longest_region }
    requires going { IsGoing hall.now txn.old pass.old }
    requires answered { IsAnswer scripted.now turn txn.old.draft }
    requires group { 1 ≤ options.now.group }
    ensures { FinishesTurn hall.now options.now.group scripted.now turn txn.new pass.old pass.new result }
{
    match scripted.ending {
        Ending::Commit => finish(rt, hall, pass, txn, gate, options, signals),
        Ending::Abort => {
            txn.abort(hall, pass, options.keep as usize);
            TurnEnd::Done {
                outcome: Outcome::Aborted,
            }
        }
    }
}

/// Tries a transaction once. None where a call met a bucket that another seat held; the transaction is undone then.
fn try_turn<D: LogDisk, G: Gate, W: Wait>(
    rt: &W,
    hall: &RoomHall<D>,
    pass: &mut Pass<View<D::Eye>>,
    txn: &mut Txn,
    scripted: &ScriptTxn,
    turn: u32,
    gate: &G,
    options: &Options,
    signals: &Signals,
) -> Option<TurnEnd>
    requires region { (beginning_of hall.now).room.region_len ≤ longest_region }
    requires idle { IsIdle hall.now pass.old }
    requires blank { IsBlankTxn txn.old }
    requires scripted { FitsTxn scripted.now }
    requires group { 1 ≤ options.now.group }
    ensures { TriesTurn hall.now options.now.group scripted.now turn txn.new pass.old pass.new result }
{
    match answer(hall, pass, txn, scripted, turn, options.keep as usize) {
        Answered::All => Some(end_answered(
            rt, hall, pass, txn, scripted, turn, gate, options, signals,
        )),
        Answered::Conflict => None,
        Answered::Over { end } => Some(end),
    }
}

/// Tries a transaction as often as it may be tried.
fn try_often<D: LogDisk, G: Gate, W: Wait>(
    rt: &W,
    hall: &RoomHall<D>,
    pass: &mut Pass<View<D::Eye>>,
    txn: &mut Txn,
    scripted: &ScriptTxn,
    turn: u32,
    gate: &G,
    options: &Options,
    signals: &Signals,
    tries: &mut Tries,
) -> TurnEnd
    requires region { (beginning_of hall.now).room.region_len ≤ longest_region }
    requires idle { IsIdle hall.now pass.old }
    requires blank { IsBlankTxn txn.old }
    requires scripted { FitsTxn scripted.now }
    requires group { 1 ≤ options.now.group }
    ensures { FinishesTurn hall.now options.now.group scripted.now turn txn.new pass.old pass.new result }
{
    while tries.left > 0 {
        let tried = try_turn(rt, hall, pass, txn, scripted, turn, gate, options, signals);
        tries.left -= 1;
        if let Some(end) = tried {
            return end;
        }
        thread::yield_now();
    }
    TurnEnd::Tried
}

/// Runs the transaction with this number of the script on a pass that has nothing out: answers its calls, and commits
/// or aborts it.
///
/// A try that meets a bucket which another seat holds is undone, and another one follows, as long as some are left;
/// where none is, the answer is `Tried`. An epoch with too little place is
/// sealed for the transaction. A log that is full is not waited for: the answer is `Full`. Once an entry fills a group
/// of `options.group`, its epoch is sealed.
///
/// `tries` counts down with each try. The gate is called, for the pass's seat, with `TxnStart` unless `tries` says that
/// it was, with `TxnEnd` once the transaction has an outcome or a fault, and
/// with `Sealed` after each seal, but not while a bucket is held: of several seals for one transaction with the last
/// one's epoch.
pub fn run_turn<D: LogDisk, G: Gate, W: Wait>(
    rt: &W,
    hall: &RoomHall<D>,
    pass: &mut Pass<View<D::Eye>>,
    txn: &mut Txn,
    scripted: &ScriptTxn,
    turn: u32,
    gate: &G,
    options: &Options,
    signals: &Signals,
    tries: &mut Tries,
) -> TurnEnd
    requires region { (beginning_of hall.now).room.region_len ≤ longest_region }
    requires idle { IsIdle hall.now pass.old }
    requires blank { IsBlankTxn txn.old }
    requires scripted { FitsTxn scripted.now }
    requires group { 1 ≤ options.now.group }
    ensures idle { IsIdle hall.now pass.new × (pass.new.number ≡ pass.old.number) }
    ensures blank { IsBlankTxn txn.new }
    ensures turn { RunsTurn (beginning_of hall.now) options.now.group scripted.now turn pass.old pass.new result }
{
    let who = pass.number();
    tries.begin(gate, who, turn);
    let end = try_often(
        rt, hall, pass, txn, scripted, turn, gate, options, signals, tries,
    );
    tell_end(gate, who, turn, &end);
    end
}
