//! The seal of what waits, and of a group.

ghost use Rattle.std.specs.Prelude.{◌≡◌, ◌≤◌, ℕ};
ghost use Rattle.fine_places.specs.History as places;
ghost use Rattle.fine_hall.specs.Passes.{LacksPlace};
ghost use Rattle.hall_rooms.specs.Rooms.{IsIdle, IsRoomPass, RoomPass, beginning_of};
ghost use Rattle.hall_rooms.specs.Turning.{SealsAndPosts};
ghost use Rattle.fine_model.specs.declared.ScriptTxn.{ScriptTxn as Scripted};
ghost use Rattle.txn_tries.specs.Committing.{IsPlaced, SealsOnce, SealsUpTo};
ghost use Rattle.txn_tries.specs.Turns.{RunsTurn};

use crate::faults::fault_of;
use crate::signals::Signals;
use crate::turn::TurnEnd;
use epoch_room::RoomFault;
use fine_hall::Pass;
use fine_model::{Gate, Options, Outcome, Point, RunFault};
use hall_rooms::{RoomHall, seal_and_post};
use log_disk::LogDisk;
use partition_hold::View;
use std::sync::Wait;
use txn_engine::Committed;

/// Seals what waits, posts views of it to all seats, and tells the merger.
pub(crate) fn seal<D: LogDisk, W: Wait>(
    rt: &W,
    hall: &RoomHall<D>,
    pass: &mut Pass<View<D::Eye>>,
    signals: &Signals,
) -> Result<u64, RoomFault>
    requires pass { IsRoomPass hall.now pass.old }
    requires free { LacksPlace pass.old places.room }
    ensures pass { IsRoomPass hall.now pass.new × (pass.new.number ≡ pass.old.number) }
    ensures seals { SealsAndPosts (beginning_of hall.now) pass.old pass.new result }
{
    let sealed = seal_and_post(rt, hall, pass);
    if sealed.is_ok() {
        signals.tell_news();
    }
    sealed
}

/// Seals what waits once, and tells whether an epoch is sealed then.
fn seal_once<D: LogDisk, G: Gate, W: Wait>(
    rt: &W,
    hall: &RoomHall<D>,
    pass: &mut Pass<View<D::Eye>>,
    epoch: u64,
    gate: &G,
    options: &Options,
    signals: &Signals,
) -> Result<bool, RunFault>
    requires idle { IsIdle hall.now pass.old }
    ensures idle { IsIdle hall.now pass.new }
    ensures seals { SealsOnce options.now.group (beginning_of hall.now) epoch pass.old pass.new result }
{
    match seal(rt, hall, pass, signals) {
        Ok(sealed) => {
            gate.at(pass.number(), Point::Sealed { epoch: sealed });
            Ok(sealed >= epoch)
        }
        Err(fault) => Err(fault_of(fault)),
    }
}

/// Seals what waits until an epoch is sealed, which is the open one, or was.
fn seal_up_to<D: LogDisk, G: Gate, W: Wait>(
    rt: &W,
    hall: &RoomHall<D>,
    pass: &mut Pass<View<D::Eye>>,
    epoch: u64,
    gate: &G,
    options: &Options,
    signals: &Signals,
) -> Result<(), RunFault>
    requires idle { IsIdle hall.now pass.old }
    ensures idle { IsIdle hall.now pass.new }
    ensures seals { SealsUpTo options.now.group (beginning_of hall.now) epoch pass.old pass.new result }
{
    for _ in rt.forever() {
        match seal_once(rt, hall, pass, epoch, gate, options, signals) {
            Ok(is_sealed) => {
                if is_sealed {
                    return Ok(());
                }
            }
            Err(fault) => return Err(fault),
        }
    }
    unreachable!()
}

/// Ends a transaction that was committed: where its entry fills a group, the epoch is sealed.
pub(crate) fn end_group<D: LogDisk, G: Gate, W: Wait>(
    rt: &W,
    hall: &RoomHall<D>,
    pass: &mut Pass<View<D::Eye>>,
    done: Committed,
    gate: &G,
    options: &Options,
    signals: &Signals,
) -> TurnEnd
    requires idle { IsIdle hall.now pass.old }
    requires group { 1 ≤ options.now.group }
    ensures idle { IsIdle hall.now pass.new × (pass.new.number ≡ pass.old.number) }
    ensures turn { (txn : Scripted) (turn : ℕ) (p : RoomPass) → IsPlaced options.now.group txn turn (beginning_of hall.now) p pass.old done → RunsTurn (beginning_of hall.now) options.now.group txn turn p pass.new result }
{
    let epoch = done.stamp.epoch;
    let is_due = done.waiting >= u64::from(options.group);
    let outcome = Outcome::Committed {
        place: done.stamp.place,
        epoch,
        entry: done.entry,
    };
    if !is_due {
        return TurnEnd::Done { outcome };
    }
    match seal_up_to(rt, hall, pass, epoch, gate, options, signals) {
        Ok(()) => TurnEnd::Done { outcome },
        Err(fault) => TurnEnd::Ended {
            done: Some(outcome),
            fault,
        },
    }
}
