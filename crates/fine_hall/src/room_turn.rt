//! The room's turn.

ghost use Rattle.std.specs.Prelude.{◌≡◌, ◌≤◌, ◌++◌, option_copied, option_map};
ghost use Rattle.fine_places.specs.History as places;
ghost use Rattle.fine_boxes.specs.declared.model.TurnNote.{TurnNote};

use crate::hall::{Hall, Seat};
use crate::law::Load;
use crate::pass::Pass;
use crossbeam_utils::Backoff;
use fine_model::{BucketLaw, Entry, RoomLaw, ViewLaw};
use fine_places::{ROOM, give, take};
use std::snapshot::Snapshot;
use std::sync::Wait;

impl<R: RoomLaw, B: BucketLaw, V: ViewLaw> Hall<R, B, V> {
    ghost use Rattle.fine_hall.specs.Laws.{IsRoomFor};
    ghost use Rattle.fine_hall.specs.Passes.{HasPlace, LacksPlace, IsHolder, published, turns};
    ghost use Rattle.fine_hall.specs.Halls.{IsPassOf, begun, TakesRoom, TriesToTakeRoom, MayGiveRoom, GivesRoom};

    /// One try to take the room.
    fn try_room(&self, pass: &mut Pass<V>) -> Option<R>
        requires pass { IsPassOf R.state R.origin V.state self.now pass.old }
        requires free { LacksPlace pass.old places.room }
        ensures { TriesToTakeRoom R.state R.origin R.stands_for V.state self.now.table.shared.table_id (begun R.state R.origin V.state self.now) pass.old pass.new result }
    {
        let mut seat: Seat<R, B, V> = pass.take_seat();
        let answer = take(&self.table.shared, &mut seat, ROOM, u64::from(pass.number));
        pass.give_seat(seat);
        match answer {
            Ok(load) => {
                let Load::Room {
                    room,
                    entry: _,
                    epoch: _,
                    backs,
                } = load
                else {
                    unreachable!()
                };
                pass.backs = backs;
                Some(room)
            }
            Err(_) => None,
        }
    }

    /// One try to take the room, unless a load finds it held. A load leaves the word in the cache of the seat that holds the room, which a try would take from it.
    fn try_if_free(&self, pass: &mut Pass<V>) -> Option<R>
        requires pass { IsPassOf R.state R.origin V.state self.now pass.old }
        requires free { LacksPlace pass.old places.room }
        ensures { TriesToTakeRoom R.state R.origin R.stands_for V.state self.now.table.shared.table_id (begun R.state R.origin V.state self.now) pass.old pass.new result }
    {
        if self.table.shared.peek(ROOM) != 0 {
            return None;
        }
        self.try_room(pass)
    }

    /// Takes the room, once no other seat holds it: a turn begins. It may wait, and takes no memory. Nothing says
    /// that the room is ever had.
    ///
    /// The room stands for the whole history so far, which the pass then saw, and is as it was given back last; its board names the
    /// pass's front. The seat with the number 1 finds the merge job as it left it.
    pub fn take_room<W: Wait>(&self, rt: &W, pass: &mut Pass<V>) -> R
        requires pass { IsPassOf R.state R.origin V.state self.now pass.old }
        requires free { LacksPlace pass.old places.room }
        ensures pass { IsPassOf R.state R.origin V.state self.now pass.new × (pass.new.number ≡ pass.old.number) }
        ensures takes { TakesRoom V.state (begun R.state R.origin V.state self.now) (R.state result) pass.old pass.new }
        ensures room { IsRoomFor R.state R.origin R.stands_for (begun R.state R.origin V.state self.now) (published pass.new) result (turns pass.new) }
    {
        let backoff = Backoff::new();
        for _ in rt.forever() {
            if let Some(room) = self.try_if_free(pass) {
                return room;
            }
            backoff.snooze();
        }
        unreachable!()
    }

    /// Gives the room back: the turn joins the list of turns, with an entry or none. With an entry, the history grows by it, with this
    /// epoch; without one, the epoch has no effect. It takes no memory.
    ///
    /// The room became what it is from what it was as it was taken, stands for the history with the entry, and has the board that the
    /// turn records; its sealed epoch is not below any posted view's, and its count of faults rose by no less than the counts of the old
    /// middles that were handed out in the turn. Only the seat with the number 1 may change the merge job. An entry is of the epoch
    /// behind the sealed one, is legal behind what the pass saw, and has calls and rows in buckets that the pass holds, and in no others.
    pub fn give_room(&self, pass: &mut Pass<V>, room: R, entry: Option<&Entry>, epoch: u64)
        requires pass { IsPassOf R.state R.origin V.state self.now pass.old }
        requires held { HasPlace pass.old places.room }
        requires room { (t : TurnNote) × IsHolder (begun R.state R.origin V.state self.now) pass.old t × MayGiveRoom R.state R.origin R.stands_for (begun R.state R.origin V.state self.now) room (option_copied entry) epoch t pass.old }
        ensures pass { IsPassOf R.state R.origin V.state self.now pass.new × (pass.new.number ≡ pass.old.number) }
        ensures gives { (t : TurnNote) → IsHolder (begun R.state R.origin V.state self.now) pass.old t → GivesRoom (R.state room) (option_copied entry.entry) epoch t pass.old pass.new }
    {
        let mut seat: Seat<R, B, V> = pass.take_seat();
        let entry = noted(entry);
        let backs = pass.backs;
        give(
            &self.table.shared,
            &mut seat,
            ROOM,
            Load::Room {
                room,
                entry,
                epoch,
                backs,
            },
        );
        pass.give_seat(seat);
    }
}

/// An entry for the history alone: it takes no bytes.
fn noted(entry: Option<&Entry>) -> Option<Snapshot<Entry>>
    ensures { option_map (λ note. note.value) result ≡ option_copied entry.entry }
{
    match entry {
        Some(entry) => Some(Snapshot::of(entry)),
        None => None,
    }
}
