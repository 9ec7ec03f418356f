//! The ends of a transaction.

ghost use Rattle.std.specs.Prelude.{◌≡◌, false, MatchOption};
ghost use Rattle.epoch_room.specs.declared.answers.Fit.TheVariants as fit;
ghost use Rattle.fine_places.specs.History as places;
ghost use Rattle.fine_hall.specs.Passes.{LacksPlace};
ghost use Rattle.hall_rooms.specs.Rooms.{IsRoomPass, beginning_of};
ghost use Rattle.txn_engine.specs.Faults.{refusal_of};
ghost use Rattle.txn_engine.specs.Txns.{Aborts, CommitsOr, IsOpenTxn};

use crate::sets::{settle_all, undo_all};
use crate::txn::{CommitFault, Committed, Txn};
use epoch_room::Fit;
use fine_hall::Pass;
use hall_rooms::RoomHall;
use log_disk::LogDisk;
use partition_hold::View;
use std::sync::Wait;

/// Why the room takes no rows, where it takes none.
fn refusal(answer: Fit) -> Option<CommitFault>
    ensures { MatchOption result (answer ≡ fit.Fits) (λ cause. answer ≡ refusal_of cause) }
{
    match answer {
        Fit::Fits => None,
        Fit::Shut { epoch } => Some(CommitFault::Shut { epoch }),
        Fit::Number { epoch, place } => Some(CommitFault::Number { epoch, place }),
        Fit::TooLarge { need, room } => Some(CommitFault::TooLarge { need, room }),
        Fit::Full {
            free,
            live,
            retired,
        } => Some(CommitFault::Full {
            free,
            live,
            retired,
        }),
        Fit::EpochFull { need, room } => Some(CommitFault::EpochFull { need, room }),
    }
}

impl Txn {
    /// Commits in one turn of the room, as one entry of the open epoch, gives all buckets back, and hands the entry out. It may wait for the room, and takes no
    /// memory.
    ///
    /// The number of entries that wait in the open epoch comes with it, this one included, as the room of this turn has it: they are those of the open epoch in
    /// all that the pass saw.
    ///
    /// What was done to the buckets is kept under the entry's epoch, and what is published is evicted, but for `keep` nodes of each bucket: up to a number that is
    /// not below the published one that the pass knew, nor above the one that it then knows. A refusal is the first that the numbers of the room give, which is
    /// handed back as it was found; the transaction is as it was.
    pub fn commit<D: LogDisk, W: Wait>(
        &mut self,
        rt: &W,
        hall: &RoomHall<D>,
        pass: &mut Pass<View<D::Eye>>,
        keep: usize,
    ) -> Result<Committed, CommitFault>
        requires pass { IsRoomPass hall.now pass.old }
        requires free { LacksPlace pass.old places.room }
        requires open { IsOpenTxn (beginning_of hall.now) self.old pass.old × (self.old.draft.failed ≡ false) }
        ensures pass { IsRoomPass hall.now pass.new × (pass.new.number ≡ pass.old.number) }
        ensures open { IsOpenTxn (beginning_of hall.now) self.new pass.new }
        ensures commits { CommitsOr (beginning_of hall.now) keep self.old self.new pass.old pass.new result }
    {
        let published = hall.published(pass);
        let mut room = hall.take_room(rt, pass);
        match refusal(room.fit(self.draft.cost())) {
            None => {
                let stamp = room.append(self.draft.log());
                let waiting = room.waiting();
                let entry = self.draft.take_entry();
                hall.give_room(pass, room, Some(&entry), stamp.epoch);
                settle_all(&mut self.locks, stamp.epoch, published, keep);
                self.given_back = self.locks.release_all(hall, pass);
                Ok(Committed {
                    stamp,
                    entry,
                    waiting,
                })
            }
            Some(cause) => {
                hall.give_room(pass, room, None, 0);
                Err(cause)
            }
        }
    }

    /// Takes back all that was done, after want of memory too, and gives all buckets back. It takes no turn and no memory, and waits for nobody.
    ///
    /// What is published is evicted from the buckets, but for `keep` nodes of each, up to the published number that the pass then knows.
    pub fn abort<D: LogDisk>(
        &mut self,
        hall: &RoomHall<D>,
        pass: &mut Pass<View<D::Eye>>,
        keep: usize,
    )
        requires pass { IsRoomPass hall.now pass.old }
        requires open { IsOpenTxn (beginning_of hall.now) self.old pass.old }
        ensures pass { IsRoomPass hall.now pass.new × (pass.new.number ≡ pass.old.number) }
        ensures open { IsOpenTxn (beginning_of hall.now) self.new pass.new }
        ensures aborts { Aborts (beginning_of hall.now) keep self.old self.new pass.old pass.new }
    {
        let published = hall.published(pass);
        undo_all(&mut self.locks, published, keep);
        self.given_back = self.locks.release_all(hall, pass);
        self.draft.clear();
    }
}
