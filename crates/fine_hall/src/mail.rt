//! Views, and the published number.

ghost use Rattle.std.specs.Prelude.{◌≡◌, ◌<◌, ◌≤◌, ◌+◌, ◌-◌, ◌∷◌, ℕ, [], Some, MatchBool, slice_index};
ghost use Rattle.fine_places.specs.History as places;
ghost use Rattle.fine_model.specs.declared.law.ViewState.{ViewState};
ghost use Rattle.fine_model.specs.Views.{counting};
ghost use Rattle.fine_boxes.specs.declared.model.BoxNote.{BoxNote};
ghost use Rattle.fine_boxes.specs.declared.model.TurnNote.{TurnNote};

use crate::hall::{Hall, Seat};
use crate::law::Load;
use crate::pass::Pass;
use fine_boxes::{look, post, publish, published, refresh};
use fine_model::{BucketLaw, RoomLaw, ViewLaw};

impl<R: RoomLaw, B: BucketLaw, V: ViewLaw> Hall<R, B, V> {
    ghost use Rattle.fine_hall.specs.Passes.{HasPlace, IsHolder, published};
    ghost use Rattle.fine_hall.specs.Halls.{IsPassOf, begun, MayPost, Posts, Refreshes, FindsStale, IsAhead, LooksOnce, NamesFront, Publishes, Reads};

    /// Reads the published number. It never waits, and takes no memory.
    ///
    /// The pass then saw the history so far.
    pub fn published(&self, pass: &mut Pass<V>) -> u64
        requires pass { IsPassOf R.state R.origin V.state self.now pass.old }
        ensures pass { IsPassOf R.state R.origin V.state self.now pass.new × (pass.new.number ≡ pass.old.number) }
        ensures number { result ≡ published pass.new }
        ensures reads { Reads pass.old pass.new }
    {
        let mut seat: Seat<R, B, V> = pass.take_seat();
        let number = published(&self.table.shared, &mut seat);
        pass.give_seat(seat);
        number
    }

    /// Publishes an epoch, in a turn of the room. It takes no memory.
    ///
    /// The epoch is not below the published one, and a view up to it or later was posted to each seat in this turn.
    pub fn publish(&self, pass: &mut Pass<V>, epoch: u64)
        requires pass { IsPassOf R.state R.origin V.state self.now pass.old }
        requires held { HasPlace pass.old places.room }
        requires later { published pass.old ≤ epoch }
        requires posted { (t : TurnNote) × IsHolder (begun R.state R.origin V.state self.now) pass.old t × ((i : ℕ) → i < (begun R.state R.origin V.state self.now).seats → epoch ≤ slice_index t.posted i) }
        ensures pass { IsPassOf R.state R.origin V.state self.now pass.new × (pass.new.number ≡ pass.old.number) }
        ensures publishes { Publishes epoch pass.old pass.new }
    {
        let mut seat: Seat<R, B, V> = pass.take_seat();
        publish(&self.table.shared, &mut seat, epoch);
        pass.give_seat(seat);
    }

    /// Posts a view to a seat, in a turn of the room, and hands out the seat's old middle. It waits for nobody, and takes no memory.
    ///
    /// The view is for the buffer of the seat that the board leaves empty, shows the whole history up to its epoch, which is not below
    /// the sealed one nor that of any view posted in this turn, and has met no fault. The board of the turn then names it, and the old
    /// middle no longer; the count of the old middle is in the turn's hand.
    pub fn post(&self, pass: &mut Pass<V>, seat: u32, view: V) -> V
        requires pass { IsPassOf R.state R.origin V.state self.now pass.old }
        requires held { HasPlace pass.old places.room }
        requires seat { (1 ≤ seat) × (seat ≤ (begun R.state R.origin V.state self.now).seats) }
        requires view { (t : TurnNote) × IsHolder (begun R.state R.origin V.state self.now) pass.old t × MayPost (begun R.state R.origin V.state self.now) seat t pass.old (V.state view) }
        ensures pass { IsPassOf R.state R.origin V.state self.now pass.new × (pass.new.number ≡ pass.old.number) }
        ensures posts { (t : TurnNote) → IsHolder (begun R.state R.origin V.state self.now) pass.old t → Posts (begun R.state R.origin V.state self.now) seat t (V.state view) (V.state result) pass.old pass.new }
    {
        let mut own: Seat<R, B, V> = pass.take_seat();
        let back = pass.backs[(seat - 1) as usize];
        let (load, middle) = post(&self.table.shared, &mut own, seat, back, Load::View(view));
        pass.give_seat(own);
        pass.backs[(seat - 1) as usize] = middle;
        let Load::View(old) = load else {
            unreachable!()
        };
        old
    }

    /// Looks once at the pass's own mailbox, as `refresh` does.
    fn look_once(&self, pass: &mut Pass<V>) -> bool
        requires pass { IsPassOf R.state R.origin V.state self.now pass.old }
        ensures { LooksOnce V.state self.now.table.shared.table_id (begun R.state R.origin V.state self.now) pass.old pass.new result }
    {
        let mut seat: Seat<R, B, V> = pass.take_seat();
        let is_fresh = look(&self.table.shared, &mut seat, pass.number);
        if is_fresh {
            let Some(front) = pass.front.take() else {
                unreachable!()
            };
            let (load, buffer) = refresh(
                &self.table.shared,
                &mut seat,
                pass.number,
                pass.buffer,
                Load::View(front),
            );
            let Load::View(new) = load else {
                unreachable!()
            };
            let given_up = pass.front.replace(new);
            let None = given_up else { unreachable!() };
            pass.buffer = buffer;
            pass.give_seat(seat);
            true
        } else {
            pass.give_seat(seat);
            false
        }
    }

    /// Looks once at the pass's own mailbox, and exchanges front and middle where it is fresh; else the answer is false, and the front
    /// stays. It waits for nobody, and takes no memory.
    ///
    /// The pass then saw the history so far, which its front shows up to an epoch that is not below the published one. A new front
    /// shows no less than the old one, and has met no fault; the faults of the old one are among those that the pass gave up. In a turn of
    /// the pass the board names its front.
    pub fn refresh(&self, pass: &mut Pass<V>) -> bool
        requires pass { IsPassOf R.state R.origin V.state self.now pass.old }
        ensures pass { IsPassOf R.state R.origin V.state self.now pass.new × (pass.new.number ≡ pass.old.number) }
        ensures answer { MatchBool result (Refreshes V.state (begun R.state R.origin V.state self.now) pass.old pass.new) (FindsStale pass.old pass.new) }
        ensures ahead { IsAhead V.state (begun R.state R.origin V.state self.now) pass.new }
        ensures on_board { NamesFront V.state (begun R.state R.origin V.state self.now) pass.old pass.new }
    {
        self.look_once(pass)
    }
}
