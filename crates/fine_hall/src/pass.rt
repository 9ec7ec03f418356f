//! Passes.

ghost use Rattle.std.specs.Prelude.{◌≡◌, [], ◌∷◌, Some};
ghost use Rattle.std.specs.Borrow.{sem};
ghost use Rattle.fine_hall.specs.Passes.{PassView};
ghost use Rattle.fine_hall.specs.Lent.{LendsFront};

use crate::law::Beginning;
use crate::turn::Turn;
use atomic_table::Badge;
use fine_boxes::Reads;
use fine_places::{PlaceSeat, View};
use std::mem;

/// What one seat of a hall knows and holds: its front, and while it has the room the back buffer of each seat. A thread takes, gives
/// back and reads by it.
#[derive(Drop)]
pub struct Pass<V> {
    pub(crate) badge: Badge<View<Beginning, Turn, Reads<Turn>>>,
    pub(crate) number: u32,
    pub(crate) front: Option<V>,
    pub(crate) buffer: u8,
    pub(crate) backs: [u8; 18],
}

pub(crate) type HallSeat<S> = PlaceSeat<S, Beginning, Turn, Reads<Turn>>;

impl<V> Pass<V> {
    /// The number of the pass's seat, from 1.
    pub fn number(&self) -> u32
        ensures { result ≡ self.now.number }
    {
        self.number
    }

    /// The pass's seat, for a step. `give_seat` gives it back.
    pub(crate) fn take_seat<S>(&mut self) -> HallSeat<S>
        requires { (v : PassView) × (self.old.badge.views ≡ v ∷ []) }
        ensures seat { (result.table_id ≡ self.old.badge.table_id) × (result.id ≡ self.old.badge.id) × (result.me.1 ≡ []) }
        ensures view { self.old.badge.views ≡ result.me.0 ∷ [] }
        ensures number { self.new.number ≡ self.old.number }
        ensures front { (self.new.front ≡ self.old.front) × (self.new.buffer ≡ self.old.buffer) × (self.new.backs ≡ self.old.backs) }
    {
        mem::replace(&mut self.badge, Badge::blank()).into_seat()
    }

    pub(crate) fn give_seat<S>(&mut self, seat: HallSeat<S>)
        requires { seat.me.1 ≡ [] }
        ensures seat { (self.new.badge.table_id ≡ seat.table_id) × (self.new.badge.id ≡ seat.id) }
        ensures view { self.new.badge.views ≡ seat.me.0 ∷ [] }
        ensures number { self.new.number ≡ self.old.number }
        ensures front { (self.new.front ≡ self.old.front) × (self.new.buffer ≡ self.old.buffer) × (self.new.backs ≡ self.old.backs) }
    {
        self.badge = seat.into_badge();
    }

    /// The front, to read through. It takes no memory.
    ///
    /// The pass goes on as a pass of its hall where nothing of the front but its count of faults has changed, and that has not fallen
    /// (`front_law`).
    pub fn view(&mut self) -> &mut V
        requires there { (v : V.row.Denot) × (self.old.front ≡ Some v) }
        ensures value { self.old.front ≡ Some result.now }
        ensures* writes_back { sem 𝓛 (LendsFront V.row self.entry result) }
    {
        match &mut self.front {
            Some(front) => front,
            None => unreachable!(),
        }
    }
}

/// A bucket was held by another seat, of this number.
#[derive(Clone, Copy, Debug, PartialEq, Eq)]
pub struct Conflict {
    pub bucket: u16,
    pub owner: u32,
}
