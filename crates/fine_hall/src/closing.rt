//! How a hall ends.

ghost use Rattle.std.specs.Prelude.{◌≡◌, ◌<◌, ◌≤◌, ◌+◌, ◌-◌, ◌*◌, ℕ, List, [], ◌∷◌, ◌++◌, Some, length, vec_len, vec_capacity};
ghost use Rattle.std.specs.Slots.{slots_items, slots_filled, slots_len, IsFull};
ghost use mathlib.Core.Option.{some};
ghost use lib.ListN.{get_elem?};
ghost use Rattle.fine_places.specs.Telling as telling;
ghost use Rattle.fine_places.specs.Telling.{IsSized};
ghost use Rattle.fine_hall.specs.declared.pass.Pass.{Pass};
ghost use Rattle.fine_hall.specs.Passes.{PassView, IsPass, HoldsNothing};
ghost use Rattle.fine_hall.specs.Halls.{begun_by};
ghost use Rattle.fine_hall.specs.Ending.{fronts_of, GathersAll, IsTakenTo, HoldsRoom, view_in_slot, views_from};

use crate::hall::{Hall, HallTable, Seat};
use crate::law::Load;
use crate::opening::{HallPlaces, room_in};
use crate::pass::{HallSeat, Pass};
use atomic_table::Closed;
use fine_model::{BucketLaw, RoomLaw, ViewLaw};
use fine_places::{PLACES, ROOM, join, shut};
use std::alloc::Global;

/// The seat of a pass, whose front comes back.
fn leave<S, V>(pass: Pass<V>, back: &mut Vec<V>) -> HallSeat<S>
    requires view { (v : PassView) × (pass.badge.views ≡ v ∷ []) }
    requires front { (v : V.row.Denot) × (pass.front ≡ Some v) }
    requires spare { vec_len back.old + 1 ≤ vec_capacity back.old }
    ensures seat { (result.table_id ≡ pass.badge.table_id) × (result.me.1 ≡ []) × (pass.badge.views ≡ result.me.0 ∷ []) }
    ensures front { back.new.items ≡ back.old.items ++ fronts_of (pass ∷ []) }
    ensures room { (vec_capacity back.new ≡ vec_capacity back.old) × (vec_len back.new ≡ vec_len back.old + 1) }
{
    let Pass {
        badge,
        number: _,
        front,
        buffer: _,
        backs: _,
    } = pass;
    let Some(front) = front else { unreachable!() };
    back.push_reserved(front);
    badge.into_seat()
}

/// One seat takes over the numbers of all passes, which hold nothing, and all that they know. Their fronts come back.
fn gather<R: RoomLaw, B: BucketLaw, V: ViewLaw + Drop>(
    places: &HallPlaces<R, B, V>,
    mut passes: Vec<Pass<V>>,
    back: &mut Vec<V>,
) -> Seat<R, B, V>
    requires passes { (i : ℕ) (p : Pass V.row.Denot) → get_elem? passes.items i ≡ some p → IsPass V.state places.now.table_id (begun_by R.state R.origin V.state places.now.key) p × HoldsNothing p }
    requires some_pass { 0 < length passes.items }
    requires table { IsSized places.now.table_id }
    requires spare { vec_len back.old + vec_len passes ≤ vec_capacity back.old }
    ensures seat { (result.table_id ≡ places.now.table_id) × (result.me.1 ≡ []) × telling.HoldsNothing result.me.0 }
    ensures all { GathersAll passes.items back.old.items back.new.items result.me.0 }
    ensures room { (vec_capacity back.new ≡ vec_capacity back.old) × (vec_len back.new ≡ vec_len back.old + vec_len passes) }
{
    let Some(last) = passes.pop() else {
        unreachable!()
    };
    let mut seat: Seat<R, B, V> = leave(last, back);
    while let Some(pass) = passes.pop() {
        join(places, &mut seat, leave(pass, back));
    }
    seat
}

/// Drops what lies in the slots of a table that ended, from one on and below another.
fn drop_slots<S: Drop>(closed: &mut Closed<S, Global>, from: usize, to: usize)
    requires range { (from ≤ to) × (to ≤ slots_len closed.old.slots) }
    requires taken { IsTakenTo (slots_filled closed.old.slots) (slots_len closed.old.slots) from }
    ensures taken { IsTakenTo (slots_filled closed.new.slots) (slots_len closed.new.slots) to }
    ensures same { (slots_items closed.new.slots ≡ slots_items closed.old.slots) × (slots_len closed.new.slots ≡ slots_len closed.old.slots) }
{
    for k in from..to {
        drop(closed.take(k));
    }
}

/// The view in a slot comes back, where there is one.
fn keep_view<R: Drop, B: Drop, V: Drop>(slot: Option<Load<R, B, V>>, back: &mut Vec<V>)
    requires spare { vec_len back.old + length (view_in_slot slot) ≤ vec_capacity back.old }
    ensures view { back.new.items ≡ back.old.items ++ view_in_slot slot }
    ensures room { vec_capacity back.new ≡ vec_capacity back.old }
{
    let Some(load) = slot else { return };
    let Load::View(view) = load else { return };
    back.push_reserved(view);
}

/// The views in slots come back, from one on and below another.
fn take_views<R: Drop, B: Drop, V: Drop>(
    closed: &mut Closed<Option<Load<R, B, V>>, Global>,
    from: usize,
    to: usize,
    back: &mut Vec<V>,
)
    requires range { (from ≤ to) × (to ≤ slots_len closed.old.slots) }
    requires taken { IsTakenTo (slots_filled closed.old.slots) (slots_len closed.old.slots) from }
    requires spare { vec_len back.old + length (views_from (slots_items closed.old.slots) from (to - from)) ≤ vec_capacity back.old }
    ensures taken { IsTakenTo (slots_filled closed.new.slots) (slots_len closed.new.slots) to }
    ensures same { (slots_items closed.new.slots ≡ slots_items closed.old.slots) × (slots_len closed.new.slots ≡ slots_len closed.old.slots) }
    ensures views { back.new.items ≡ back.old.items ++ views_from (slots_items closed.old.slots) from (to - from) }
    ensures room { vec_capacity back.new ≡ vec_capacity back.old }
{
    for k in from..to {
        keep_view(closed.take(k), back);
    }
}

/// The room and the middles of a table that ended. The buckets are dropped.
fn unload<R: Drop, B: Drop, V: Drop>(
    mut closed: Closed<Option<Load<R, B, V>>, Global>,
    seats: usize,
    back: &mut Vec<V>,
) -> R
    requires counts { (seats ≤ 18) × (257 + 3 * seats ≤ slots_len closed.slots) × IsFull closed.slots }
    requires room { (room : R.row.Denot) × HoldsRoom room (slots_items closed.slots) }
    requires spare { vec_len back.old + length (views_from (slots_items closed.slots) 257 (3 * seats)) ≤ vec_capacity back.old }
    ensures room { HoldsRoom result (slots_items closed.slots) }
    ensures views { back.new.items ≡ back.old.items ++ views_from (slots_items closed.slots) 257 (3 * seats) }
    ensures capacity { vec_capacity back.new ≡ vec_capacity back.old }
{
    let end = PLACES + 3 * seats;
    drop_slots(&mut closed, 0, ROOM);
    let slot = closed.take(ROOM);
    take_views(&mut closed, PLACES, end, back);
    let len = closed.slots.len();
    drop_slots(&mut closed, end, len);
    closed.free();
    room_in(slot)
}

impl<R: RoomLaw + Drop, B: BucketLaw + Drop, V: ViewLaw + Drop> Hall<R, B, V> {
    ghost use Rattle.fine_hall.specs.Passes.{LacksJob};
    ghost use Rattle.fine_hall.specs.Halls.{IsPassOf, begun, AreAll, Closes};

    /// Ends the hall with all its passes, which hold nothing, and hands out the room. The fronts and the middles come back behind what is
    /// in the list, which has room for two views a seat and does not grow. The buckets are dropped. It takes no memory, and cannot fail.
    ///
    /// There is one list of turns, which begins with what each pass saw, and of which what each pass added is its own part; the room
    /// stands for it. The board of the room names the views, each once, and no others. The counts of faults of the room and the views
    /// are together that of the room at the beginning and all faults that the passes met; they are fewer only where the room's count
    /// stands at its last value.
    pub fn close(self, passes: Vec<Pass<V>>, back: &mut Vec<V>) -> R
        requires passes { (i : ℕ) (p : Pass V.row.Denot) → get_elem? passes.items i ≡ some p → IsPassOf R.state R.origin V.state self p × HoldsNothing p × LacksJob (begun R.state R.origin V.state self) p }
        requires all { AreAll (begun R.state R.origin V.state self).seats passes.items }
        requires some_pass { 0 < length passes.items }
        requires spare { vec_len back.old + 2 * (begun R.state R.origin V.state self).seats ≤ vec_capacity back.old }
        ensures closes { (views : List V.row.Denot) × (back.new.items ≡ back.old.items ++ views) × Closes R.state R.origin R.stands_for V.state (begun R.state R.origin V.state self) passes.items views result }
        ensures capacity { vec_capacity back.new ≡ vec_capacity back.old }
    {
        let HallTable { table } = self;
        let seats = passes.len();
        let seat = gather(&table.shared, passes, back);
        unload(shut(table, seat), seats, back)
    }
}
