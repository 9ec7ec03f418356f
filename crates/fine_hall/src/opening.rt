//! How a hall begins.

ghost use Rattle.std.specs.Prelude.{◌≡◌, ◌<◌, ◌≤◌, ◌+◌, ◌*◌, ℕ, suc, [], ◌∷◌, ◌++◌, List, Option, Some, map, reverse, IfOk, IfErr, MatchOption, length, vec_len, vec_capacity, slice_index};
ghost use mathlib.Core.Option.{some};
ghost use lib.ListN.{get_elem?};
ghost use Rattle.fine_places.specs.Telling.{IsSized};
ghost use Rattle.fine_hall.specs.Passes.{HasTable};
ghost use Rattle.fine_hall.specs.declared.law.Beginning.{Beginning};
ghost use Rattle.fine_hall.specs.Laws.{beginning};
ghost use Rattle.fine_hall.specs.Halls.{begun_by, IsFreshView};
ghost use Rattle.fine_hall.specs.declared.law.Load.{Load};
ghost use Rattle.fine_hall.specs.Opening.{bucket_slot, room_slot, laid_places, laid_views, laid, IsRoomIn, first_words, StartsAll, HandedOut};

use crate::hall::{Hall, HallTable, Seat};
use crate::law::{Beginning, HallLaw, Load, Start};
use crate::pass::{HallSeat, Pass};
use crate::turn::Turn;
use atomic_table::Refused;
use fine_boxes::{Boxes, Reads};
use fine_model::{BucketLaw, NoMemory, RoomLaw, ViewLaw};
use fine_places::{PLACES, SharedPlaces, open, split};
use std::alloc::Global;
use std::snapshot::Snapshot;

type Slots<R, B, V> = Vec<Option<Load<R, B, V>>>;

pub(crate) type HallPlaces<R, B, V> = SharedPlaces<
    Load<R, B, V>,
    Beginning,
    Turn,
    Reads<Turn>,
    Start<R, V>,
    HallLaw<R, B, V>,
    Boxes<HallLaw<R, B, V>>,
>;

/// Moves the middles into slots, three for each, from the last on. Their memory comes back.
fn fill_views<R: Drop, B: Drop, V: Drop>(
    mut slots: Slots<R, B, V>,
    mut middles: Vec<V>,
) -> (Slots<R, B, V>, Vec<V>)
    requires slots { (slots.items ≡ []) × (3 * vec_len middles ≤ vec_capacity slots) }
    ensures slots { reverse result.0.items ≡ laid_views middles.items }
    ensures room { (vec_capacity result.0 ≡ vec_capacity slots) × (vec_len result.0 ≡ 3 * vec_len middles) }
    ensures emptied { (result.1.items ≡ []) × (vec_capacity result.1 ≡ vec_capacity middles) }
{
    while let Some(view) = middles.pop() {
        slots.push_reserved(None);
        slots.push_reserved(Some(Load::View(view)));
        slots.push_reserved(None);
    }
    (slots, middles)
}

/// Moves the room and the buckets into slots, behind those of the views, and turns all round. The memory of the buckets comes back.
fn fill_places<R: Drop, B: Drop, V: Drop>(
    mut slots: Slots<R, B, V>,
    room: R,
    mut buckets: Vec<B>,
) -> (Slots<R, B, V>, Vec<B>)
    requires slots { vec_len slots + vec_len buckets + 1 ≤ vec_capacity slots }
    ensures slots { result.0.items ≡ laid_places room buckets.items ++ reverse slots.items }
    ensures emptied { (result.1.items ≡ []) × (vec_capacity result.1 ≡ vec_capacity buckets) }
{
    slots.push_reserved(Some(Load::Room {
        room,
        entry: None,
        epoch: 0,
        backs: [2; 18],
    }));
    while let Some(bucket) = buckets.pop() {
        slots.push_reserved(Some(Load::Bucket(bucket)));
    }
    slots.reverse();
    (slots, buckets)
}

/// The last item of a list that has one.
fn take_last<S: Drop>(items: &mut Vec<S>) -> S
    requires { (front : List S) × (last : S) × (items.old.items ≡ front ++ last ∷ []) }
    ensures { items.old.items ≡ items.new.items ++ result ∷ [] }
{
    let Some(last) = items.pop() else {
        unreachable!()
    };
    last
}

/// The middle in the last three slots.
fn take_view<R: Drop, B: Drop, V: Drop>(slots: &mut Slots<R, B, V>) -> V
    requires { (front : List (Option (Load R B V))) × (v : V) × (slots.old.items ≡ front ++ laid_views (v ∷ [])) }
    ensures { slots.old.items ≡ slots.new.items ++ laid_views (result ∷ []) }
{
    let last = take_last(slots);
    let slot = take_last(slots);
    let first = take_last(slots);
    drop((last, first));
    let Some(load) = slot else { unreachable!() };
    let Load::View(view) = load else {
        unreachable!()
    };
    view
}

/// The room in a slot that has it.
pub(crate) fn room_in<R: Drop, B: Drop, V: Drop>(slot: Option<Load<R, B, V>>) -> R
    requires { (room : R) × IsRoomIn room slot }
    ensures { IsRoomIn result slot }
{
    let Some(load) = slot else { unreachable!() };
    let Load::Room {
        room,
        entry: _,
        epoch: _,
        backs: _,
    } = load
    else {
        unreachable!()
    };
    room
}

/// The room in the last slot.
fn take_room<R: Drop, B: Drop, V: Drop>(slots: &mut Slots<R, B, V>) -> R
    requires { (room : R) × (front : List (Option (Load R B V))) × (slots.old.items ≡ front ++ room_slot room ∷ []) }
    ensures { slots.old.items ≡ slots.new.items ++ room_slot result ∷ [] }
{
    room_in(take_last(slots))
}

/// The bucket in the last slot, where there is a slot.
fn take_bucket<R: Drop, B: Drop, V: Drop>(slots: &mut Slots<R, B, V>) -> Option<B>
    requires { (all : List B) × (slots.old.items ≡ map bucket_slot all) }
    ensures { MatchOption result (slots.old.items ≡ []) (λ bucket. slots.old.items ≡ slots.new.items ++ bucket_slot bucket ∷ []) }
{
    let slot = slots.pop()?;
    let Some(load) = slot else { unreachable!() };
    let Load::Bucket(bucket) = load else {
        unreachable!()
    };
    Some(bucket)
}

/// Moves the middles out of the last slots.
fn empty_views<R: Drop, B: Drop, V: Drop>(
    mut slots: Slots<R, B, V>,
    mut middles: Vec<V>,
    count: usize,
) -> (Slots<R, B, V>, Vec<V>)
    requires slots { (front : List (Option (Load R B V))) × (all : List V) × (slots.items ≡ front ++ laid_views all) × (length all ≡ count) }
    requires emptied { (middles.items ≡ []) × (count ≤ vec_capacity middles) }
    ensures slots { slots.items ≡ result.0.items ++ laid_views result.1.items }
    ensures count { length result.1.items ≡ count }
{
    for _ in 0..count {
        middles.push_reserved(take_view(&mut slots));
    }
    middles.reverse();
    (slots, middles)
}

/// Moves the room and the buckets out of slots.
fn empty_places<R: Drop, B: Drop, V: Drop>(
    mut slots: Slots<R, B, V>,
    mut buckets: Vec<B>,
) -> (R, Vec<B>)
    requires slots { (room : R) × (all : List B) × (slots.items ≡ laid_places room all) × (length all ≤ vec_capacity buckets) }
    requires emptied { buckets.items ≡ [] }
    ensures { slots.items ≡ laid_places result.0 result.1.items }
{
    let room = take_room(&mut slots);
    while let Some(bucket) = take_bucket(&mut slots) {
        buckets.push_reserved(bucket);
    }
    buckets.reverse();
    (room, buckets)
}
/// The first seat has all numbers, and keeps the least. Each pass gets its front.
fn hand_out<R: RoomLaw, B: BucketLaw, V: ViewLaw + Drop>(
    places: &HallPlaces<R, B, V>,
    mut seat: Seat<R, B, V>,
    mut fronts: Vec<V>,
    mut passes: Vec<Pass<V>>,
) -> Vec<Pass<V>>
    requires seats { (1 ≤ length fronts.items) × (length fronts.items ≤ 18) × (length fronts.items ≡ (begun_by R.state R.origin V.state places.now.key).seats) }
    requires places { (begun_by R.state R.origin V.state places.now.key).room.places ≡ 0 }
    requires fronts { (i : ℕ) (v : V.row.Denot) → get_elem? fronts.items i ≡ some v → IsFreshView (begun_by R.state R.origin V.state places.now.key) (suc i) 0 (V.state v) }
    requires passes { (passes.items ≡ []) × (length fronts.items ≤ vec_capacity passes) }
    requires table { (seat.table_id ≡ places.now.table_id) × IsSized places.now.table_id × HasTable (length fronts.items) places.now.table_id }
    requires first { StartsAll (length fronts.items) (begun_by R.state R.origin V.state places.now.key) (map V.state fronts.items) seat.me }
    ensures count { length result.items ≡ length fronts.items }
    ensures passes { HandedOut V.state places.now.table_id (begun_by R.state R.origin V.state places.now.key) fronts.items result.items }
{
    while fronts.len() > 1 {
        let number = fronts.len() as u32;
        let Some(front) = fronts.pop() else {
            unreachable!()
        };
        let other = split(places, &mut seat);
        passes.push_reserved(seated(other, number, front));
    }
    let Some(front) = fronts.pop() else {
        unreachable!()
    };
    passes.push_reserved(seated(seat, 1, front));
    passes
}

/// The pass of a seat.
fn seated<S, V>(seat: HallSeat<S>, number: u32, front: V) -> Pass<V>
    requires { seat.me.1 ≡ [] }
    ensures badge { (result.badge.table_id ≡ seat.table_id) × (result.badge.views ≡ seat.me.0 ∷ []) }
    ensures rest { (result.number ≡ number) × (result.front ≡ Some front) × (result.buffer ≡ 0) }
{
    Pass {
        badge: seat.into_badge(),
        number,
        front: Some(front),
        buffer: 0,
        backs: [2; 18],
    }
}

/// The words of a new hall, for the most seats: nothing is held and nothing published, and each mailbox has the middle 1, which is not
/// fresh.
fn first_words() -> [u64; 276]
    ensures long { length result ≡ 276 }
    ensures places { (k : ℕ) → k < 258 → slice_index result k ≡ 0 }
    ensures boxes { (i : ℕ) → i < 18 → slice_index result (258 + i) ≡ 2 }
{
    let mut words = [0; 276];
    for k in 258..276 {
        words[k] = 2;
    }
    words
}

impl<R: RoomLaw + Drop, B: BucketLaw + Drop, V: ViewLaw + Drop> Hall<R, B, V> {
    ghost use Rattle.fine_hall.specs.Halls.{begun, IsFreshHall, AreFreshBuckets};

    /// A hall of this room, these 256 buckets, and a front and a middle for each of 1 to 18 seats; and the passes, from the greatest
    /// number down. It is the only call that takes memory, and `NoMemory` hands everything back.
    ///
    /// The room is not shut, has no job out and nothing that waits, and stands for what its log showed at entry, with no history; its
    /// board names the fronts in the buffers 0, and the middles in the buffers 1. The buckets are empty, and in ascending order. Each
    /// view shows the log up to the sealed epoch, and has met no fault.
    pub fn new(
        alloc: Global,
        room: R,
        buckets: Vec<B>,
        fronts: Vec<V>,
        middles: Vec<V>,
    ) -> Result<(Hall<R, B, V>, Vec<Pass<V>>), (NoMemory, R, Vec<B>, Vec<V>, Vec<V>)>
        requires seats { (1 ≤ length fronts.items) × (length fronts.items ≤ 18) × (length middles.items ≡ length fronts.items) }
        requires buckets { AreFreshBuckets B.bucket B.cached B.is_settled buckets.items }
        requires fresh { IsFreshHall R.state V.state R.stands_for (beginning (length fronts.items) (R.origin room) (R.state room) V.state fronts.items) room fronts.items middles.items }
        ensures hall { IfOk result (λ made. begun R.state R.origin V.state made.0 ≡ beginning (length fronts.items) (R.origin room) (R.state room) V.state fronts.items) }
        ensures count { IfOk result (λ made. length made.1.items ≡ length fronts.items) }
        ensures passes { IfOk result (λ made. HandedOut V.state made.0.table.shared.table_id (begun R.state R.origin V.state made.0) fronts.items made.1.items) }
        ensures back { IfErr result (λ refused. (refused.1 ≡ room) × (refused.2.items ≡ buckets.items) × (refused.3.items ≡ fronts.items) × (refused.4.items ≡ middles.items)) }
    {
        let seats = fronts.len();
        let start = Start {
            room: Snapshot::of(&room),
            fronts: Snapshot::of(&fronts),
            seats: seats as u32,
        };
        let Ok(passes) = Vec::with_capacity(alloc, seats) else {
            return Err((NoMemory, room, buckets, fronts, middles));
        };
        let Ok(slots) = Vec::with_capacity(alloc, PLACES + 3 * seats) else {
            return Err((NoMemory, room, buckets, fronts, middles));
        };
        let words = first_words();
        let (slots, no_middles) = fill_views(slots, middles);
        let (slots, no_buckets) = fill_places(slots, room, buckets);
        match open(alloc, &words[..PLACES + 1 + seats], slots, &start) {
            Ok((table, seat)) => {
                let passes = hand_out(&table.shared, seat, fronts, passes);
                Ok((HallTable { table }, passes))
            }
            Err(Refused { slots }) => {
                let (slots, middles) = empty_views(slots, no_middles, seats);
                let (room, buckets) = empty_places(slots, no_buckets);
                Err((NoMemory, room, buckets, fronts, middles))
            }
        }
    }
}
