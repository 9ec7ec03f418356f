//! What a seat does at one place: it takes the thing there, or gives one back. And how a table opens and ends.

ghost use Rattle.std.specs.Prelude.{◌≡◌, ◌≢◌, ◌<◌, ◌≤◌, ℕ, suc, [], ◌∷◌, length, slice_index, false, Some, None, MatchResult, IfOk, IfErr};
ghost use mathlib.Core.Option.{some};
ghost use lib.ListN.{get_elem?};
ghost use Rattle.std.specs.Slots.{slots_items, slots_len, IsFull};
ghost use Rattle.atomic_table.specs.Table.{opening};
ghost use Rattle.fine_places.specs.History.{room, most_seats, Owned};
ghost use Rattle.fine_places.specs.Places.{Holds, opening_seat, without_first, only_first, joined, shares_of};
ghost use Rattle.fine_places.specs.Beside.{StepsBeside};
ghost use Rattle.fine_places.specs.Telling.{TookIt, FoundHeld, GivesIt, given_back, IsStill, HoldsNothing, IsSized, Ended};

use crate::beside::BesideLaw;
use crate::law::{PlaceLaw, Rule, StartLaw};
use crate::model::View;
use crate::plays::{Fetched, Gave, JoinSeat, Settled, SplitSeat, Took};
use atomic_table::{Closed, Play, Refused, Seat, Table};
use std::alloc::Global;

/// The places as threads share them.
pub type SharedPlaces<T, X, N, Y, K, L, E> = atomic_table::Shared<
    Option<T>,
    View<X, N, Y>,
    K,
    Rule<L, E>,
>;

/// The places with their memory.
pub type Places<T, X, N, Y, K, L, E> = Table<Option<T>, View<X, N, Y>, K, Rule<L, E>, Global>;

/// A seat at the places.
pub type PlaceSeat<T, X, N, Y> = Seat<Option<T>, View<X, N, Y>>;

/// Takes the thing at a place that the seat does not hold, under one of the seat's numbers. Where a compare-exchange finds that another
/// seat holds the place, the number found is handed back, and nothing changes but that the seat knows it.
pub fn take<T, X, N, Y, K, L: PlaceLaw<T, X, N, Y> + StartLaw<X, K>, E: BesideLaw<T, X, N, Y>>(
    places: &SharedPlaces<T, X, N, Y, K, L, E>,
    seat: &mut PlaceSeat<T, X, N, Y>,
    place: usize,
    number: u64,
) -> Result<T, u64>
    requires table { (seat.old.table_id ≡ places.now.table_id) × IsSized places.now.table_id }
    requires still { IsStill seat.old.me }
    requires own { Owned seat.old.me.0.places.shares number }
    requires vacant { get_elem? seat.old.me.0.places.held place ≡ some false }
    requires within { place ≤ room }
    ensures table { (seat.new.table_id ≡ seat.old.table_id) × (seat.new.id ≡ seat.old.id) × (seat.new.me.1 ≡ []) }
    ensures took { MatchResult result (λ thing. TookIt L.stands L.legal L.touches E.taken E.learns place seat.old.me.0 thing seat.new.me.0) (λ owner. FoundHeld L.seats place seat.old.me.0 owner seat.new.me.0) }
{
    let found = places.compare_exchange::<Took<L, E>>(seat, place, 0, number);
    if found != 0 {
        return Err(found);
    }
    let Some(thing) = places.exchange(seat, place, None) else {
        unreachable!()
    };
    places.load::<Settled>(seat, place);
    Ok(thing)
}

/// Gives a thing back to a place that the seat holds, with what it adds to the history.
pub fn give<T, X, N, Y, K, L: PlaceLaw<T, X, N, Y> + StartLaw<X, K>, E: BesideLaw<T, X, N, Y>>(
    places: &SharedPlaces<T, X, N, Y, K, L, E>,
    seat: &mut PlaceSeat<T, X, N, Y>,
    place: usize,
    thing: T,
)
    requires table { (seat.old.table_id ≡ places.now.table_id) × IsSized places.now.table_id × (seat.old.me.0.places.about ≡ Some (L.start places.now.key)) }
    requires still { IsStill seat.old.me }
    requires held { Holds seat.old.me.0.places place }
    requires within { place ≤ room }
    requires gives { GivesIt L.stands L.legal L.touches L.adds E.owes (L.start places.now.key) place seat.old.me.0 thing }
    ensures table { (seat.new.table_id ≡ seat.old.table_id) × (seat.new.id ≡ seat.old.id) }
    ensures gave { seat.new.me ≡ (given_back L.adds E.given seat.old.me.0 place thing, []) }
{
    places.load::<Fetched>(seat, place);
    let empty = places.exchange(seat, place, Some(thing));
    let None = empty else { unreachable!() };
    places.store::<Gave<L, E>>(seat, place, 0);
}

/// Opens a table. Its first words are those of the places, and all 0; so are its first slots, and each has its thing. The first
/// seat has all numbers. Where there is no memory, the slots come back.
pub fn open<T, X, N, Y, K, L: PlaceLaw<T, X, N, Y> + StartLaw<X, K>, E: BesideLaw<T, X, N, Y>>(
    alloc: Global,
    words: &[u64],
    slots: Vec<Option<T>>,
    key: &K,
) -> Result<(Places<T, X, N, Y, K, L, E>, PlaceSeat<T, X, N, Y>), Refused<Option<T>, Global>>
    requires counts { (suc room ≤ length words.now) × (suc room ≤ length slots.items) }
    requires seats { (0 < L.seats (L.start key.now)) × (L.seats (L.start key.now) ≤ most_seats) }
    requires legal { L.legal (L.start key.now) [] }
    requires free { (k : ℕ) → k ≤ room → slice_index words.now k ≡ 0 }
    requires stands { (k : ℕ) → k ≤ room → (thing : T) × (get_elem? slots.items k ≡ some (Some thing)) × L.stands (L.start key.now) k (L.begins (L.start key.now)) thing [] }
    requires beside { E.keeps (L.start key.now) (L.begins (L.start key.now)) [] (opening words.now slots.items (record { places = opening_seat (L.seats (L.start key.now)) (L.begins (L.start key.now)) (L.start key.now); beside = E.first (L.start key.now) })) }
    ensures table { IfOk result (λ r. IsSized r.0.shared.table_id × (r.1.table_id ≡ r.0.shared.table_id) × (r.0.shared.key ≡ key.now)) }
    ensures counts { IfOk result (λ r. (r.0.shared.table_id.words ≡ length words.now) × (r.0.shared.table_id.slots ≡ length slots.items)) }
    ensures seat { IfOk result (λ r. r.1.me ≡ (record { places = opening_seat (L.seats (L.start key.now)) (L.begins (L.start key.now)) (L.start key.now); beside = E.first (L.start key.now) }, [])) }
    ensures refused { IfErr result (λ r. r.slots.items ≡ slots.items) }
{
    Table::new(alloc, words, slots, key)
}

/// Makes a new seat, which gets the greatest number of a seat that has more than one, added nothing and holds nothing.
pub fn split<T, X, N, Y, K, L: PlaceLaw<T, X, N, Y> + StartLaw<X, K>, E: BesideLaw<T, X, N, Y>>(
    places: &SharedPlaces<T, X, N, Y, K, L, E>,
    seat: &mut PlaceSeat<T, X, N, Y>,
) -> PlaceSeat<T, X, N, Y>
    requires table { (seat.old.table_id ≡ places.now.table_id) × IsSized places.now.table_id }
    requires numbers { (n : ℕ) × (seat.old.me.0.places.shares ≡ shares_of (suc (suc n))) }
    requires empty { HoldsNothing seat.old.me.0 }
    ensures table { (seat.new.table_id ≡ seat.old.table_id) × (seat.new.id ≡ seat.old.id) × (result.table_id ≡ seat.old.table_id) }
    ensures this { seat.new.me ≡ (record { places = without_first seat.old.me.0.places; beside = E.left seat.old.me.0.beside }, seat.old.me.1) }
    ensures other { result.me ≡ (record { places = only_first seat.old.me.0.places; beside = E.right seat.old.me.0.beside }, []) }
{
    places.split_seat::<SplitSeat<T, E>>(seat)
}

/// Takes over the numbers, and all else that another seat knows. Both hold nothing.
pub fn join<T, X, N, Y, K, L: PlaceLaw<T, X, N, Y> + StartLaw<X, K>, E: BesideLaw<T, X, N, Y>>(
    places: &SharedPlaces<T, X, N, Y, K, L, E>,
    seat: &mut PlaceSeat<T, X, N, Y>,
    other: PlaceSeat<T, X, N, Y>,
)
    requires table { (seat.old.table_id ≡ places.now.table_id) × (other.table_id ≡ places.now.table_id) × IsSized places.now.table_id }
    requires empty { HoldsNothing seat.old.me.0 × HoldsNothing other.me.0 × (other.me.1 ≡ []) }
    ensures table { (seat.new.table_id ≡ seat.old.table_id) × (seat.new.id ≡ seat.old.id) }
    ensures joined { seat.new.me ≡ (record { places = joined seat.old.me.0.places other.me.0.places; beside = E.both seat.old.me.0.beside other.me.0.beside }, seat.old.me.1) }
{
    places.join_seat::<JoinSeat<T, E>>(seat, other);
}

/// Ends a table, once one seat has the numbers of all and holds nothing.
pub fn shut<T, X, N, Y, K, L: PlaceLaw<T, X, N, Y> + StartLaw<X, K>, E: BesideLaw<T, X, N, Y>>(
    places: Places<T, X, N, Y, K, L, E>,
    seat: PlaceSeat<T, X, N, Y>,
) -> Closed<Option<T>, Global>
    requires table { (seat.table_id ≡ places.shared.table_id) × IsSized places.shared.table_id }
    requires empty { HoldsNothing seat.me.0 }
    requires all { (n : ℕ) → 0 < n → n ≤ L.seats (L.start places.shared.key) → Owned seat.me.0.places.shares n }
    ensures counts { (slots_len result.slots ≡ places.shared.table_id.slots) × IsFull result.words × IsFull result.slots }
    ensures ended { Ended L.stands L.legal L.seats L.touches E.keeps (L.start places.shared.key) seat.id seat.me.0 (slots_items result.slots) }
{
    places.close_with(seat)
}

/// A step at a word behind the places, which may see the history and, in the hand of who holds the room, raise the published
/// number, keeps the rule of the table where it keeps what is kept beside the places.
pub fn beside_law<
    T,
    X,
    N,
    Y,
    L: PlaceLaw<T, X, N, Y>,
    E: BesideLaw<T, X, N, Y>,
    P: Play<Option<T>, View<X, N, Y>>,
>()
    ensures law { StepsBeside L.stands L.legal L.seats L.touches E.keeps P.then }
{}
