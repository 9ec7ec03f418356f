//! What a seat does at a mailbox, and at the published number.

ghost use Rattle.std.specs.Prelude.{◌≡◌, ◌+◌, ◌-◌, ◌*◌, ◌/◌, ◌<◌, ◌≤◌, ℕ, suc, [], ◌∷◌, slice_index, true, false, Some, None, if◌then◌else◌};
ghost use Rattle.fine_model.specs.declared.law.ViewState.{ViewState};
ghost use Rattle.fine_model.specs.Views.{counting};
ghost use Rattle.fine_places.specs.History.{room};
ghost use Rattle.fine_places.specs.Places.{Holds};
ghost use Rattle.fine_boxes.specs.declared.model.BoxNote.{BoxNote};
ghost use Rattle.fine_boxes.specs.declared.model.TurnNote.{TurnNote};
ghost use Rattle.fine_boxes.specs.Boxes as boxes;
ghost use Rattle.fine_boxes.specs.Telling.{landing, Looked, Refreshed, Posted};
ghost use Rattle.fine_boxes.specs.Plays.{HasBoxes, HasNote, MayRefresh, MayPostIt, MayPublish, ReadIt, WroteIt};

use crate::boxes::Boxes;
use crate::law::BoxLaw;
use crate::model::Reads;
use crate::plays::{
    FetchingBack, Landing, LandingBack, Looking, Posting, Publishing, Reading, Swapping,
};
use fine_places::{PLACES, PlaceLaw, PlaceSeat, SharedPlaces, StartLaw};

/// The word of the published number.
pub const PUBLISHED: usize = PLACES;

/// The word of the mailbox of a seat.
#[tactic(auto, unfolding(crate::specs::Boxes::mailbox, fine_places::specs::History::room))]
pub fn mailbox(number: u32) -> usize
    requires number { 0 < number }
    ensures word { result ≡ boxes.mailbox (number - 1) }
{
    PUBLISHED + number as usize
}

/// The slot of a buffer of a seat.
#[tactic(auto, unfolding(crate::specs::Boxes::slot, fine_places::specs::History::room))]
pub fn slot(number: u32, buffer: u8) -> usize
    requires number { 0 < number }
    ensures slot { result ≡ boxes.slot (number - 1) buffer }
{
    PLACES + (3 * (number as usize - 1) + buffer as usize)
}

/// The buffer that a mailbox has.
fn middle_in(found: u64) -> u8
    requires few { found < 6 }
    ensures half { result ≡ found / 2 }
{
    (found / 2) as u8
}

/// Looks once at the mailbox of a seat, which has the one number: whether it is fresh, that is, whether a view was posted since the
/// last refresh. The seat learns how the history goes on. Where the answer is false, its front shows it up to an epoch that
/// is not below the published one. Where it is true, the slot of its front is in hand, and `refresh` comes next.
pub fn look<T, X, N, K, L: PlaceLaw<T, X, N, Reads<N>> + StartLaw<X, K>, W: BoxLaw<T, X, N>>(
    places: &SharedPlaces<T, X, N, Reads<N>, K, L, Boxes<W>>,
    seat: &mut PlaceSeat<T, X, N, Reads<N>>,
    number: u32,
) -> bool
    requires table { (seat.old.table_id ≡ places.now.table_id) × HasBoxes (W.seats (L.start places.now.key)) places.now.table_id }
    requires number { (0 < number) × (number ≤ W.seats (L.start places.now.key)) }
    requires own { (m : BoxNote N) × HasNote seat.old.me.0.beside number m × (m.is_out ≡ false) }
    requires still { seat.old.me.1 ≡ [] }
    ensures table { (seat.new.table_id ≡ seat.old.table_id) × (seat.new.id ≡ seat.old.id) }
    ensures looked { (m : BoxNote N) → seat.old.me.0.beside.notes ≡ m ∷ [] → Looked L.legal L.touches W.shows m result seat.old.me.0 seat.new.me.0 }
    ensures hand { (m : BoxNote N) → seat.old.me.0.beside.notes ≡ m ∷ [] → seat.new.me.1 ≡ (if result then (boxes.slot (number - 1) m.front.buffer, None) ∷ [] else []) }
{
    places.load::<Looking<L, W>>(seat, mailbox(number)) % 2 == 1
}

/// Exchanges the front of a seat with the middle, once `look` found the mailbox fresh, and hands back the new front and its
/// buffer. The old front, of which nothing but the count of faults may have changed, is given up to the mailbox. The new
/// one shows no less than the old, and how the history goes on up to an epoch that is not below the published one.
pub fn refresh<T, X, N, K, L: PlaceLaw<T, X, N, Reads<N>> + StartLaw<X, K>, W: BoxLaw<T, X, N>>(
    places: &SharedPlaces<T, X, N, Reads<N>, K, L, Boxes<W>>,
    seat: &mut PlaceSeat<T, X, N, Reads<N>>,
    number: u32,
    buffer: u8,
    front: T,
) -> (T, u8)
    requires table { (seat.old.table_id ≡ places.now.table_id) × HasBoxes (W.seats (L.start places.now.key)) places.now.table_id }
    requires number { (0 < number) × (number ≤ W.seats (L.start places.now.key)) }
    requires may { MayRefresh W.view number buffer front seat.old.me }
    ensures table { (seat.new.table_id ≡ seat.old.table_id) × (seat.new.id ≡ seat.old.id) }
    ensures refreshed { (m : BoxNote N) (n : ℕ) → seat.old.me.0.beside.notes ≡ m ∷ [] → W.view front ≡ Some (counting m.front n)
        → (new : ViewState) × (W.view result.0 ≡ Some new) × (result.1 ≡ new.buffer) × Refreshed L.legal L.touches W.shows (landing m) n new seat.old.me.0 seat.new.me.0 }
    ensures hand { seat.new.me.1 ≡ [] }
{
    let empty = places.exchange(seat, slot(number, buffer), Some(front));
    let None = empty else { unreachable!() };
    let found = places.swap::<Swapping<L, W>>(seat, mailbox(number), 2 * buffer as u64);
    let middle = middle_in(found);
    let Some(new) = places.exchange(seat, slot(number, middle), None) else {
        unreachable!()
    };
    places.load::<Landing>(seat, mailbox(number));
    (new, middle)
}

/// Posts a view to a seat, in the turn of who holds the room, and hands back the old middle and its buffer, which is the seat's
/// back from now on. Whether or not the seat saw the old one, it finds the new one fresh.
pub fn post<T, X, N, K, L: PlaceLaw<T, X, N, Reads<N>> + StartLaw<X, K>, W: BoxLaw<T, X, N>>(
    places: &SharedPlaces<T, X, N, Reads<N>, K, L, Boxes<W>>,
    seat: &mut PlaceSeat<T, X, N, Reads<N>>,
    number: u32,
    back: u8,
    thing: T,
) -> (T, u8)
    requires table { (seat.old.table_id ≡ places.now.table_id) × HasBoxes (W.seats (L.start places.now.key)) places.now.table_id }
    requires number { (0 < number) × (number ≤ W.seats (L.start places.now.key)) }
    requires held { Holds seat.old.me.0.places room }
    requires may { MayPostIt W.view W.shows (L.start places.now.key) number back thing seat.old.me.0 }
    requires still { seat.old.me.1 ≡ [] }
    ensures table { (seat.new.table_id ≡ seat.old.table_id) × (seat.new.id ≡ seat.old.id) }
    ensures posted { (t : TurnNote) (new : ViewState) → seat.old.me.0.beside.turn ≡ Some t → W.view thing ≡ Some new
        → (old : ViewState) × (W.view result.0 ≡ Some old) × (result.1 ≡ old.buffer) × Posted t (number - 1) new old seat.old.me.0 seat.new.me.0 }
    ensures hand { seat.new.me.1 ≡ [] }
{
    places.load::<FetchingBack>(seat, mailbox(number));
    let empty = places.exchange(seat, slot(number, back), Some(thing));
    let None = empty else { unreachable!() };
    let found = places.swap::<Posting<W>>(seat, mailbox(number), 2 * back as u64 + 1);
    let middle = middle_in(found);
    let Some(old) = places.exchange(seat, slot(number, middle), None) else {
        unreachable!()
    };
    places.load::<LandingBack>(seat, mailbox(number));
    (old, middle)
}

/// Writes the published number, in the turn of who holds the room, once a view up to it was posted to each seat in this turn.
pub fn publish<T, X, N, K, L: PlaceLaw<T, X, N, Reads<N>> + StartLaw<X, K>, W: BoxLaw<T, X, N>>(
    places: &SharedPlaces<T, X, N, Reads<N>, K, L, Boxes<W>>,
    seat: &mut PlaceSeat<T, X, N, Reads<N>>,
    number: u64,
)
    requires table { (seat.old.table_id ≡ places.now.table_id) × HasBoxes (W.seats (L.start places.now.key)) places.now.table_id }
    requires seats { 0 < W.seats (L.start places.now.key) }
    requires held { Holds seat.old.me.0.places room }
    requires later { seat.old.me.0.places.published ≤ number }
    requires may { MayPublish (W.seats (L.start places.now.key)) number seat.old.me.0.beside }
    requires still { seat.old.me.1 ≡ [] }
    ensures table { (seat.new.table_id ≡ seat.old.table_id) × (seat.new.id ≡ seat.old.id) }
    ensures written { WroteIt number seat.old.me.0 seat.new.me.0 }
    ensures hand { seat.new.me.1 ≡ [] }
{
    places.store::<Publishing>(seat, PUBLISHED, number);
}

/// Reads the published number, which is not below what the seat knew of it. The seat learns how the history goes on.
pub fn published<T, X, N, K, L: PlaceLaw<T, X, N, Reads<N>> + StartLaw<X, K>, W: BoxLaw<T, X, N>>(
    places: &SharedPlaces<T, X, N, Reads<N>, K, L, Boxes<W>>,
    seat: &mut PlaceSeat<T, X, N, Reads<N>>,
) -> u64
    requires table { (seat.old.table_id ≡ places.now.table_id) × HasBoxes (W.seats (L.start places.now.key)) places.now.table_id }
    requires still { seat.old.me.1 ≡ [] }
    ensures table { (seat.new.table_id ≡ seat.old.table_id) × (seat.new.id ≡ seat.old.id) }
    ensures read { ReadIt L.legal L.touches result seat.old.me.0 seat.new.me.0 }
    ensures hand { seat.new.me.1 ≡ [] }
{
    places.load::<Reading<L>>(seat, PUBLISHED)
}
