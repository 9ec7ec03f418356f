//! What each step tells. These types are for contracts alone.

use crate::law::BoxLaw;
use crate::model::Reads;
use atomic_table::Play;
use fine_places::{PlaceLaw, View};
use std::marker::PhantomData;

/// What a seat knows of a table with mailboxes.
type BoxView<X, N> = View<X, N, Reads<N>>;

// ---- the published number

/// It was read.
pub struct Reading<L>(PhantomData<L>);

impl<T, X, N, L: PlaceLaw<T, X, N, Reads<N>>> Play<Option<T>, BoxView<X, N>> for Reading<L> {
    ghost use Rattle.fine_boxes.specs.Plays.{read};

    ghost then = { read L.legal L.touches };
}

/// It was written.
pub struct Publishing;

impl<T, X, N> Play<Option<T>, BoxView<X, N>> for Publishing {
    ghost use Rattle.fine_boxes.specs.Plays.{published};

    ghost then = { published };
}

// ---- a back

/// Its empty slot came into hand.
pub struct FetchingBack;

impl<T, X, N> Play<Option<T>, BoxView<X, N>> for FetchingBack {
    ghost use Rattle.fine_boxes.specs.Plays.{fetched_back};

    ghost then = { fetched_back };
}

/// A view was posted.
pub struct Posting<W>(PhantomData<W>);

impl<T, X, N, W: BoxLaw<T, X, N>> Play<Option<T>, BoxView<X, N>> for Posting<W> {
    ghost use Rattle.fine_boxes.specs.Plays.{posted};

    ghost then = { posted W.view };
}

/// Its empty slot went home.
pub struct LandingBack;

impl<T, X, N> Play<Option<T>, BoxView<X, N>> for LandingBack {
    ghost use Rattle.fine_boxes.specs.Plays.{landed_back};

    ghost then = { landed_back };
}

// ---- a front

/// A seat looked at its mailbox.
pub struct Looking<L, W>(PhantomData<(L, W)>);

impl<T, X, N, L: PlaceLaw<T, X, N, Reads<N>>, W: BoxLaw<T, X, N>> Play<Option<T>, BoxView<X, N>>
    for Looking<L, W> {
    ghost use Rattle.fine_boxes.specs.Plays.{looked};

    ghost then = { looked L.legal L.touches W.view W.shows };
}

/// It was exchanged with a middle.
pub struct Swapping<L, W>(PhantomData<(L, W)>);

impl<T, X, N, L: PlaceLaw<T, X, N, Reads<N>>, W: BoxLaw<T, X, N>> Play<Option<T>, BoxView<X, N>>
    for Swapping<L, W> {
    ghost use Rattle.fine_boxes.specs.Plays.{swapped};

    ghost then = { swapped L.legal L.touches W.view W.shows };
}

/// Its empty slot went home.
pub struct Landing;

impl<T, X, N> Play<Option<T>, BoxView<X, N>> for Landing {
    ghost use Rattle.fine_boxes.specs.Plays.{landed};

    ghost then = { landed };
}
