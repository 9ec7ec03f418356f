ghost use Rattle.std.specs.Prelude.{◌≡◌, ◌++◌, ◌∷◌, [], Some, None, Ok, Err, false, replicate, IfOk};
ghost use Rattle.fine_places.specs.Places.{opening_seat};
ghost use Rattle.fine_places.specs.Telling.{IsSized};
ghost use Rattle.fine_boxes.specs.Boxes.{first_notes};
ghost use Rattle.fine_boxes.specs.Plays.{HasBoxes};
ghost use Rattle.fine_boxes_tests.specs.Trial.{state_in, Rests};

use fine_boxes::{BoxLaw, Boxes, Reads, look, post, publish, published, refresh};
use fine_places::{PlaceLaw, PlaceSeat, Places, ROOM, StartLaw, give, open, take};
use std::alloc::Global;
use std::test::*;

/// A view by its buffer, or the room, or a bucket, by the back buffer of the one seat.
type Thing = Result<u8, u8>;

/// One seat, and things of which nothing is said but which buffer has a view.
struct OneSeat;

impl PlaceLaw<Thing, (), (), Reads<()>> for OneSeat {
    ghost stands = { λ _ _ _ _ _. Unit {0} };

    ghost grows = { λ _ _ _ _ _ _ _ _ _. tt };

    ghost legal = { λ _ _. Unit {0} };

    ghost seats = { λ _. 1 };

    ghost begins = { λ _. 0 };

    ghost touches = { λ _ _. false };

    ghost adds = { λ _ _. Some tt };
}

impl StartLaw<(), ()> for OneSeat {
    ghost start = { λ _. tt };
}

impl BoxLaw<Thing, (), ()> for OneSeat {
    ghost use Rattle.fine_boxes_tests.specs.Trial.{state_in, trial_view, trial_board, trial_backs};

    ghost seats = { λ _. 1 };

    ghost fronts = { λ _. state_in 0 ∷ [] };

    ghost view = { trial_view };

    ghost board = { trial_board };

    ghost sealed = { λ _. 5 };

    ghost backs = { trial_backs };

    ghost shows = { λ _ _ _. Unit {0} };

    ghost above = { λ _ _. Unit {0} };

    ghost returned = { λ _. 0 };

    ghost more = { λ _ _ _ _ _ _. tt };

    ghost anyway = { λ _ _ _ _ _. tt };

    ghost lower = { λ _ _ _ _ _. tt };
}

type TrialPlaces = Places<Thing, (), (), Reads<()>, (), OneSeat, Boxes<OneSeat>>;

type TrialSeat = PlaceSeat<Thing, (), (), Reads<()>>;

/// One more item.
fn with<X: Drop>(mut items: Vec<X>, item: X) -> Result<Vec<X>, Fail>
    ensures { IfOk result (λ v. v.items ≡ items.items ++ item ∷ []) }
{
    match items.push(item) {
        Ok(()) => Ok(items),
        Err(_) => Err(Fail::from("memory")),
    }
}

fn zeros(alloc: Global, count: usize) -> Result<Vec<u64>, Fail>
    ensures { IfOk result (λ v. v.items ≡ replicate count 0) }
{
    Ok(vec![in alloc; 0u64; count].ok().ok_or("memory")?)
}

fn rooms(alloc: Global, count: usize) -> Result<Vec<Option<Thing>>, Fail>
    ensures { IfOk result (λ v. v.items ≡ replicate count (Some (Err 2))) }
{
    Ok(vec![in alloc; Some(Err(2)); count].ok().ok_or("memory")?)
}

/// All places are free, nothing is published, and the mailbox has the buffer 1, which is not fresh.
fn words(alloc: Global) -> Result<Vec<u64>, Fail>
    ensures { IfOk result (λ v. v.items ≡ replicate 258 0 ++ 2 ∷ []) }
{
    let words = zeros(alloc, 258)?;
    with(words, 2)
}

/// The things of all places, and the one middle.
fn things(alloc: Global) -> Result<Vec<Option<Thing>>, Fail>
    ensures { IfOk result (λ v. v.items ≡ ((replicate 257 (Some (Err 2)) ++ None ∷ []) ++ Some (Ok 1) ∷ []) ++ None ∷ []) }
{
    let things = rooms(alloc, 257)?;
    let things = with(things, None)?;
    let things = with(things, Some(Ok(1)))?;
    with(things, None)
}

fn opened(alloc: Global) -> Result<(TrialPlaces, TrialSeat), Fail>
    ensures table { IfOk result (λ r. IsSized r.0.shared.table_id × HasBoxes 1 r.0.shared.table_id × (r.1.table_id ≡ r.0.shared.table_id)) }
    ensures seat { IfOk result (λ r. r.1.me ≡ (record { places = opening_seat 1 0 tt; beside = first_notes (state_in 0 ∷ []) }, [])) }
{
    let words = words(alloc)?;
    let things = things(alloc)?;
    let opened: Result<(TrialPlaces, TrialSeat), _> = open(alloc, words.as_slice(), things, &());
    match opened {
        Ok(opened) => Ok(opened),
        Err(_) => Err(Fail::from("memory")),
    }
}

/// The seat takes the room, posts itself a view for its back, publishes up to it, and gives the room back.
#[tactic(auto, unfolding(fine_places::specs::History::room))]
fn turn(places: &TrialPlaces, seat: &mut TrialSeat) -> Option<(Thing, u8)>
    requires table { (seat.old.table_id ≡ places.now.shared.table_id) × IsSized places.now.shared.table_id × HasBoxes 1 places.now.shared.table_id }
    requires rests { Rests seat.old.me }
    ensures table { seat.new.table_id ≡ seat.old.table_id }
    ensures notes { seat.new.me.0.beside.notes ≡ seat.old.me.0.beside.notes }
    ensures hand { seat.new.me.1 ≡ [] }
{
    let Ok(thing) = take(&places.shared, seat, ROOM, 1) else {
        return None;
    };
    let Err(back) = thing else {
        return None;
    };
    let number = published(&places.shared, seat);
    if number > 5 {
        return None;
    }
    let posted = post(&places.shared, seat, 1, back, Ok(back));
    publish(&places.shared, seat, 5);
    give(&places.shared, seat, ROOM, Err(posted.1));
    Some(posted)
}

#[test]
fn a_new_mailbox_is_not_fresh(rt: HostRuntime) -> Result<(), Fail> {
    let (places, mut seat) = opened(rt.alloc())?;
    let number = published(&places.shared, &mut seat);
    let fresh = look(&places.shared, &mut seat, 1);
    assert!(rt; number == 0 && !fresh);
    Ok(())
}

#[test]
#[tactic(auto, unfolding(fine_places::specs::History::room))]
fn a_seat_finds_what_was_posted(rt: HostRuntime) -> Result<(), Fail> {
    let (places, mut seat) = opened(rt.alloc())?;
    let posted = turn(&places, &mut seat);
    assert!(rt; posted == Some((Ok(1), 1)));
    let number = published(&places.shared, &mut seat);
    assert!(rt; number == 5);
    if !look(&places.shared, &mut seat, 1) {
        return Err(Fail::from("stale"));
    }
    let front = refresh(&places.shared, &mut seat, 1, 0, Ok(0));
    assert!(rt; front == (Ok(2), 2));
    Ok(())
}
