ghost use Rattle.std.specs.Prelude.{◌≡◌, Some, replicate, IfOk, false, None, []};
ghost use Rattle.fine_places.specs.Places.{opening_seat};
ghost use Rattle.fine_places.specs.Telling.{IsSized};

use fine_places::{Alone, PlaceLaw, PlaceSeat, Places, StartLaw, give, open, split, take};
use std::alloc::Global;
use std::test::*;

/// Two seats, and things of which nothing is said.
struct Plain;

impl PlaceLaw<u64, (), (), ()> for Plain {
    ghost stands = { λ _ _ _ _ _. Unit {0} };

    ghost grows = { λ _ _ _ _ _ _ _ _ _. tt };

    ghost legal = { λ _ _. Unit {0} };

    ghost seats = { λ _. 2 };

    ghost begins = { λ _. 0 };

    ghost touches = { λ _ _. false };

    ghost adds = { λ _ _. None };
}

impl StartLaw<(), ()> for Plain {
    ghost start = { λ _. tt };
}

fn words(alloc: Global, count: usize) -> Result<Vec<u64>, Fail>
    ensures { IfOk result (λ v. v.items ≡ replicate count 0) }
{
    Ok(vec![in alloc; 0u64; count].ok().ok_or("memory")?)
}

fn things(alloc: Global, count: usize) -> Result<Vec<Option<u64>>, Fail>
    ensures { IfOk result (λ v. v.items ≡ replicate count (Some 7)) }
{
    Ok(vec![in alloc; Some(7u64); count].ok().ok_or("memory")?)
}

type PlainPlaces = Places<u64, (), (), (), (), Plain, Alone>;

type PlainSeat = PlaceSeat<u64, (), (), ()>;

fn opened(alloc: Global) -> Result<(PlainPlaces, PlainSeat), Fail>
    ensures table { IfOk result (λ r. IsSized r.0.shared.table_id × (r.1.table_id ≡ r.0.shared.table_id)) }
    ensures seat { IfOk result (λ r. r.1.me ≡ (record { places = opening_seat 2 0 tt; beside = tt }, [])) }
{
    let words = words(alloc, 257)?;
    let things = things(alloc, 257)?;
    let opened: Result<(PlainPlaces, PlainSeat), _> = open(alloc, words.as_slice(), things, &());
    match opened {
        Ok(opened) => Ok(opened),
        Err(_) => Err(Fail::from("memory")),
    }
}

#[test]
#[tactic(auto, unfolding(fine_places::specs::History::room))]
fn a_place_has_one_holder(rt: HostRuntime) -> Result<(), Fail> {
    let (places, mut first) = opened(rt.alloc())?;
    let mut second = split(&places.shared, &mut first);
    let had = take(&places.shared, &mut first, 99, 1);
    let refused = take(&places.shared, &mut second, 99, 2);
    assert!(rt; had == Ok(7) && refused == Err(1));
    give(&places.shared, &mut first, 99, 8);
    let had = take(&places.shared, &mut second, 99, 2);
    assert!(rt; had == Ok(8));
    Ok(())
}
