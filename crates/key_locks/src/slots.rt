//! Values in places by number, with the numbers of the places that are filled.

ghost use Rattle.std.specs.Prelude.{◌≡◌, ◌<◌, ℕ, IfOk, MatchBool, MatchOption, None, Some, length, replicate, slice_get, slice_set, vec_capacity};
ghost use Rattle.std.specs.Option.{option_copied_mut};
ghost use Rattle.std.specs.Borrow.{sem};
ghost use Rattle.key_locks.specs.Lent.{LendsFilled, LendsPlace, LendsValue};
ghost use Rattle.key_locks.specs.Slots.{AreCounted, ChangesAt, EachBy, Empties, IsEmpty, IsFilled, LeavesAt};

use fine_model::NoMemory;
use std::alloc::Global;
use std::marker::Model;
use std::mem;

/// How many places there are.
const PLACES: u16 = 256;

/// Values in 256 places. Contracts see the list of the places.
///
/// The numbers of those that are filled are kept beside them, so that no empty place is looked at where only these matter.
#[derive(Drop)]
pub(crate) struct Slots<T> {
    places: Vec<Option<T>>,
    filled: Vec<u8>,
}

impl<T> Model for Slots<T> {
    ghost use Rattle.std.specs.Prelude.{List, Option, vec_capacity};
    ghost use Rattle.key_locks.specs.Slots.{AreReserved};

    ghost Value = { List (Option T) };

    ghost view = { λ s. s.places.items };

    ghost invariant = { λ s. AreReserved s.places.items s.filled.items (vec_capacity s.places) (vec_capacity s.filled) };
}

impl<T: Drop> Slots<T> {
    /// Places that are all empty. It is the only call that takes memory.
    pub(crate) fn new(alloc: Global) -> Result<Slots<T>, NoMemory>
        ensures { IfOk result (λ slots. slots ≡ replicate 256 None) }
    {
        let filled = Vec::with_capacity(alloc, usize::from(PLACES))?;
        let mut places = Vec::with_capacity(alloc, usize::from(PLACES))?;
        for _ in 0..PLACES {
            places.push_reserved(None);
        }
        Ok(Slots { places, filled })
    }

    /// Whether a place is filled.
    pub(crate) fn is_filled(&self, number: u16) -> bool
        requires { number < 256 }
        ensures { MatchBool result ((x : T) × IsFilled self.now number x) (IsEmpty self.now number) }
    {
        match &self.places[usize::from(number)] {
            Some(_) => true,
            None => false,
        }
    }

    /// What a place has, where it is filled.
    pub(crate) fn get(&mut self, number: u16) -> Option<&mut T>
        requires { number < 256 }
        ensures value { slice_get self.old number ≡ Some (option_copied_mut result) }
        ensures* writes_back { sem 𝓛 (LendsPlace T.row self.entry number result) }
    {
        if self.is_filled(number) {
            Some(self.value(number))
        } else {
            None
        }
    }

    fn value(&mut self, number: u16) -> &mut T
        requires filled { (number < 256) × ((x : T) × IsFilled self.old number x) }
        ensures value { IsFilled self.old number result.now }
        ensures* writes_back { sem 𝓛 (LendsValue T.row self.entry number result) }
    {
        filled_in(&mut self.places[usize::from(number)])
    }

    /// Fills an empty place.
    pub(crate) fn fill(&mut self, number: u16, value: T)
        requires { (number < 256) × IsEmpty self.old number }
        ensures { self.new ≡ slice_set self.old number (Some value) }
    {
        self.places[usize::from(number)] = Some(value);
        self.filled.push_reserved(number as u8);
    }

    /// Takes out what is in a filled place, with its number. None exactly where all places are empty.
    pub(crate) fn take_one(&mut self) -> Option<(u16, T)>
        ensures { MatchOption result (((k : ℕ) → k < 256 → IsEmpty self.old k) × (self.new ≡ self.old)) (λ taken. Empties self.old self.new taken.0 taken.1) }
    {
        let Some(number) = self.filled.pop() else {
            return None;
        };
        match mem::replace(&mut self.places[usize::from(number)], None) {
            Some(value) => Some((u16::from(number), value)),
            None => unreachable!(),
        }
    }

    /// Changes what each filled place has.
    pub(crate) fn each<F: Fn(&mut T)>(&mut self, change: F)
        requires { F.IsAlwaysCallable change }
        ensures { EachBy (LeavesAt F.Fn change) self.old self.new }
    {
        change_each(&mut self.places, self.filled.as_slice(), &change);
    }
}

/// What a filled place has.
fn filled_in<T>(place: &mut Option<T>) -> &mut T
    requires { (x : T) × (place.old ≡ Some x) }
    ensures value { place.old ≡ Some result.now }
    ensures* writes_back { sem 𝓛 (LendsFilled T.row place.entry result) }
{
    match place {
        Some(value) => value,
        None => unreachable!(),
    }
}

/// Changes what the places of these numbers have, each once.
fn change_each<T: Drop, F: Fn(&mut T)>(places: &mut Vec<Option<T>>, numbers: &[u8], change: &F)
    requires callable { F.IsAlwaysCallable change.now }
    requires counted { AreCounted numbers.now places.old.items }
    ensures size { length places.new.items ≡ length places.old.items }
    ensures capacity { vec_capacity places.new ≡ vec_capacity places.old }
    ensures each { EachBy (LeavesAt F.Fn change.now) places.old.items places.new.items }
{
    let mut left = numbers;
    while let Some((number, rest)) = left.split_first() {
        change_at(places, usize::from(*number), change);
        left = rest;
    }
}

fn change_at<T: Drop, F: Fn(&mut T)>(places: &mut Vec<Option<T>>, number: usize, change: &F)
    requires callable { F.IsAlwaysCallable change.now }
    requires filled { (x : T) × IsFilled places.old.items number x }
    ensures changes { ChangesAt (LeavesAt F.Fn change.now) number places.old.items places.new.items }
    ensures capacity { vec_capacity places.new ≡ vec_capacity places.old }
{
    change(filled_in(&mut places[number]));
}
