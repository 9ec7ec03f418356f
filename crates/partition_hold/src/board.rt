//! The board of the views.

ghost use Rattle.std.specs.Prelude.{◌≡◌, ◌+◌, ◌*◌, ◌<◌, ◌≤◌, IfOk, IfSome, IsSome, None, Some, List, length, option_map, replicate, slice_set};
ghost use Rattle.partition_hold.specs.Cited.{AllByRecursion, Eye, most_in_log};
ghost use Rattle.fine_model.specs.Boards.{Buffer, buffer_at, empty_of, first_from, is_empty, names_region, naming_of};
ghost use Rattle.partition_hold.specs.Boards.{buffers_of, held_of};
ghost use Rattle.partition_hold.specs.Views.{opened};

use crate::regions::RegionSet;
use fine_model::NoMemory;
use log_disk::LogEye;
use std::alloc::Global;
use std::marker::Model;
use std::snapshot::Snapshot;

/// The buffers of a seat.
const BUFFERS: usize = 3;

/// What a buffer holds: the number of an eye, its regions, and what contracts see of the eye, which takes no bytes.
#[derive(Drop)]
struct Held<E: LogEye> {
    eye: u64,
    regions: RegionSet,
    seen: Snapshot<E>,
}

/// Three buffers for each seat, numbered from 0 to 2, each empty or with the eye of a view that is out.
///
/// Seats are 1 to 18, as many as it was made for, and regions are below 64.
#[derive(Drop)]
pub struct Board<E: LogEye> {
    buffers: Vec<Option<Held<E>>>,
}

impl<E: LogEye> Model for Board<E> {
    ghost use Rattle.std.specs.Prelude.{◌≤◌, List, length};
    ghost use Rattle.fine_model.specs.Boards.{Buffer};
    ghost use Rattle.partition_hold.specs.Boards.{buffers_of};

    ghost Value = { List Buffer };

    ghost view = { λ board. buffers_of E.state board.buffers.items };

    ghost invariant = { λ board. length board.buffers.items ≤ 54 };
}

/// Whether a buffer names a region.
fn is_naming<E: LogEye>(buffer: &Option<Held<E>>, region: u32) -> bool
    requires { region < most_in_log }
    ensures { result ≡ names_region region (option_map (held_of E.LogEye.state) buffer.now) }
{
    match buffer {
        Some(held) => held.regions.holds(region),
        None => false,
    }
}

/// The lowest empty one of some buffers.
fn first_empty<E: LogEye>(buffers: &[Option<Held<E>>]) -> Option<usize>
    ensures first { result ≡ first_from is_empty 0 (buffers_of E.LogEye.state buffers.now) }
    ensures there { IfSome result (λ at. at < length buffers.now) }
{
    for (at, buffer) in buffers.iter().enumerate() {
        if buffer.is_none() {
            return Some(at);
        }
    }
    None
}

/// The first one of some buffers that names a region.
fn first_naming<E: LogEye>(buffers: &[Option<Held<E>>], region: u32) -> Option<usize>
    requires { region < most_in_log }
    ensures first { result ≡ first_from (names_region region) 0 (buffers_of E.LogEye.state buffers.now) }
    ensures there { IfSome result (λ at. at < length buffers.now) }
{
    for (at, buffer) in buffers.iter().enumerate() {
        if is_naming(buffer, region) {
            return Some(at);
        }
    }
    None
}

impl<E: LogEye> Board<E> {
    /// An empty board.
    pub fn new(alloc: Global, seats: u32) -> Result<Board<E>, NoMemory>
        requires some { 1 ≤ seats }
        requires few { seats ≤ 18 }
        ensures { IfOk result (λ board. board ≡ replicate (3 * seats) None) }
    {
        let mut buffers = Vec::with_capacity(alloc, BUFFERS * seats as usize)?;
        for _ in 0..BUFFERS * seats as usize {
            buffers.push(None)?;
        }
        Ok(Board { buffers })
    }

    /// Fills the lowest empty buffer of a seat with an eye on these regions, and answers the buffer's number. It takes no memory.
    pub fn post(&mut self, seat: u32, eye: &E, regions: &[u32]) -> u8
        requires seat { 1 ≤ seat }
        requires seats { 3 * seat ≤ length self.old }
        requires regions { AllByRecursion (λ region. region < most_in_log) regions.now }
        requires of_eye { (E.LogEye.state eye.now).regions ≡ regions.now }
        requires empty { IsSome (empty_of self.old seat) }
        ensures lowest { empty_of self.old seat ≡ Some result }
        ensures filled { self.new ≡ slice_set self.old (buffer_at seat result) (Some (opened (E.LogEye.state eye.now))) }
    {
        let first = BUFFERS * (seat as usize - 1);
        let held = Held {
            eye: eye.number(),
            regions: RegionSet::of(regions),
            seen: Snapshot::of(eye),
        };
        let buffer = first_empty(&self.buffers[first..first + BUFFERS]).unwrap();
        self.buffers[first + buffer] = Some(held);
        buffer as u8
    }

    /// Empties a buffer of a seat.
    pub fn returned(&mut self, seat: u32, buffer: u8)
        requires seat { 1 ≤ seat }
        requires seats { 3 * seat ≤ length self.old }
        requires buffer { buffer < 3 }
        ensures { self.new ≡ slice_set self.old (buffer_at seat buffer) None }
    {
        self.buffers[BUFFERS * (seat as usize - 1) + buffer as usize] = None;
    }

    /// The first seat, and its first buffer, that name a region; None exactly where none does. It takes no memory.
    pub fn names(&self, region: u32) -> Option<(u32, u8)>
        requires { region < most_in_log }
        ensures { result ≡ naming_of self.now region }
    {
        match first_naming(&self.buffers, region) {
            Some(at) => Some((1 + (at / BUFFERS) as u32, (at % BUFFERS) as u8)),
            None => None,
        }
    }
}
