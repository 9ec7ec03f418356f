//! How the lanes of a run ended.

ghost use Rattle.std.specs.Prelude.{◌≡◌, ◌-◌, is_some, length, slice_set, Some};
ghost use Rattle.run_laws.specs.Lanes.{EndsLane, IsLane, IsSoonest, fault_of, first_fault, most_lanes, none_ended, rank, sooner, with_last};

use fine_model::RunFault;
use std::marker::Model;

/// How many lanes a script may name. They are numbered from 1 on.
const MOST_LANES: usize = 16;

/// For each lane the fault that ended it, where one did. Contracts see the 16 lanes in their order. No call takes memory.
#[derive(Drop)]
pub struct EndedLanes {
    faults: [Option<RunFault>; MOST_LANES],
}

impl Model for EndedLanes {
    ghost use Rattle.std.specs.Prelude.{List, Option};
    ghost use Rattle.fine_model.specs.declared.RunFault.{RunFault as Fault};

    ghost Value = { List (Option Fault) };

    ghost view = { λ lanes. lanes.faults };
}

/// How soon a fault is told among others: want of memory first, then a failed disk, then damage.
fn rank(fault: Option<RunFault>) -> u8
    ensures { result ≡ rank fault }
{
    match fault {
        Some(fault) => match fault {
            RunFault::Memory => 0,
            RunFault::Disk => 1,
            RunFault::Damaged { what: _ } => 2,
        },
        None => 3,
    }
}

/// The fault that is told before another one; the first of equal ones.
fn sooner(a: Option<RunFault>, b: Option<RunFault>) -> Option<RunFault>
    ensures { result ≡ sooner a b }
{
    if rank(b) < rank(a) { b } else { a }
}

impl EndedLanes {
    /// No lane has ended.
    pub fn none() -> EndedLanes
        ensures { result ≡ none_ended }
    {
        EndedLanes {
            faults: [None; MOST_LANES],
        }
    }

    /// Whether a lane has ended.
    pub fn has_ended(&self, lane: u8) -> bool
        requires { IsLane lane }
        ensures { result ≡ is_some (fault_of self.now lane) }
    {
        self.faults[usize::from(lane) - 1].is_some()
    }

    /// Sets the fault of a lane.
    fn set(&mut self, lane: u8, fault: RunFault)
        requires { IsLane lane }
        ensures set { self.new ≡ slice_set self.old (lane - 1) (Some fault) }
        ensures whole { length self.old ≡ most_lanes }
    {
        self.faults[usize::from(lane) - 1] = Some(fault);
    }

    /// Ends a lane by a fault, which takes the place of an earlier one. No other lane ends by it.
    pub fn end(&mut self, lane: u8, fault: RunFault)
        requires { IsLane lane }
        ensures set { self.new ≡ slice_set self.old (lane - 1) (Some fault) }
        ensures ends { EndsLane self.old self.new lane fault }
    {
        self.set(lane, fault);
    }

    /// The soonest of all faults, by going through the lanes.
    #[tactic(auto, unfolding(crate::specs::Lanes::first_fault))]
    fn first(&self) -> Option<RunFault>
        ensures { result ≡ first_fault self.now }
    {
        self.faults
            .iter()
            .fold(None, |told, fault| sooner(told, *fault))
    }

    /// The fault that a run tells: of those that ended lanes want of memory, or else a failed disk, or else the damage of the lowest lane. `None` where
    /// no lane has ended.
    pub fn fault(&self) -> Option<RunFault>
        ensures first { result ≡ first_fault self.now }
        ensures soonest { IsSoonest self.now result }
    {
        self.first()
    }

    /// The fault that a run tells, where one may have come after all lanes, which ended none of them. Of equal ones that of the lowest lane.
    pub fn fault_with(&self, last: Option<RunFault>) -> Option<RunFault>
        ensures { result ≡ first_fault (with_last self.now last) }
    {
        match last {
            Some(fault) => sooner(self.first(), Some(fault)),
            None => self.first(),
        }
    }
}
