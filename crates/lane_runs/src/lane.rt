//! A lane as a worker has it.

ghost use Rattle.std.specs.Prelude.{◌≡◌, ◌≤◌, ◌<◌, length, option_to_list, [], IfOk};
ghost use Rattle.std.specs.List.{AllByRecursion};
ghost use Rattle.lane_laws.specs.Lanes.{places_in};
ghost use Rattle.lane_runs.specs.Lane.{AreApart, MovesDone, new_lane, next_of, with_fault, with_outcome};

use fine_model::{Items, NoMemory, Outcome, Outcomes, RunFault, Script};
use std::alloc::Global;
use std::marker::Model;

/// A lane of a script: the places of its transactions, what became of those that were run, and the fault that ended it, if one did. It takes all its memory as it
/// is made.
#[derive(Drop)]
pub struct Lane {
    lane: u8,
    at: Vec<u32>,
    outcomes: Outcomes,
    count: usize,
    ended: Option<RunFault>,
    is_begun: bool,
}

impl Model for Lane {
    ghost use Rattle.std.specs.Prelude.{◌≡◌, ◌≤◌, length, take, option_to_list};
    ghost use Rattle.lane_laws.specs.Lanes.{LaneValue};

    ghost Value = { LaneValue };

    ghost view = { λ l. record { lane = l.lane; work = record { at = l.at.items; done = take l.count l.outcomes; left = option_to_list l.ended } } };

    ghost invariant = { λ l. (length l.outcomes ≡ length l.at.items) × (l.count ≤ length l.at.items) };
}

/// The places of the transactions of a lane in a script.
fn places_of(alloc: Global, script: &Script, lane: u8) -> Result<Vec<u32>, NoMemory>
    requires few { length script.now ≤ 100000 }
    ensures { IfOk result (λ at. at.items ≡ places_in script.now lane) }
{
    let mut at = Vec::new(alloc);
    for i in 0..script.len() {
        if script.at(i).lane == lane {
            at.push(i as u32)?;
        }
    }
    Ok(at)
}

/// So many outcomes of transactions that were not run.
fn none_run(alloc: Global, count: usize) -> Result<Outcomes, NoMemory>
    ensures { IfOk result (λ outcomes. length outcomes ≡ count) }
{
    let mut outcomes = Items::new(alloc);
    for _ in 0..count {
        outcomes.push(Outcome::NotRun)?;
    }
    Ok(outcomes)
}

impl Lane {
    /// The lane of a script with a number, of which nothing was run yet.
    pub fn of_script(alloc: Global, script: &Script, lane: u8) -> Result<Lane, NoMemory>
        requires few { length script.now ≤ 100000 }
        ensures { IfOk result (λ made. made ≡ new_lane script.now lane) }
    {
        let at = places_of(alloc, script, lane)?;
        let outcomes = none_run(alloc, at.len())?;
        Ok(Lane {
            lane,
            at,
            outcomes,
            count: 0,
            ended: None,
            is_begun: false,
        })
    }

    pub fn lane(&self) -> u8
        ensures { result ≡ self.now.lane }
    {
        self.lane
    }

    /// The fault that ended it.
    pub fn ended(&self) -> Option<RunFault>
        ensures { self.now.work.left ≡ option_to_list result }
    {
        self.ended
    }

    /// The place of its next transaction in the script, from 0.
    pub fn next(&self) -> Option<u32>
        ensures { result ≡ next_of self.now }
    {
        self.at.get(self.count).copied()
    }

    /// Whether the start of the next transaction was told to the gate.
    pub(crate) fn is_begun(&self) -> bool {
        self.is_begun
    }

    /// Notes whether the start of the next transaction was told to the gate.
    pub(crate) fn note_begun(&mut self, is_begun: bool)
        ensures { self.new ≡ self.old }
    {
        self.is_begun = is_begun;
    }

    /// Takes the outcome of the next transaction.
    pub(crate) fn finish(&mut self, outcome: Outcome)
        requires next { length self.old.work.done < length self.old.work.at }
        ensures { self.new ≡ with_outcome self.old outcome }
    {
        self.outcomes.replace(self.count, outcome);
        self.count += 1;
        self.is_begun = false;
    }

    /// Ends by a fault.
    pub(crate) fn end(&mut self, fault: RunFault)
        ensures { self.new ≡ with_fault self.old fault }
    {
        self.ended = Some(fault);
    }

    /// Moves the outcomes of what was run to the places of their transactions in a list of outcomes for a whole script. All other items of the list stay.
    pub fn hand_over(mut self, outcomes: &mut Outcomes)
        requires apart { AreApart self.work.at }
        requires within { AllByRecursion (λ i. i < length outcomes.old) self.work.at }
        ensures { MovesDone self outcomes.old outcomes.new }
    {
        for j in 0..self.count {
            let outcome = self.outcomes.replace(j, Outcome::NotRun);
            outcomes.replace(self.at[j] as usize, outcome);
        }
    }
}
