//! What was read of a script so far.

ghost use Rattle.std.specs.Prelude.{◌≡◌, ◌≤◌, [], None, IfOk, OnOk};
ghost use Rattle.fine_model.specs.Script.{begins, calls, ends};
ghost use Rattle.script_text.specs.Grammar.{meant};
ghost use Rattle.script_text.specs.Reading.{reading_of, Adds};
ghost use Rattle.script_text.specs.Fits.{FitsLine, FitsReading};
ghost use Rattle.fine_model.specs.Bounds.{FitsCall};

use super::grammar::SaidLine;
use fine_model::{Call, Calls, Ending, Items, NoMemory, Script, ScriptTxn};
use std::alloc::Global;

/// The transactions of a script, or the calls of one.
const MOST_TXNS: usize = 100_000;

const MOST_CALLS: usize = 10_000;

/// The transactions that were read, and the lane and the calls of one that is open.
#[derive(Drop)]
pub(crate) struct Progress {
    pub(crate) done: Script,
    pub(crate) open_txn: Option<(u8, Calls)>,
}

impl Progress {
    pub(crate) fn new(alloc: Global) -> Progress
        ensures empty { reading_of result ≡ record { done = []; open_txn = None } }
        ensures fits { FitsReading (reading_of result) }
    {
        Progress {
            done: Items::new(alloc),
            open_txn: None,
        }
    }

    /// Adds a line, if it may stand here.
    #[tactic(auto, unfolding(fine_model::specs::Script::line_added))]
    pub(crate) fn add(&mut self, alloc: Global, line: SaidLine) -> Result<bool, NoMemory>
        requires line { FitsLine (meant line) }
        requires fits { FitsReading (reading_of self.old) }
        ensures adds { IfOk result (λ added. Adds added (meant line) (reading_of self.old) (reading_of self.new)) }
        ensures fits { OnOk result (FitsReading (reading_of self.new)) }
    {
        match line {
            SaidLine::Skipped => Ok(true),
            SaidLine::Begins { lane } => self.begin(alloc, lane),
            SaidLine::Calls { call } => self.call(call),
            SaidLine::Ends { ending } => self.end(ending),
            SaidLine::Faulty => Ok(false),
        }
    }

    /// Begins a transaction, if none is open and the script may have one more. It has room for one call, since a list without any takes room
    /// for four with its first.
    #[tactic(auto, unfolding(fine_model::specs::Script::line_added))]
    fn begin(&mut self, alloc: Global, lane: u8) -> Result<bool, NoMemory>
        requires lane { (1 ≤ lane) × (lane ≤ 16) }
        requires fits { FitsReading (reading_of self.old) }
        ensures adds { IfOk result (λ added. Adds added (begins lane) (reading_of self.old) (reading_of self.new)) }
        ensures fits { OnOk result (FitsReading (reading_of self.new)) }
    {
        if self.open_txn.is_some() || self.done.len() >= MOST_TXNS {
            return Ok(false);
        }
        let calls = Items::from_vec(Vec::with_capacity(alloc, 1)?);
        self.open_txn = Some((lane, calls));
        Ok(true)
    }

    /// Adds a call to the open transaction, if it may have one more.
    #[tactic(auto, unfolding(fine_model::specs::Script::line_added))]
    fn call(&mut self, call: Call) -> Result<bool, NoMemory>
        requires call { FitsCall call }
        requires fits { FitsReading (reading_of self.old) }
        ensures adds { IfOk result (λ added. Adds added (calls call) (reading_of self.old) (reading_of self.new)) }
        ensures fits { OnOk result (FitsReading (reading_of self.new)) }
    {
        let Some((_, calls)) = &mut self.open_txn else {
            return Ok(false);
        };
        if calls.len() >= MOST_CALLS {
            return Ok(false);
        }
        calls.push(call)?;
        Ok(true)
    }

    /// Ends the open transaction, if there is one.
    #[tactic(auto, unfolding(fine_model::specs::Script::line_added))]
    fn end(&mut self, ending: Ending) -> Result<bool, NoMemory>
        requires { FitsReading (reading_of self.old) }
        ensures adds { IfOk result (λ added. Adds added (ends ending) (reading_of self.old) (reading_of self.new)) }
        ensures fits { OnOk result (FitsReading (reading_of self.new)) }
    {
        let Some((lane, calls)) = self.open_txn.take() else {
            return Ok(false);
        };
        self.done.push(ScriptTxn {
            lane,
            calls,
            ending,
        })?;
        Ok(true)
    }
}
