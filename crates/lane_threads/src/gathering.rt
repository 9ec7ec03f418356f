//! How the outcomes of lanes are put together.

ghost use Rattle.std.specs.Prelude.{◌≡◌, length, map, replicate};
ghost use Rattle.fine_model.specs.declared.Outcome.TheVariants as outcome;
ghost use Rattle.lane_laws.specs.Works.{Gathers};
ghost use Rattle.lane_threads.specs.declared.worker.Part.{Part as HasPart};
ghost use Rattle.lane_threads.specs.Gathering.{AreOfScript};

use crate::worker::Part;
use fine_model::{Outcomes, Script};

/// Moves the outcomes of all lanes of a script to the places of their transactions. What no lane has run stays as not run.
pub(crate) fn gather(_script: &Script, mut parts: Vec<Part>, outcomes: &mut Outcomes)
    requires parts { AreOfScript _script.now parts.items }
    requires none_run { outcomes.old ≡ replicate (length _script.now) outcome.NotRun }
    ensures { Gathers _script.now (map (λ (p : HasPart). p.lane.work) parts.items) outcomes.new }
{
    while let Some(part) = parts.pop() {
        part.lane.hand_over(outcomes);
    }
}
