//! Laws of a run on a hall.

ghost use Rattle.lane_laws.specs.Joined.{LanesLaw};
ghost use Rattle.lane_laws.specs.NoHall.{NoHallLaw};
ghost use Rattle.lane_laws.specs.Placing.{PlacedAt, PlacedByOthers, PlacedCommits, PlacedOn, PlacedOnly, PlacedRise, PlacedStays};
ghost use Rattle.lane_laws.specs.Quiet.{OpenStays, OpenTogether, QuietFirst, QuietStays, QuietTogether};
ghost use Rattle.lane_laws.specs.Works.{FewLaw, WorksLaw};

/// Where no hall could be made on a room that was ready, the script was not run, and its run has the contract of all runs: each transaction was not
/// run, all that is sealed is durable, and the fault of making the hall is that of the run.
pub fn no_hall_law()
    ensures { NoHallLaw }
{}

/// The commits of a seat have their places by the turns: more turns of others leave them [`on`, `others`, `stays`], each stands at its place [`at`], each place is that of one
/// seat's commit [`only`], places rise [`rise`], and without their places they are what the seat's own turns add [`commits`].
pub fn placed_law()
    ensures on { PlacedOn }
    ensures others { PlacedByOthers }
    ensures stays { PlacedStays }
    ensures at { PlacedAt }
    ensures only { PlacedOnly }
    ensures rise { PlacedRise }
    ensures commits { PlacedCommits }
{}

/// Turns of a seat that add and seal nothing, or leave the room as open as they found it, do so among more turns of others, and of all seats together.
pub fn quiet_law()
    ensures stays { QuietStays }
    ensures first { QuietFirst }
    ensures together { QuietTogether }
    ensures open_stays { OpenStays }
    ensures open_together { OpenTogether }
{}

/// Outcomes that were put together from works are those of one history [`works`], which has at most one commit a transaction [`few`].
pub fn works_law()
    ensures works { WorksLaw }
    ensures few { FewLaw }
{}

/// What the workers of lanes, the merger and the caller kept of a hall, from its opening to the last seal, is a run.
pub fn lanes_law()
    ensures { LanesLaw }
{}
