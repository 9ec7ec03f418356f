//! A law of lanes, the contract of a function that does nothing.

ghost use Rattle.lane_runs.specs.Rest.{RunsStay};

/// What a lane has stays as its pass sees more turns of others.
pub fn stay_law()
    ensures { RunsStay }
{}
