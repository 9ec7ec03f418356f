//! Running a script on a room: what a run of lanes is, and how its lanes end.
#![tactic(auto)]

mod ended;
mod laws;

pub use ended::EndedLanes;
pub use laws::{
    BucketsLaw, behind_law, body_law, causes_law, cut_short_law, few_law, finished_law, going_law,
    in_turn_law, need_law, nothing_law, reading_law, ready_law, run_law, so_far_law, status_law,
    told_law,
};
