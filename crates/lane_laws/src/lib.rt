//! Laws between the hall of rooms and the runs of scripts, each the contract of a function that does nothing.
#![tactic(auto)]

mod laws;

pub use laws::{lanes_law, no_hall_law, placed_law, quiet_law, works_law};
