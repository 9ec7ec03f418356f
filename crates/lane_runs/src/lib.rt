//! A lane of a script on a hall: its transactions one after another, and the rest of one that was set aside.
#![tactic(auto)]

mod faults;
mod lane;
mod laws;
mod rest;
mod run;
mod step;

pub use lane::Lane;
pub use laws::stay_law;
pub use rest::run_rest;
pub use run::{Stop, run_lane};
