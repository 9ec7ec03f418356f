//! Running a script on a room, on one thread.
#![tactic(auto)]

mod committing;
mod faults;
mod reading;
mod run;
mod runner;
mod sealing;
mod seats;
mod txn;

pub use open_txn::Buckets;
pub use run::{run_cached, run_lanes};
