//! Lanes of a script on threads of their own, over one hall.
#![tactic(auto)]

mod at_once;
mod beginning;
mod closing;
mod gathering;
mod means;
mod resting;
mod run;
mod threads;
mod worker;

pub use run::run_lanes;
