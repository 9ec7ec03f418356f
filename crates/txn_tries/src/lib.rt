//! One transaction of a script on a hall: its calls, its tries, and its commit, with the seal of its group.
#![tactic(auto)]

mod attempt;
mod calls;
mod committing;
mod faults;
mod grouping;
mod refusing;
mod signals;
mod turn;

pub use refusing::run_on_full;
pub use signals::Signals;
pub use turn::{Tries, TurnEnd, run_turn};
