//! What one thread does with a room between transactions: it seals what waits, gathers the youngest parts, merges neighbours, and makes room for rows.
#![tactic(auto)]

mod faults;
pub mod laws;
mod making;
mod merging;
mod sealing;

pub use faults::{of_fetch, of_merge, of_room};
pub use making::make_room;
pub use merging::tidy;
pub use sealing::seal_waiting;
