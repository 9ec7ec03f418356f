//! One open transaction over all 256 buckets of a store: its calls, and what becomes of the buckets at its end.
#![tactic(auto)]

mod answering;
mod buckets;
mod ending;
mod laws;
mod scanning;
mod touched;

pub use answering::answer_all;
pub use buckets::Buckets;
pub use laws::{abort_law, follows_law, traces_law};
