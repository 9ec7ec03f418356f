//! The core of one transaction: its calls on buckets and a source of nodes, and the entry that it becomes.
#![tactic(auto)]

mod answering;
mod draft;
mod laws;
mod scanning;
mod standing;
mod step;
mod using;

pub use draft::Draft;
pub use laws::{blank_law, bucket_law, local_law, next_law, undoing_law};
pub use scanning::RangeScan;
pub use standing::{ends_law, serves_law, stands_law};
pub use using::{settle, undo};
