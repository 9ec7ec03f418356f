//! Fetching a node: its rows are read from the parts of a log, from the newest part back to the newest image, and replayed.
#![tactic(auto)]

mod fault;
mod frames;
mod laws;
mod rebuild;
mod replay;
mod span;

pub use fault::bad_index;
pub use frames::Frames;
pub use laws::damage_law;
pub use rebuild::fetch;
pub use replay::{base, replayed, replayed_moved};
pub use span::{frames_of_span, read_span, rows_of_span};
