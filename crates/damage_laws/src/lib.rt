//! What is found and blamed in the parts that are there now, by the bytes at entry.
#![tactic(auto)]

mod laws;

pub use laws::{counted_law, made_law, place_law};
