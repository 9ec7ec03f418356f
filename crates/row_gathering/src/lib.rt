//! The rows of parts that follow each other, gathered for one part: read from the disk, tested against the grammar, and arranged by node.
//!
//! Neighbours are so joined in one step, however many they are, where a merge takes two at a time. The rows stay as they are: none folds into an image.
#![tactic(auto)]

mod body;
mod gathering;

pub use gathering::{Gathered, gather};
