//! Runs of the program over disks in memory, which its tests are made of.
#![tactic(auto)]

mod disks;
mod runs;

pub use disks::{Piece, crash, has_piece, new_disk, set_piece};
pub use runs::{Given, Printed, run, run_gated, words_of};
