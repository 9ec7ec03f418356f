//! The commands that print a log beside running on it: its chain, its chain once neighbours were merged, and its map.
#![tactic(auto)]

mod commands;
mod dumping;
mod faults;
mod gathering;
mod keys;
mod map;
mod merged;
mod opening;
mod printing;
mod status;

pub use commands::{Finish, merge_and_print, print_ranges};
pub use dumping::dump_and_print;
pub use map::read_map;
pub use opening::{find_chain, open_fault};
pub use printing::{fault_status, print_fault};
pub use status::Status;
