//! The words of the command line: the command that they spell with its options, and the geometry of a log.
#![tactic(auto)]

mod command;
mod found;
mod geometry;
mod program;
mod splitting;

pub use command::{Command, command_of};
pub use geometry::geometry_of;
