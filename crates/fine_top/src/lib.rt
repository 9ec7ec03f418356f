//! The store as one call: five commands, from words and the bytes of a script to what is printed, over a log on a disk.
#![tactic(auto)]

mod generating;
mod opening;
mod printing;
mod running;
mod top;

pub use command_words::geometry_of;
pub use log_commands::Finish;
pub use top::fineline;
