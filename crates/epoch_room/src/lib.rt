//! The room: the log's regions, the chain of live parts, and the open epoch, which commits are appended to and which is then
//! sealed as a whole.
#![tactic(auto)]

mod answers;
mod body;
mod closing;
mod epoch;
pub mod laws;
mod led_parts;
mod partition;
mod regions;
mod room;
mod row_writes;
mod sealing;
pub mod stuck_law;

pub use answers::{AdoptFault, Counts, EraseFault, Fit, RoomFault, Stamp};
pub use room::{Room, first_neighbours};
