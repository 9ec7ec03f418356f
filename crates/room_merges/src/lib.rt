//! Merging two neighbours of a room's chain through a view: what the room asks of the merged body follows from what is read through the
//! view; and merging the first neighbours that fit.
#![tactic(auto)]

mod body;
mod fault;
pub mod laws;
mod near;
mod pair;

pub use body::{Progress, write_body, write_next};
pub use fault::{MergeFault, MergeResult};
pub use near::{erase_retired, merge_any, merge_near, merge_now};
pub use pair::merge_pair;
