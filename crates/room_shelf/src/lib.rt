//! The view through which one thread loads nodes from a room.
#![tactic(auto)]

mod cached;
mod laws;
mod shelf;

pub use cached::CachedNodes;
pub use laws::shelf_law;
pub use shelf::{rest, view_of};
