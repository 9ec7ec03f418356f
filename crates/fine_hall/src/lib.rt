//! The hall: one room, 256 buckets, and a front, a middle and a back view for each seat, which threads take, give back, post and
//! exchange; and the one history of what they commit.
#![tactic(auto)]

mod closing;
mod hall;
mod law;
mod laws;
mod mail;
mod opening;
mod pass;
mod room_turn;
mod turn;

pub use hall::{Hall, HallTable};
pub use law::{Beginning, HallLaw, Load, Start};
pub use laws::{
    counts_law, front_law, gives_law, handed_law, held_law, later_law, load_law, sees_law,
    since_law, stuck_law, troubles_law,
};
pub use pass::{Conflict, Pass};
pub use turn::Turn;
