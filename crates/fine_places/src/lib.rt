//! Places that seats take and give back one at a time, and the one history of what they add.
//!
//! There are 257 places: 256 buckets, and the room. Each has a thing in a slot, and a word that is 0 or the number of the seat
//! that holds the place. A seat takes a place by one compare-exchange and gives it back by one store. As the room is given
//! back, the history may grow by an item. What the things stand for, which histories are legal and which buckets an item
//! touches is the user's law (`PlaceLaw`). The rule that holds between any two steps is `Rules` in `specs/Places.antt`.
//! No call waits, and none but `open` takes memory.
#![tactic(auto)]

mod beside;
mod law;
mod model;
mod plays;
mod steps;

pub use beside::{Alone, BesideLaw};
pub use law::{PlaceLaw, Rule, StartLaw};
pub use model::{Found, Known, Placed, Share, View};
pub use plays::{Fetched, Gave, JoinSeat, Settled, SplitSeat, Took};
pub use steps::{PlaceSeat, Places, SharedPlaces, beside_law, give, join, open, shut, split, take};

/// The place of the room. Those before it are the buckets.
pub const ROOM: usize = 256;

/// How many places there are.
pub const PLACES: usize = 257;
