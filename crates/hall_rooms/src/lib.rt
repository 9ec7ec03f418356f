//! Rooms, buckets and views of a store on a hall: how it begins and ends, and the turns of the room that belong to no transaction.
#![tactic(auto)]

mod closing;
mod held;
mod laws;
mod making;
mod merging;
mod opening;
mod settling;
mod showing;
mod turn;
mod views;

pub use closing::close_hall;
pub use held::{HeldBucket, HeldRoom};
pub use laws::{idle_law, space_law};
pub use making::{Space, try_room};
pub use merging::merge_next;
pub use opening::{Opened, RoomHall, open_hall};
pub use settling::settle_views;
pub use showing::{seal_and_post, show_views};
