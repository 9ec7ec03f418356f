//! Transactions on a hall: what a thread calls.
#![tactic(auto)]

mod calls;
mod ends;
mod laws;
mod reads;
mod scans;
mod sets;
mod txn;

pub use hall_rooms::{
    Opened, RoomHall, Space, close_hall, merge_next, open_hall, seal_and_post, settle_views,
    show_views, try_room,
};
pub use laws::{idle_law, local_law, open_law, replies_law, turn_law};
pub use txn::{CommitFault, Committed, Txn, TxnFault};
