//! Mailboxes, and three buffers of views for each seat, kept beside the places of a table.
//!
//! A seat has a front, which it reads through, a middle, which lies in its mailbox, and a back, which whoever holds the room may
//! fill. A post exchanges the back and the middle, a refresh the middle and the front, each by one swap of the mailbox's word; so
//! neither ever waits for the other. Behind the room's word there is one for the published number, and then a mailbox for
//! each seat: twice its middle, and one more where that is fresh. The rule that holds between any two steps is `Keeps` in
//! `specs/Boxes.antt`. What a view shows is the user's law (`BoxLaw`).
#![tactic(auto)]

mod boxes;
mod law;
mod model;
mod plays;
mod steps;

pub use boxes::Boxes;
pub use law::BoxLaw;
pub use model::{BoxNote, Mark, Reads, TurnNote};
pub use steps::{PUBLISHED, look, mailbox, post, publish, published, refresh, slot};
