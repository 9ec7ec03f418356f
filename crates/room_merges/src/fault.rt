//! Why a merge came to no end.

use epoch_room::RoomFault;
use fine_model::FetchFault;

/// Why two parts were not merged: the room refused, or a read through the view.
#[derive(Debug, Drop)]
pub enum MergeFault {
    Room(RoomFault),
    Fetch(FetchFault),
}

/// What a call that merges answers: its value, or why it did not come to one.
pub type MergeResult<T> = Result<T, MergeFault>;
