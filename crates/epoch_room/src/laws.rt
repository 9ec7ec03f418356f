//! Laws of rooms, for the crates above. The functions do nothing: what counts is what they ensure.

ghost use Rattle.epoch_room.specs.Laws.{KeepsOn, ViewsArePosted};
ghost use Rattle.epoch_room.specs.Whole.{BoardShows};

/// What one call keeps and then another one, both keep; a view that was made is on the board, so that it may be taken back; and what
/// stands on the board tells what a read of the disk gives on its regions.
pub fn room_law()
    ensures keeps { KeepsOn }
    ensures posted { ViewsArePosted }
    ensures board { BoardShows }
{}
