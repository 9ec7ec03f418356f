//! The law of a room that can take nothing any more. The function does nothing: what counts is what it ensures.

ghost use Rattle.epoch_room.specs.Stuck.{StuckLaw};

/// A room in which nothing waits, nothing is retired, no merge is out, fewer than two regions are free, and no two neighbours fit these, is
/// stuck: the same holds of the image that a read of its disk gives.
pub fn stuck_law()
    ensures { StuckLaw }
{}
