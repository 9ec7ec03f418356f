//! Laws of turns, for the crates above. The function does nothing: what counts is what it ensures.

ghost use Rattle.hall_rooms.specs.Turning.{SealsIdle, SettlesIdle};
ghost use Rattle.hall_rooms.specs.Posting.{ShowsIdle};
ghost use Rattle.hall_rooms.specs.Merging.{MergesIdle};
ghost use Rattle.hall_rooms.specs.Making.{RenewsIdle, StuckThen, TriesIdle};

/// A pass that holds nothing and has no merge out, as the end of a hall asks, is such a pass again after a turn that seals and posts, after one
/// that posts alone, after one that erases, after one that merges, and after one that makes room; so is each other pass that took its view in it.
pub fn idle_law()
    ensures seals { SealsIdle }
    ensures shows { ShowsIdle }
    ensures settles { SettlesIdle }
    ensures merges { MergesIdle }
    ensures tries { TriesIdle }
    ensures renews { RenewsIdle }
{}

/// A log that `try_room` tells to be stuck can take nothing any more at the end of this turn, where the log at entry was told and sound.
pub fn space_law()
    ensures { StuckThen }
{}
