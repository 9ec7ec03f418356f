//! Laws of what one thread does with a room, each the contract of a function that does nothing.

ghost use Rattle.room_steps.specs.Laws.{MergesStay, ToldStill, ToldWith};

/// Merging neighbours adds and seals nothing [`merges`]. What faults tell stays where no call failed [`still`], and with the fault that a step answered it
/// is told with this one [`fault`].
pub fn steps_law()
    ensures merges { MergesStay }
    ensures still { ToldStill }
    ensures fault { ToldWith }
{}
