//! Laws of a room with a view that is out, each the contract of a function that does nothing.

ghost use Rattle.room_shelf.specs.Shelves.{LogLaw, ReadsLaw, TellsLaw};

/// Loads through the view that is out are loads of the room's log: the view tells the rows of the live parts, which agree with what is sealed, and what a
/// fault of the view says it says of the room with its view.
pub fn shelf_law()
    ensures reads { ReadsLaw }
    ensures tells { TellsLaw }
    ensures log { LogLaw }
{}
