//! Laws of bounds, each the contract of a function that does nothing.

ghost use Rattle.fine_model.specs.BoundLaws.{NodeFits, PushedFits, LegalFits, MergedFits};

/// Rows within the format's bounds leave each node within its bounds, and merge to rows within them; and calls within the
/// script's bounds push rows within them, one after the other and in a history.
pub fn bounds_law()
    ensures nodes { NodeFits }
    ensures pushed { PushedFits }
    ensures legal { LegalFits }
    ensures merged { MergedFits }
{}
