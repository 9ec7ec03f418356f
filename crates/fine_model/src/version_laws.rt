//! Laws of versions and of arranged rows, each the contract of a function that does nothing.

ghost use Rattle.fine_model.specs.VersionLaws.{PushedVersions, LegalVersions, FollowBoth, FollowParts, StableLaw, UnstableLaw, LowerLaw, AreOrders, OrderedLaw, ArrangedContent, ArrangedAgrees, PermutedLaw};

/// The versions of pushed rows follow on those before, and so do those of a legal history; and rows follow where each part
/// of them does on top of those before it.
pub fn versions_law()
    ensures pushed { PushedVersions }
    ensures legal { LegalVersions }
    ensures both { FollowBoth }
    ensures parts { FollowParts }
{}

/// A stable sort by node leaves each node its rows, and so does any sort by node and version of rows whose versions follow,
/// which is one by node, too.
pub fn sort_law()
    ensures orders { AreOrders }
    ensures stable { StableLaw }
    ensures unstable { UnstableLaw }
    ensures lower { LowerLaw }
{}

/// Rows whose versions follow, arranged by node, are in the order of a partition.
pub fn ordered_law()
    ensures { OrderedLaw }
{}

/// Rows arranged by node leave in each node what they leave unarranged, and agree with what they agree with then.
pub fn arranged_law()
    ensures content { ArrangedContent }
    ensures agrees { ArrangedAgrees }
{}

/// Rows cost the same in each order.
pub fn permuted_law()
    ensures { PermutedLaw }
{}
