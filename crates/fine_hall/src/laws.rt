//! Laws of passes and turns.

ghost use Rattle.fine_hall.specs.EngineLaws.{FrontLaw, UsedStays, UsedItself, UsedOn, SinceLaw, SinceTurn, GivesLaw, StuckLaw, StuckWithin, HandedLaw, HandedIdle, LoadLaw, TroublesLaw, SeesLaw};
ghost use Rattle.fine_hall.specs.EpochLaws.{CountsMore, CountsSealed, CountsStay, CountsAll, EpochsLater, NodesLater, BucketsLater};
ghost use Rattle.fine_hall.specs.HeldLaws.{RowsElsewhere, HeldStands, BesideStands};
ghost use Rattle.fine_hall.specs.declared.law.Beginning.{Beginning};

use fine_model::{BucketLaw, ViewLaw};

/// A pass is one of its hall also after its front was read through, once or more often, and knows what it knew; a front that was ahead
/// still is.
pub fn front_law<V: ViewLaw>()
    ensures law { FrontLaw V.state }
    ensures stays { UsedStays V.state }
    ensures itself { UsedItself V.state }
    ensures on { UsedOn V.state }
{}

/// The room at the end became what it is from the room that stood after some turns, and from the room of each turn.
pub fn since_law()
    ensures after { SinceLaw }
    ensures turn { SinceTurn }
{}

/// Once a pass gave the room back, the room that it saw last is this one, and the entry is the last of what it saw and of its own.
pub fn gives_law<V: ViewLaw>()
    ensures { GivesLaw V.row.Denot }
{}

/// A room counts the epochs of its history on with a commit of the open epoch more, once this epoch was sealed, and where nothing was
/// sealed or waits anew. Where nothing waits, the whole history is sealed.
pub fn counts_law()
    ensures more { CountsMore }
    ensures sealed { CountsSealed }
    ensures stay { CountsStay }
    ensures all { CountsAll }
{}

/// No epoch of a hall's history was sealed as the hall began. So a node with no row above that epoch has none above any published one, and
/// a bucket that stands while that epoch, or an earlier one, is published stands while any is.
pub fn later_law<B: BucketLaw>()
    ensures epochs { EpochsLater }
    ensures nodes { NodesLater }
    ensures buckets { BucketsLater B.bucket B.cached B.is_settled }
{}

/// A room that was stuck at the end of some turn, or within one, is stuck at the end.
pub fn stuck_law()
    ensures turn { StuckLaw }
    ensures within { StuckWithin }
{}

/// The passes that a new hall hands out are all that its end wants: each number once, and each holds nothing and has no job out.
pub fn handed_law<V: ViewLaw>()
    ensures all { HandedLaw V.state }
    ensures idle { HandedIdle V.state }
{}

/// What each call does to the troubles of a pass: the faults of its front, of the fronts that it gave up, and those in its turns.
pub fn troubles_law<V: ViewLaw>()
    ensures law { (x : Beginning) → TroublesLaw V.state x }
{}

/// How a pass goes on that sees more: turns of others leave the merge job of the seat 1, and a look sees more whatever it finds. A pass
/// sees more where nothing changed, and where it sees more twice.
pub fn sees_law<V: ViewLaw>()
    ensures law { SeesLaw V.state }
{}

/// What others commit has no row in a bucket that a pass holds. So the bucket stands once the pass saw more, and also with an entry more
/// that is not in it.
pub fn held_law<B: BucketLaw, V: ViewLaw>()
    ensures rows { RowsElsewhere V.row.Denot }
    ensures stands { HeldStands B.bucket B.cached B.is_settled V.row.Denot }
    ensures beside { BesideStands B.bucket B.cached B.is_settled }
{}

/// What a front that is not behind the published number leaves in each node that a bucket of the hall does not cache is what the whole
/// history leaves in it, unless that is broken.
pub fn load_law<B: BucketLaw, V: ViewLaw>()
    ensures { LoadLaw B.bucket B.cached B.is_settled V.state }
{}
