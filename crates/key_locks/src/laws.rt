//! Laws of sets and passes.

ghost use Rattle.key_locks.specs.Locks.{StandLaw, HoldLaw, HoldRoomLaw};

use fine_model::{BucketLaw, ViewLaw};

/// Where each content in a set stood for the whole history that its pass saw, it still does once the pass saw more, as by a refresh, by
/// reading the published number or by taking the room.
pub fn stand_law<B: BucketLaw, V: ViewLaw>()
    ensures { StandLaw V.row.Denot B.bucket B.cached B.is_settled }
{}

/// A set has the contents of just the buckets that its pass holds, as long as that holds the same, and also once the pass took the room
/// or gave it back.
pub fn hold_law<B: BucketLaw, V: ViewLaw>()
    ensures same { HoldLaw V.row.Denot B.row.Denot }
    ensures room { HoldRoomLaw V.row.Denot B.row.Denot }
{}
