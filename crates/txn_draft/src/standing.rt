//! Laws of what a bucket stands for from one transaction to the next, each the contract of a function that does nothing.

ghost use Rattle.txn_draft.specs.Standing.{NewLaw, HoldsLaw, ServesLaw, SettleLaw, UndoLaw, EvictLaw, SameLaw, BesideLaw, UntouchedLaw};

use node_cache::NodeSource;

/// A new bucket stands for the history that has not begun. One that stands for a history holds what the log at entry and this history leave,
/// goes on standing for it once published nodes are evicted, and stands for each history that has the same commits in it: so for a longer one
/// whose later commits have no row there, as those of a draft have none without a call in the bucket.
pub fn stands_law()
    ensures new { NewLaw }
    ensures holds { HoldsLaw }
    ensures evict { EvictLaw }
    ensures same { SameLaw }
    ensures beside { BesideLaw }
    ensures untouched { UntouchedLaw }
{}

/// A source that tells the history up to an epoch, which is not below the one that was published when a bucket was taken, serves the bucket.
pub fn serves_law<S: NodeSource>()
    ensures { ServesLaw S.tells }
{}

/// A bucket that a transaction used stands for the history with its commit once it was settled, and for the same history once it was undone.
pub fn ends_law()
    ensures settle { SettleLaw }
    ensures undo { UndoLaw }
{}
