//! Laws of open transactions, each the contract of a function that does nothing.

ghost use Rattle.open_txn.specs.Opened.{AbortLaw, FollowsLaw};
ghost use Rattle.open_txn.specs.Traces.{BehindLaw, NumberLaw, RefusedLaw, SavedLaw};

use node_cache::NodeSource;

/// A transaction all of whose calls were answered may be taken back.
pub fn abort_law()
    ensures { AbortLaw }
{}

/// Its commit may follow on the history, and the history with it is legal.
pub fn follows_law()
    ensures { FollowsLaw }
{}

/// What calls did in a bucket, on every disk: calls behind calls are all of these [`behind`]; the bucket keeps its number [`number`]; if it rested before them, each node
/// that is saved is cached [`saved`]. Of a call that was refused, whichever it is, nothing is left but loads once the bucket is undone, and a node that it names is the
/// first on its way that is not fit [`refused`].
pub fn traces_law<S: NodeSource>()
    ensures behind { BehindLaw S.tells S.finds S.upper }
    ensures number { NumberLaw S.tells S.finds S.upper }
    ensures saved { SavedLaw S.tells S.finds S.upper }
    ensures refused { RefusedLaw S.tells S.finds S.upper }
{}
