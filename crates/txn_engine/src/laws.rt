//! Laws of open transactions, each the contract of a function that does nothing.

ghost use Rattle.txn_engine.specs.Laws.{AbortsIdle, BeginsLaw, CommitsIdle, LocalLaw, RefusedJob, RepliesLaw, SealsLaw, SealsNoJob, SeenLaw, ShowsLaw, ShowsNoJob, TriesLaw, TriesNoJob, TurnLaw};

/// A new transaction is open on a pass that holds no bucket, and an open one stays so once the pass saw more and holds the same buckets.
pub fn open_law()
    ensures begins { BeginsLaw }
    ensures seen { SeenLaw }
{}

/// An open transaction of a pass without the room stays open over a turn of this pass without an entry, in which it kept its buckets [`turn`], such as one that makes room [`tries`], seals what
/// waits [`seals`] or posts views alone [`shows`], whatever that comes to. No merge is out behind it then, whatever the pass holds [`tries_no_job`, `seals_no_job`, `shows_no_job`]. So a commit that was
/// refused for want of space may be tried again, as often as wanted. The transactions of the other passes that looked in their mailboxes meanwhile stay open by `open_law`.
pub fn turn_law()
    ensures turn { TurnLaw }
    ensures tries { TriesLaw }
    ensures seals { SealsLaw }
    ensures shows { ShowsLaw }
    ensures tries_no_job { TriesNoJob }
    ensures seals_no_job { SealsNoJob }
    ensures shows_no_job { ShowsNoJob }
{}

/// What a transaction answered stays its answer while others commit in buckets that its pass does not hold.
pub fn local_law()
    ensures { LocalLaw }
{}

/// Where no call of an open transaction wanted memory, and the log at entry was told and sound, its replies are the store's to its calls on all that its
/// pass saw.
pub fn replies_law()
    ensures { RepliesLaw }
{}

/// A pass that has no merge out has none after a commit, a refused commit or an abort; after a commit it holds nothing, and after an abort too where it
/// did not hold the room.
pub fn idle_law()
    ensures commits { CommitsIdle }
    ensures refused { RefusedJob }
    ensures aborts { AbortsIdle }
{}
