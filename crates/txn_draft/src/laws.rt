//! Laws of drafts, each the contract of a function that does nothing.

ghost use Rattle.txn_draft.specs.Laws.{BlankLaw, NextLaw, LocalLaw, TakenLaw, OthersLaw, BetweenLaw, RestoredLaw, UsedLaw};
ghost use Rattle.txn_draft.specs.Undoing.{RestoresLaw, UndoesLaw};

/// On sound rows, a draft without calls is answered.
pub fn blank_law()
    ensures { BlankLaw }
{}

/// A draft that is answered on a legal history may follow on it.
pub fn next_law()
    ensures { NextLaw }
{}

/// An answer depends on the rows in the buckets of its calls alone.
pub fn local_law()
    ensures { LocalLaw }
{}

/// A bucket at rest is as it was taken, and rows of other buckets leave what it holds and what was done to it.
pub fn bucket_law()
    ensures taken { TakenLaw }
    ensures others { OthersLaw }
    ensures between { BetweenLaw }
    ensures restored { RestoredLaw }
    ensures used { UsedLaw }
{}

/// Whatever a call answered, want of memory too, undoing the bucket restores what the rows leave, and what was cached or loaded.
pub fn undoing_law()
    ensures restores { RestoresLaw }
    ensures undoes { UndoesLaw }
{}
