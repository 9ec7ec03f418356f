//! Laws of runs, each the contract of a function that does nothing.

ghost use Rattle.std.specs.Prelude.{List, ℕ};
ghost use Rattle.fine_model.specs.declared.law.Origin.{Origin};
ghost use Rattle.fine_model.specs.History.{Commit};
ghost use Rattle.run_laws.specs.Going.{CommitsLaw, FewEnd, FewLess, FewMore, FewWait, FullLaw, LaterLaw, NeedCommits, NeedEnds, NeedSealed, NeedStays, NeedStill, SealsLaw, StaysLaw};
ghost use Rattle.run_laws.specs.Lanes.{CutShortLaw};
ghost use Rattle.run_laws.specs.Law.{BehindLaw, DoneLaw, NothingLaw, ReadyLaw, RunLaw, StatusLaw};
ghost use Rattle.run_laws.specs.Reading.{LegalLaw, SeesLaw, UnsoundLaw};
ghost use Rattle.run_laws.specs.SoFar.{BeginsLaw, EndsLaw, FinishedLaw, LaneEndsLaw, NextLaw, RefusedNext, SetsLaw, StepsLaw};
ghost use Rattle.run_laws.specs.Told.{MoreBeside, MoreByLane, ToldMore, ToldStays};
ghost use Rattle.run_laws.specs.Turns.{CausesLaw, InTurnLaw, StaysRefused};

/// The buckets of a body together: that they stand for a history on a log, while an epoch is published.
pub trait BucketsLaw {
    ghost stand_for: { Origin → ℕ → Self → List Commit → Type 0 };
}

/// On a room that was just made of a log a run may begin.
pub fn ready_law()
    ensures { ReadyLaw }
{}

/// On each sound log that the disk told at entry, a run of lanes is a run in the words of the theorem, with its causes, its needs and its fault.
/// With status 0, 6 or 8 the run was done.
pub fn run_law()
    ensures run { RunLaw }
    ensures done { DoneLaw }
{}

/// On each log that the disk told at entry, sound or not, a run of lanes has what a report says beside its text, and names damage only where this log is not sound.
pub fn behind_law()
    ensures { BehindLaw }
{}

/// On every disk the status of a run tells of the disk's count of faults: 6 only where it rose, and 6, or 1 before it, where it is greater.
pub fn status_law()
    ensures { StatusLaw }
{}

/// A run of no transaction, and one for which there was no memory to begin, leave the room as it is.
pub fn nothing_law()
    ensures { NothingLaw }
{}

/// Where transactions are run in the order of the script, their outcomes are those of one history: that of their commits, one after the other.
pub fn in_turn_law()
    ensures { InTurnLaw }
{}

/// Where each transaction that was not run is of a lane that has ended: with no lane ended all was run, and where lanes have ended by a failed disk
/// alone, no more were cut short than it ended.
pub fn cut_short_law()
    ensures { CutShortLaw }
{}

/// What a room refused it would refuse for the same reason as it goes on; and where transactions are run in the order of the script, one that was
/// refused after the commits before it has its cause at the end, where nothing is committed after a refusal as full.
pub fn causes_law()
    ensures stays { StaysRefused }
    ensures causes { CausesLaw }
{}

/// The outcomes so far of a body on one thread: with that of the next transaction, which is set in the list of all, they are those of one more, each that
/// was refused has its cause still, and they stay as a lane ends.
pub fn so_far_law()
    ensures next { NextLaw }
    ensures sets { SetsLaw }
    ensures refused { RefusedNext }
    ensures lane_ends { LaneEndsLaw }
{}

/// The room of a body on one thread goes on: by calls that add and seal nothing, by an entry more, and by a seal, whatever it answers. Where it takes
/// nothing any more, its log is stuck.
pub fn going_law()
    ensures later { LaterLaw }
    ensures stays { StaysLaw }
    ensures commits { CommitsLaw }
    ensures seals { SealsLaw }
    ensures full { FullLaw }
{}

/// How few entries of a lane wait: as some entries wait, as a lane that goes on commits, as one ends with a commit, and as one ends without.
pub fn few_law()
    ensures wait { FewWait }
    ensures more { FewMore }
    ensures end { FewEnd }
    ensures less { FewLess }
{}

/// What epochs were sealed for, as one lane runs: it stays where nothing is sealed, as what waits is sealed, and with a commit more; and as a full group is
/// sealed, it ends so.
pub fn need_law()
    ensures stays { NeedStays }
    ensures still { NeedStill }
    ensures sealed { NeedSealed }
    ensures commits { NeedCommits }
    ensures ends { NeedEnds }
{}

/// What is read through a view of what is sealed: on a sound log its rows agree with the commits up to its epoch, the commits are legal, and no load names
/// damage.
pub fn reading_law()
    ensures sees { SeesLaw }
    ensures legal { LegalLaw }
    ensures unsound { UnsoundLaw }
{}

/// What faults tell (`AreTold`): where no call failed, all stays as it was told; so it does with a fault more, whether it ends a lane or is told beside
/// those of lanes.
pub fn told_law()
    ensures stays { ToldStays }
    ensures more { ToldMore }
    ensures by_lane { MoreByLane }
    ensures beside { MoreBeside }
{}

/// The body on one thread, with buckets of any kind: it begins on a room that is ready, the step of each transaction keeps what holds of it, and it has
/// finished where the view was taken back after the last one, and what waited was sealed.
pub fn body_law<B: BucketsLaw>()
    ensures begins { BeginsLaw B.stand_for }
    ensures steps { StepsLaw B.stand_for }
    ensures ends { EndsLaw B.stand_for }
{}

/// Where the body on one thread has finished, what it leaves is a run.
pub fn finished_law()
    ensures { FinishedLaw }
{}
