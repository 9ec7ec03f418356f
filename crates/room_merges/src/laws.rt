//! Laws of a merge through a view, for those that run one. The function does nothing: what counts is what it ensures.

ghost use Rattle.room_merges.specs.Work.{TurnsLast};
ghost use Rattle.room_merges.specs.Merging.{BlocksBegin, BlocksEnd, BlocksGoOn, BodyIsWritten, JoiningBegins, JoiningEnds, JoiningGoesOn, JoiningLasts, MeasureIsTold, ShownByEye, WritingLasts};

/// What a read of the disk tells of a part of a view that stands on the board, the view's eye tells too [`shown`]. So what a measure, the
/// first block, each block and the end say of all rows that an eye tells, goes along with what the job's target holds [`measured`, `begin`,
/// `more`, `end`], and in the end is what sealing asks of all rows that a read of the disk tells [`written`]. Where the eye tells bytes, in the
/// grammar or not, what blocks say of the lists of rows that were joined goes along with it too [`joining_begins`, `joining_more`, `joining_ends`].
/// All of it lasts while others have turns at the room, whose calls leave the job and what its target holds as they are [`lasts`, `joining_lasts`]; and so does what
/// `write_next` asks of its blocks [`turns_last`].
pub fn merge_law()
    ensures shown { ShownByEye }
    ensures measured { MeasureIsTold }
    ensures begin { BlocksBegin }
    ensures more { BlocksGoOn }
    ensures end { BlocksEnd }
    ensures written { BodyIsWritten }
    ensures joining_begins { JoiningBegins }
    ensures joining_more { JoiningGoesOn }
    ensures joining_ends { JoiningEnds }
    ensures lasts { WritingLasts }
    ensures joining_lasts { JoiningLasts }
    ensures turns_last { TurnsLast }
{}
