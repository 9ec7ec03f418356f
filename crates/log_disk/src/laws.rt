//! Laws of images and of eyes, for the crates above. The functions do nothing: what counts is what they ensure.

ghost use Rattle.log_disk.specs.Laws.{NowIsSince, OnlyNowSinceNow, TimeGoesOn, WritesTear, SyncsKeep, SyncedShows, CallsGrow, CallsContinue, CallsKeepSound, ContinuedKeeps, NewIsSound, RunsJoin, TimesJoin, EyesStayTrue};

/// Which images a crash may leave now, and which it might have left since a clock value, as time goes on.
pub fn moments_law()
    ensures now_since { NowIsSince }
    ensures only_now { OnlyNowSinceNow }
    ensures time { TimeGoesOn }
    ensures runs { RunsJoin }
    ensures times { TimesJoin }
    ensures continued { ContinuedKeeps }
{}

/// What a write and a sync do to the images that a crash may leave.
pub fn images_law()
    ensures writes { WritesTear }
    ensures syncs { SyncsKeep }
    ensures synced { SyncedShows }
{}

/// What each call, whether it fails or not, does to the images since earlier clock values, to the moments, and to what holds
/// at each of them, which also holds of a new disk.
pub fn calls_law()
    ensures grow { CallsGrow }
    ensures continues { CallsContinue }
    ensures sound { CallsKeepSound }
    ensures fresh { NewIsSound }
{}

/// As long as an eye is open, its regions on the disk hold its bytes.
pub fn eyes_law()
    ensures { EyesStayTrue }
{}
