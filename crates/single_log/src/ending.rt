//! What a run leaves, from before the opening to its end.

ghost use Rattle.single_log.specs.Leaving.{DoubtIsAlones, RunIsCut, RunIsDone};

/// Behind the records that were added each image holds the records found and these, and at each moment since the opening
/// the first so many of them, or one more.
pub fn run_is_done()
    ensures { RunIsDone }
{}

/// Where the run is cut off at a message each image holds the records before it, or the one in doubt too, which is Alone's
/// next one.
pub fn run_is_cut()
    ensures images { RunIsCut }
    ensures doubtful { DoubtIsAlones }
{}
