//! What every run tells clients.

ghost use Rattle.world_answers.specs.Promises.{OthersTellNothing, PointsNeverFall, RunsAreExplained};

/// What each incarnation of a node tells its clients is explained by the update order of the whole run: each item is taken
/// in its turn and answered at its point, each update by what its own record comes to there, each connection is closed by
/// its cause, and each record is the update of the request that its id names.
pub fn every_run_is_explained()
    ensures explained { RunsAreExplained }
    ensures points { PointsNeverFall }
    ensures nothing_else { OthersTellNothing }
{}
