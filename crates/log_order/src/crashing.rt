//! Calls are refused, calls have passed, or a crash comes inside them.

ghost use Rattle.log_order.specs.CrashLaws.{CheckpointFenced, CrashedRefines, CrashedRefinesOne, Died, DiedRefines, FencedKeeps, PassedRefines, PassesNow, SameMoment};

/// Calls under a token that the disk has outgrown are refused, and change nothing; so are those of a checkpoint.
pub fn fenced_calls_change_nothing()
    ensures calls { FencedKeeps }
    ensures checkpoint { CheckpointFenced }
{}

/// Where the moment is the same, as behind a read, a mark or calls that are fenced, so are the log and who owns it.
pub fn same_moment_refines()
    ensures { SameMoment }
{}

/// Where each moment is one of a log, the present one is.
pub fn present_moment_is_one()
    ensures moment { PassesNow }
    ensures refines { PassedRefines }
{}

/// A crash since the mark comes at one of the moments.
pub fn crash_comes_at_a_moment()
    ensures { Died }
{}

/// Behind a crash at a moment of a log the disk is again one of that log.
pub fn crashed_log_refines()
    ensures moment { DiedRefines }
    ensures log { CrashedRefines }
    ensures one { CrashedRefinesOne }
{}
