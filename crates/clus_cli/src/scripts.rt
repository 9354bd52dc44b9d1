//! The commands `replay` and `drill`: a script of a cluster, as it is read and as a number generates it.

ghost use Rattle.std.specs.Prelude.{◌≤◌};
ghost use Rattle.clus_cli.specs.Scripts.{DrillRuns, MayDrill, MayReplay, ReplayRuns};
ghost use Rattle.script_player.specs.Replaying.{edges};

use crate::status::Status;
use edge_io::{Sink, Source};
use script_player::{Replayed, drill, replay};
use std::alloc::Global;

impl From<Replayed> for Status {
    ghost use Rattle.std.specs.Prelude.{◌≡◌};
    ghost use Rattle.clus_cli.specs.Scripts.{status_from};

    ghost from_gives = { λ replayed status. status ≡ status_from replayed };

    fn from(replayed: Replayed) -> Status {
        match replayed {
            Replayed::Done => Status::Done,
            Replayed::BadScript { line, fault } => Status::BadScript { line, fault },
            Replayed::ReadFault => Status::ReadFault,
            Replayed::WriteFault => Status::WriteFault,
            Replayed::NoMemory => Status::NoMemory,
            Replayed::TooLong => Status::TooLong,
        }
    }
}

/// Plays the script that the input has, and prints what happens.
pub(crate) fn replay_script<S: Source, K: Sink>(
    alloc: Global,
    input: &mut S,
    output: &mut K,
) -> Status
    ensures runs { ReplayRuns result (edges (S.left input.old) (K.written output.old)) (edges (S.left input.new) (K.written output.new)) }
    ensures may { MayReplay result (S.faults input.old) (S.faults input.new) (K.faults output.old) (K.faults output.new) }
{
    Status::from(replay(alloc, input, output))
}

/// Plays the script of so many rounds that this number generates, and prints how often values of each kind were told.
pub(crate) fn drill_script<K: Sink>(
    alloc: Global,
    number: u64,
    events: u32,
    output: &mut K,
) -> Status
    requires rounds { events ≤ 100_000 }
    ensures runs { DrillRuns number events result (K.written output.old) (K.written output.new) }
    ensures may { MayDrill result (K.faults output.old) (K.faults output.new) }
{
    Status::from(drill(alloc, number, events, output))
}
