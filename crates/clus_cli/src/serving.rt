//! The commands `session` and `serve`: node 1 over the log of the disk.

ghost use Rattle.std.specs.Prelude.{◌≡◌, ◌⊎◌, ◌≢◌, ◌<◌, ◌≤◌, ℕ, List, IsTrue};
ghost use Rattle.edge_io.specs.Visits.{Faults};
ghost use Rattle.command_words.specs.Commands as asked;
ghost use Rattle.single_runs.specs.BadLogs.{IsBadLog};
ghost use Rattle.clus_cli.specs.Commands.{stamp_of};
ghost use Rattle.clus_cli.specs.Ends.{MayEnd, outside};
ghost use Rattle.clus_cli.specs.Runs.{DoorRuns, SessionRuns};
ghost use Rattle.clus_cli.specs.Showlog.{EndsAtBad};

use crate::status::Status;
use disk_core::Disk;
use edge_io::{Door, Sink, Source};
use single_runs::{serve, session};
use single_server::Ended;
use std::alloc::Global;

/// Serves the client's stream.
pub(crate) fn serve_stream<S: Source, K: Sink, D: Disk>(
    alloc: Global,
    stamp: Option<u64>,
    input: &mut S,
    output: &mut K,
    disk: &mut D,
) -> Status
    requires disk_size { 34_209_856 ≤ (D.view disk.old).size }
    ensures runs { SessionRuns (stamp_of stamp) result (S.left input.old) (S.left input.new) (K.written output.old) (K.written output.new) (D.view disk.old) (D.view disk.new) }
    ensures ends { (old now : Faults) → MayEnd (asked.session stamp) result (outside (S.faults input.old) (K.faults output.old) old (D.view disk.old))
        (outside (S.faults input.new) (K.faults output.new) now (D.view disk.new)) }
    ensures bad_log { (place : ℕ) → IsTrue (D.view disk.old).tells → IsBadLog (D.view disk.old).current.seen (D.view disk.old).size place → EndsAtBad place result }
    ensures unchanged { (place : ℕ) → result ≡ Status.BadLog place → IsTrue (D.view disk.old).tells → (D.view disk.new).current.seen ≡ (D.view disk.old).current.seen }
    ensures fences { 1 < (D.view disk.old).current.held → result ≡ Status.Fenced ((D.view disk.old).current.held) }
{
    Status::from(session(alloc, stamp_or_zero(stamp), input, output, disk))
}

/// Serves the connections of the door, `count` of them at most.
pub(crate) fn serve_door<D: Disk, G: Door>(
    alloc: Global,
    stamp: Option<u64>,
    count: u16,
    disk: &mut D,
    door: &mut G,
) -> Status
    requires disk_size { 34_209_856 ≤ (D.view disk.old).size }
    ensures runs { DoorRuns (stamp_of stamp) count result (G.visits door.old) (G.visits door.new) (D.view disk.old) (D.view disk.new) }
    ensures ends { (address : List ℕ) (reads now_reads writes now_writes : ℕ) → MayEnd (asked.serve address count stamp) result
        (outside reads writes (G.faults door.old) (D.view disk.old)) (outside now_reads now_writes (G.faults door.new) (D.view disk.new)) }
    ensures bad_log { (place : ℕ) → IsTrue (D.view disk.old).tells → IsBadLog (D.view disk.old).current.seen (D.view disk.old).size place → EndsAtBad place result }
    ensures unchanged { (place : ℕ) → result ≡ Status.BadLog place → IsTrue (D.view disk.old).tells → (D.view disk.new).current.seen ≡ (D.view disk.old).current.seen }
    ensures fences { 1 < (D.view disk.old).current.held → result ≡ Status.Fenced ((D.view disk.old).current.held) }
{
    Status::from(serve(alloc, stamp_or_zero(stamp), count, disk, door))
}

fn stamp_or_zero(stamp: Option<u64>) -> u64
    ensures { result ≡ stamp_of stamp }
{
    match stamp {
        Some(stamp) => stamp,
        None => 0,
    }
}

impl From<Ended> for Status {
    ghost use Rattle.clus_cli.specs.Runs.{status_by};

    ghost from_gives = { λ ended gives. gives ≡ status_by ended };

    fn from(ended: Ended) -> Status {
        match ended {
            Ended::Done => Status::Done,
            Ended::ReadFault => Status::ReadFault,
            Ended::WriteFault => Status::WriteFault,
            Ended::DiskFault => Status::DiskFault,
            Ended::NoMemory => Status::NoMemory,
            Ended::BadLog { place } => Status::BadLog { place },
            Ended::Fenced { held } => Status::Fenced { held },
        }
    }
}
