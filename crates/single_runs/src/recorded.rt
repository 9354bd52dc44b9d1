//! A recorded stream is served.

ghost use Rattle.std.specs.Prelude.{◌≡◌, ◌≤◌, ◌<◌, ℕ, IsTrue};
ghost use Rattle.causes.specs.Counts.{Rose};
ghost use Rattle.disk_core.specs.Calls.{SameDisk};
ghost use Rattle.single_runs.specs.BadLogs.{EndsAtBad, FoundBad, IsBadLog};
ghost use Rattle.single_runs.specs.Session.{RunsSession};

use disk_core::Disk;
use edge_io::{Sink, Source};
use single_server::Ended;
use std::alloc::Global;

/// Serves one recorded stream of a client over the log of the disk, which is made where the disk is blank.
///
/// With Done each image of the disk holds the records found and those of the stream; where the run is cut off, the first of them,
/// or one more. `stamp` is that of each record that is logged.
pub fn session<S: Source, K: Sink, D: Disk>(
    alloc: Global,
    stamp: u64,
    input: &mut S,
    output: &mut K,
    disk: &mut D,
) -> Ended
    requires disk_size { 34_209_856 ≤ (D.view disk.old).size }
    ensures runs { RunsSession result stamp (S.left input.old) (S.left input.new) (K.written output.old) (K.written output.new) (D.view disk.old) (D.view disk.new) }
    ensures read { result ≡ Ended.ReadFault → Rose (S.faults input.old) (S.faults input.new) }
    ensures write { result ≡ Ended.WriteFault → Rose (K.faults output.old) (K.faults output.new) }
    ensures disk { result ≡ Ended.DiskFault → Rose (D.view disk.old).faults (D.view disk.new).faults }
    ensures fenced { (held : ℕ) → result ≡ Ended.Fenced held → (1 < (D.view disk.old).current.held) × (held ≡ (D.view disk.old).current.held) }
    ensures fences { 1 < (D.view disk.old).current.held → result ≡ Ended.Fenced ((D.view disk.old).current.held) }
    ensures bad_log { (place : ℕ) → result ≡ Ended.BadLog place → IsTrue (D.view disk.old).tells → FoundBad place (D.view disk.old) (D.view disk.new) }
    ensures exact { (place : ℕ) → IsTrue (D.view disk.old).tells → IsBadLog (D.view disk.old).current.seen (D.view disk.old).size place → EndsAtBad place result }
    ensures same_disk { SameDisk (D.view disk.old) (D.view disk.new) }
{
    single_server::session(alloc, stamp, input, output, disk)
}
