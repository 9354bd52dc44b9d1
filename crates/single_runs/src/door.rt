//! The connections of a door are served, one after another.

ghost use Rattle.std.specs.Prelude.{◌≡◌, ◌≢◌, ◌≤◌, ◌<◌, ℕ, IsTrue};
ghost use Rattle.causes.specs.Counts.{Rose};
ghost use Rattle.disk_core.specs.Calls.{SameDisk};
ghost use Rattle.single_runs.specs.BadLogs.{EndsAtBad, FoundBad, IsBadLog};
ghost use Rattle.single_runs.specs.Door.{RunsDoor};

use disk_core::Disk;
use edge_io::Door;
use single_server::Ended;
use std::alloc::Global;

/// Serves at most `count` connections of the door over the log of the disk, which is made where the disk is blank.
///
/// With Done each image of the disk holds the records found and those of all connections, in their order; where the run is cut
/// off, the first of them, or one more. `stamp` is that of each record that is logged.
pub fn serve<D: Disk, G: Door>(
    alloc: Global,
    stamp: u64,
    count: u16,
    disk: &mut D,
    door: &mut G,
) -> Ended
    requires disk_size { 34_209_856 ≤ (D.view disk.old).size }
    ensures runs { RunsDoor result stamp count (G.visits door.old) (G.visits door.new) (D.view disk.old) (D.view disk.new) }
    ensures accept { result ≡ Ended.ReadFault → Rose (G.faults door.old).accept (G.faults door.new).accept }
    ensures write { result ≢ Ended.WriteFault }
    ensures disk { result ≡ Ended.DiskFault → Rose (D.view disk.old).faults (D.view disk.new).faults }
    ensures fenced { (held : ℕ) → result ≡ Ended.Fenced held → (1 < (D.view disk.old).current.held) × (held ≡ (D.view disk.old).current.held) }
    ensures fences { 1 < (D.view disk.old).current.held → result ≡ Ended.Fenced ((D.view disk.old).current.held) }
    ensures bad_log { (place : ℕ) → result ≡ Ended.BadLog place → IsTrue (D.view disk.old).tells → FoundBad place (D.view disk.old) (D.view disk.new) }
    ensures exact { (place : ℕ) → IsTrue (D.view disk.old).tells → IsBadLog (D.view disk.old).current.seen (D.view disk.old).size place → EndsAtBad place result }
    ensures same_disk { SameDisk (D.view disk.old) (D.view disk.new) }
{
    single_server::serve(alloc, stamp, count, disk, door)
}
