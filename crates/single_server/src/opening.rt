//! The log of the disk is opened, and the node over it.

ghost use Rattle.std.specs.Prelude.{◌≡◌, ◌≤◌, ◌<◌, IfOk};
ghost use Rattle.disk_core.specs.Calls.{SameDisk};
ghost use Rattle.cluster_node.specs.States.{HasRoom};
ghost use Rattle.quorum_log.specs.Layout.{most_records};
ghost use Rattle.single_server.specs.Begins.{Begins, Counts, MakesLog};

use crate::ended::Ended;
use clus_registry::EMPTY_STATE;
use disk_core::Disk;
use quorum_log::{Log, OpenFault, format};
use single_node::Single;
use std::alloc::Global;

/// The fencing token of a node that is alone.
const TOKEN: u32 = 1;

/// The capacity of a log that is made on a blank disk.
const CAP: u32 = 1_048_576;

/// Node 1, in the incarnation behind the records that the log holds. On a blank disk an empty log is made.
pub(crate) fn open<D: Disk>(alloc: Global, stamp: u64, disk: &mut D) -> Result<Single, Ended>
    requires disk_size { 34_209_856 ≤ (D.view disk.old).size }
    ensures begins { Begins stamp (D.view disk.old) result (D.view disk.new) }
    ensures room { IfOk result (λ single. HasRoom single.node (D.view disk.new)) }
    ensures same_disk { SameDisk (D.view disk.old) (D.view disk.new) }
{
    let count = count_records(alloc, disk)?;
    match Single::open(alloc, disk, count + 1, stamp) {
        Ok(single) => Ok(single),
        Err(fault) => Err(Ended::at_start(fault)),
    }
}

/// How many records the log holds, those before its state among them.
fn count_records<D: Disk>(alloc: Global, disk: &mut D) -> Result<u64, Ended>
    requires disk_size { 34_209_856 ≤ (D.view disk.old).size }
    ensures counts { Counts (D.view disk.old) result (D.view disk.new) }
    ensures few { IfOk result (λ count. count ≤ most_records) }
    ensures same_disk { SameDisk (D.view disk.old) (D.view disk.new) }
{
    match Log::open(alloc, disk, TOKEN) {
        Ok((_, found)) => Ok(found.base + found.records.as_slice().len() as u64),
        Err(OpenFault::Blank) => make_log(disk),
        Err(OpenFault::Failed) => Err(Ended::DiskFault),
        Err(OpenFault::Fenced { held }) => Err(Ended::Fenced { held }),
        Err(OpenFault::BadImage { place }) => Err(Ended::BadLog { place }),
        Err(OpenFault::Memory) => Err(Ended::NoMemory),
    }
}

/// An empty log, which holds no record.
fn make_log<D: Disk>(disk: &mut D) -> Result<u64, Ended>
    requires disk_size { 34_209_856 ≤ (D.view disk.old).size }
    ensures made { MakesLog (D.view disk.old) result (D.view disk.new) }
    ensures same_disk { SameDisk (D.view disk.old) (D.view disk.new) }
{
    match format(disk, TOKEN, CAP, &EMPTY_STATE) {
        Ok(()) => Ok(0),
        Err(fault) => Err(Ended::by_disk(fault)),
    }
}
