//! A log of records is recovered.
ghost use Rattle.std.specs.Prelude.{◌≡◌, ◌≤◌, ◌+◌, length, IfOk, IsTrue, Result};
ghost use Rattle.disk_core.specs.Views.{Passes};
ghost use Rattle.disk_core.specs.Calls.{SameDisk};
ghost use Rattle.cluster_rules.specs.Machines.{replay};
ghost use Rattle.quorum_log.specs.declared.found.Found as found;
ghost use Rattle.quorum_log.specs.declared.fault.OpenFault as fault;
ghost use Rattle.quorum_log.specs.Layout.{most_records};
ghost use Rattle.quorum_log.specs.Opening.{IsInOpen, OpenCalls};
ghost use Rattle.registry_machine.specs.Machine.{registry_machine, replicated};
ghost use Rattle.record_log.specs.Opening.{ComesOf, Decoding, OpensTo};
ghost use Rattle.log_order.specs.Orders.{last_behind};

use crate::fault::RecordFault;
use crate::record_log::RecordLog;
use crate::recovered::Recovered;
use clus_registry::Registry;
use disk_core::Disk;
use log_contents::{LogContents, Records, decode_contents};
use quorum_log::{Found, Log};
use std::alloc::{AllocError, Global};
use update_records::Record;

impl RecordLog {
    /// Recovers the update order from the log that the disk holds, under the fencing token `claim`.
    ///
    /// A disk with no log, one whose image fails a check and one with a part that doesn't decode are refused.
    pub fn recover<D: Disk>(
        alloc: Global,
        disk: &mut D,
        claim: u32,
    ) -> Result<(RecordLog, Recovered), RecordFault>
        requires { 64 ≤ (D.view disk.old).size }
        ensures opens { OpensTo claim (D.view disk.old) result (D.view disk.new) }
        ensures same { SameDisk (D.view disk.old) (D.view disk.new) }
        ensures calls { (answer : Result found.Found fault.OpenFault) × OpenCalls claim (D.view disk.old) answer (D.view disk.new) × ComesOf answer result }
        ensures any_moment { IsTrue (D.view disk.old).tells → Passes (IsInOpen (D.view disk.old).current claim) (D.view disk.old) (D.view disk.new) }
    {
        let (log, found) = Log::open(alloc, disk, claim)?;
        let recovered = recovered(alloc, &found)?;
        Ok((RecordLog { alloc, log }, recovered))
    }
}

/// What the log that was found says of the update order.
fn recovered(alloc: Global, found: &Found) -> Result<Recovered, RecordFault>
    requires { found.now.base + length found.now.records ≤ most_records }
    ensures { Decoding found.now result }
{
    let contents = decode_contents(alloc, found)?;
    let count = found.base + found.records.as_slice().len() as u64;
    let LogContents {
        registry,
        last,
        records,
    } = contents;
    let registry = replayed(registry, records.as_slice())?;
    Ok(Recovered {
        count,
        cap: found.cap,
        last: last_behind(last, records),
        registry,
    })
}

/// The registry behind these records, each applied with its sequence number and its stamp.
fn replayed(mut registry: Registry, records: &[Record]) -> Result<Registry, AllocError>
    ensures replayed { IfOk result (λ behind. replicated behind ≡ replay registry_machine records.now (replicated registry)) }
    ensures cap { IfOk result (λ behind. behind.cap ≡ registry.cap) }
{
    'records: for record in records {
        registry.apply(record.place, record.stamp, &record.update)?;
    }
    Ok(registry)
}

/// The last of these records, or where there are none the one before them.
fn last_behind(before: Option<Record>, records: Records) -> Option<Record>
    ensures { result ≡ last_behind before records }
{
    let mut items = records.into_vec();
    match items.pop() {
        Some(last) => Some(last),
        None => before,
    }
}
