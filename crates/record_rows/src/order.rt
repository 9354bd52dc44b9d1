//! An update order that was recovered, with what its log doesn't keep.
ghost use Rattle.std.specs.Prelude.{◌≡◌, ◌↔◌, ◌≤◌, IsTrue, None};
ghost use Rattle.disk_core.specs.Notes.{view_of};
ghost use Rattle.quorum_log.specs.Layout.{image_size};

use crate::fault::PlayFault;
use disk_core::{Disk, MemDisk};
use quorum_log::{MOST_RECORDS, image_size};
use record_log::{RecordLog, Recovered};
use std::alloc::Global;
use std::marker::Model;
use update_records::Record;

/// The log of an order, and what is behind its last record.
#[derive(Drop)]
pub(crate) struct Order {
    log: RecordLog,
    told: Recovered,
}

impl Model for Order {
    ghost use Rattle.record_rows.specs.Orders.{IsToldOf};

    ghost Value = { Unit {0} };

    ghost view = { λ _. tt };

    ghost invariant = { λ order. IsToldOf order.log order.told };
}

impl Order {
    pub(crate) fn recover(
        alloc: Global,
        disk: &mut MemDisk,
        claim: u32,
    ) -> Result<Order, PlayFault> {
        if disk.size() < 64 {
            return Err(PlayFault::Bad);
        }
        let (log, told) = RecordLog::recover(alloc, disk, claim)?;
        Ok(Order { log, told })
    }

    pub(crate) fn add(self, disk: &mut MemDisk, entry: Record) -> Result<Order, PlayFault> {
        let Order { log, mut told } = self;
        if told.count >= MOST_RECORDS || !is_ready(disk, &told) {
            return Err(PlayFault::Bad);
        }
        let log = log.add(disk, &entry, &told.registry, told.last.as_ref())?;
        told.registry
            .apply(entry.place, entry.stamp, &entry.update)?;
        told.last = Some(entry);
        told.count += 1;
        Ok(Order { log, told })
    }

    pub(crate) fn checkpoint(self, disk: &mut MemDisk) -> Result<Order, PlayFault> {
        let Order { log, told } = self;
        if !is_ready(disk, &told) {
            return Err(PlayFault::Bad);
        }
        let log = log.checkpoint(disk, &told.registry, told.last.as_ref())?;
        Ok(Order { log, told })
    }

    /// How many records it has, its cap, the last one's number and the size of the registry.
    pub(crate) fn text(&self, alloc: Global) -> Result<String, PlayFault> {
        let count = self.told.count;
        let cap = self.told.cap;
        let size = self.told.registry.size();
        match &self.told.last {
            Some(last) => {
                let place = last.place;
                Ok(format!(in alloc; "order {count} cap {cap} last {place} registry {size}")?)
            }
            None => Ok(format!(in alloc; "order {count} cap {cap} last none registry {size}")?),
        }
    }

    /// The encoding of the registry.
    pub(crate) fn state(&self) -> Result<Vec<u8>, PlayFault> {
        Ok(self.told.registry.to_bytes()?)
    }
}

/// Whether the order and its disk are such as can be written.
fn is_ready(disk: &MemDisk, told: &Recovered) -> bool
    ensures cap { IsTrue result → told.now.registry.cap ≡ told.now.cap }
    ensures last { IsTrue result → (told.now.last ≡ None) ↔ (told.now.count ≡ 0) }
    ensures disk_size { IsTrue result → image_size told.now.cap ≤ (view_of disk.now).size }
{
    told.registry.cap() == told.cap
        && told.last.is_none() == (told.count == 0)
        && disk.size() >= image_size(told.cap)
}
