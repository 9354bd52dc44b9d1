//! A disk in memory, and the log that is open on it.
ghost use Rattle.std.specs.Prelude.{◌+◌, IfOk, Some};
ghost use Rattle.disk_core.specs.Notes.{view_of};
ghost use Rattle.log_rows.specs.Keeping.{IsKept};

use crate::fault::PlayFault;
use disk_core::{CrashDisk, Disk, MemDisk};
use quorum_log::{Found, Log, MOST_RECORD, MOST_RECORDS, format, image_size};
use std::alloc::Global;
use std::marker::Model;

/// A disk with the log that is open on it, its cap, and how many records it was given in all.
#[derive(Drop)]
pub(crate) struct LogDisk {
    disk: MemDisk,
    log: Option<Log>,
    cap: u32,
    number: u64,
}

impl Model for LogDisk {
    ghost use Rattle.disk_core.specs.Notes.{view_of};
    ghost use Rattle.log_rows.specs.Keeping.{IsKept};

    ghost Value = { Unit {0} };

    ghost view = { λ _. tt };

    ghost invariant = { λ logs. IsKept logs.log (view_of logs.disk) logs.cap logs.number };
}

impl LogDisk {
    pub(crate) fn new(alloc: Global, size: u64) -> Result<LogDisk, PlayFault> {
        Ok(LogDisk::on(MemDisk::new(alloc, size)?))
    }

    /// A disk with these bytes, which holds that fencing token.
    pub(crate) fn with(alloc: Global, image: &[u8], held: u32) -> Result<LogDisk, PlayFault> {
        let mut disk = MemDisk::new(alloc, image.len() as u64)?;
        put_on(&mut disk, 0, image)?;
        disk.claim(held)?;
        disk.sync(held)?;
        disk.mark();
        Ok(LogDisk::on(disk))
    }

    fn on(disk: MemDisk) -> LogDisk {
        LogDisk {
            disk,
            log: None,
            cap: 0,
            number: 0,
        }
    }

    /// All bytes of the disk.
    pub(crate) fn image(&mut self, alloc: Global) -> Result<Vec<u8>, PlayFault> {
        let size = self.disk.size();
        self.bytes(alloc, 0, size)
    }

    pub(crate) fn bytes(
        &mut self,
        alloc: Global,
        place: u64,
        count: u64,
    ) -> Result<Vec<u8>, PlayFault> {
        let size = self.disk.size();
        if size < place || size - place < count {
            return Err(PlayFault::Bad);
        }
        let mut bytes = vec![in alloc; 0; count as usize]?;
        self.disk.read(place, &mut bytes)?;
        Ok(bytes)
    }

    pub(crate) fn held(&self) -> u32 {
        self.disk.held()
    }

    pub(crate) fn calls(&self) -> u32 {
        self.disk.calls()
    }

    pub(crate) fn claim(&mut self, number: u32) -> Result<(), PlayFault> {
        self.disk.claim(number)?;
        Ok(())
    }

    pub(crate) fn fail_in(&mut self, call: u32) {
        self.disk.fail_in(call);
    }

    pub(crate) fn mark(&mut self) {
        self.disk.mark();
    }

    pub(crate) fn put(&mut self, place: u64, bytes: &[u8]) -> Result<(), PlayFault> {
        self.log = None;
        put_on(&mut self.disk, place, bytes)
    }

    pub(crate) fn crash(&mut self, moment: u32, bytes: &[u8]) {
        self.log = None;
        self.disk.fail_in(0);
        self.disk.crash(moment, bytes);
    }

    pub(crate) fn format(&mut self, claim: u32, cap: u32, state: &[u8]) -> Result<(), PlayFault> {
        self.log = None;
        if cap < 4096 || cap > 16_777_216 || state.len() as u64 > cap as u64 {
            return Err(PlayFault::Bad);
        }
        if self.disk.size() < image_size(cap) {
            return Err(PlayFault::Bad);
        }
        format(&mut self.disk, claim, cap, state)?;
        Ok(())
    }

    pub(crate) fn open(&mut self, alloc: Global, claim: u32) -> Result<Found, PlayFault> {
        self.log = None;
        if self.disk.size() < 64 {
            return Err(PlayFault::Bad);
        }
        let (log, found) = Log::open(alloc, &mut self.disk, claim)?;
        self.cap = found.cap;
        self.number = found.base + found.records.as_slice().len() as u64;
        self.log = Some(log);
        Ok(found)
    }

    pub(crate) fn version(&self) -> Result<u32, PlayFault> {
        match &self.log {
            Some(log) => Ok(log.version()),
            None => Err(PlayFault::Bad),
        }
    }

    pub(crate) fn fits(&self, length: usize) -> Result<bool, PlayFault> {
        match &self.log {
            Some(log) => Ok(log.fits(length)),
            None => Err(PlayFault::Bad),
        }
    }

    pub(crate) fn append(&mut self, bytes: &[u8]) -> Result<(), PlayFault> {
        let Some(log) = self.log.take() else {
            return Err(PlayFault::Bad);
        };
        if self.number >= MOST_RECORDS {
            return Err(PlayFault::Bad);
        }
        let log = append_to(&mut self.disk, log, self.cap, self.number, bytes)?;
        self.number += 1;
        self.log = Some(log);
        Ok(())
    }

    pub(crate) fn checkpoint(&mut self, state: &[u8], last: &[u8]) -> Result<(), PlayFault> {
        let Some(log) = self.log.take() else {
            return Err(PlayFault::Bad);
        };
        let log = checkpoint_of(&mut self.disk, log, self.cap, self.number, state, last)?;
        self.log = Some(log);
        Ok(())
    }
}

/// Writes to the disk under the fencing token that it holds.
fn put_on(disk: &mut MemDisk, place: u64, bytes: &[u8]) -> Result<(), PlayFault> {
    let size = disk.size();
    if size < place || size - place < bytes.len() as u64 {
        return Err(PlayFault::Bad);
    }
    let claim = disk.held();
    disk.write(claim, place, bytes)?;
    Ok(())
}

fn append_to(
    disk: &mut MemDisk,
    log: Log,
    cap: u32,
    number: u64,
    bytes: &[u8],
) -> Result<Log, PlayFault>
    requires { IsKept (Some log) (view_of disk.old) cap number }
    ensures { IfOk result (λ further. IsKept (Some further) (view_of disk.new) cap (number + 1)) }
{
    if log.version() != 2 || number >= MOST_RECORDS {
        return Err(PlayFault::Bad);
    }
    if bytes.is_empty() || bytes.len() > MOST_RECORD || !log.fits(bytes.len()) {
        return Err(PlayFault::Bad);
    }
    Ok(log.append(disk, bytes)?)
}

fn checkpoint_of(
    disk: &mut MemDisk,
    log: Log,
    cap: u32,
    number: u64,
    state: &[u8],
    last: &[u8],
) -> Result<Log, PlayFault>
    requires { IsKept (Some log) (view_of disk.old) cap number }
    ensures { IfOk result (λ further. IsKept (Some further) (view_of disk.new) cap number) }
{
    if state.len() as u64 > cap as u64 || last.len() > MOST_RECORD {
        return Err(PlayFault::Bad);
    }
    if last.is_empty() != (number == 0) {
        return Err(PlayFault::Bad);
    }
    Ok(log.checkpoint(disk, state, last)?)
}
