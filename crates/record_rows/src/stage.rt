//! What a row finds.

use crate::fault::PlayFault;
use crate::order::Order;
use disk_core::{CrashDisk, Disk, MemDisk};
use quorum_log::{format, image_size};
use row_words::Names;
use std::alloc::Global;
use update_records::decode;

/// A disk in memory, the order that was recovered from it, and bytes that have names.
#[derive(Drop)]
pub(crate) struct Stage {
    pub(crate) alloc: Global,
    pub(crate) names: Names,
    disk: MemDisk,
    order: Option<Order>,
}

impl Stage {
    pub(crate) fn new(alloc: Global) -> Result<Stage, PlayFault> {
        Ok(Stage {
            alloc,
            names: Names::new(alloc),
            disk: MemDisk::new(alloc, 0)?,
            order: None,
        })
    }

    pub(crate) fn begin(&mut self, size: u64) -> Result<(), PlayFault> {
        self.order = None;
        self.disk = MemDisk::new(self.alloc, size)?;
        Ok(())
    }

    /// Writes to the disk under the fencing token that it holds.
    pub(crate) fn put(&mut self, place: u64, bytes: &[u8]) -> Result<(), PlayFault> {
        self.order = None;
        let size = self.disk.size();
        if size < place || size - place < bytes.len() as u64 {
            return Err(PlayFault::Bad);
        }
        let claim = self.disk.held();
        self.disk.write(claim, place, bytes)?;
        Ok(())
    }

    pub(crate) fn bytes(&mut self, place: u64, count: u64) -> Result<Vec<u8>, PlayFault> {
        let size = self.disk.size();
        if size < place || size - place < count {
            return Err(PlayFault::Bad);
        }
        let mut bytes = vec![in self.alloc; 0; count as usize]?;
        self.disk.read(place, &mut bytes)?;
        Ok(bytes)
    }

    pub(crate) fn claim(&mut self, number: u32) -> Result<(), PlayFault> {
        self.disk.claim(number)?;
        Ok(())
    }

    pub(crate) fn fail_in(&mut self, call: u32) {
        self.disk.fail_in(call);
    }

    /// The disk crashes behind all calls.
    pub(crate) fn crash(&mut self, bytes: &[u8]) {
        self.order = None;
        self.disk.fail_in(0);
        self.disk.crash(u32::MAX, bytes);
    }

    pub(crate) fn format(&mut self, claim: u32, cap: u32, state: &[u8]) -> Result<(), PlayFault> {
        self.order = None;
        if cap < 4096 || cap > 16_777_216 || state.len() as u64 > cap as u64 {
            return Err(PlayFault::Bad);
        }
        if self.disk.size() < image_size(cap) {
            return Err(PlayFault::Bad);
        }
        format(&mut self.disk, claim, cap, state)?;
        Ok(())
    }

    pub(crate) fn recover(&mut self, claim: u32) -> Result<String, PlayFault> {
        self.order = None;
        let order = Order::recover(self.alloc, &mut self.disk, claim)?;
        let text = order.text(self.alloc)?;
        self.order = Some(order);
        Ok(text)
    }

    pub(crate) fn add(&mut self, bytes: &[u8]) -> Result<(), PlayFault> {
        let Some(order) = self.order.take() else {
            return Err(PlayFault::Bad);
        };
        let entry = decode(self.alloc, bytes)?;
        self.order = Some(order.add(&mut self.disk, entry)?);
        Ok(())
    }

    pub(crate) fn checkpoint(&mut self) -> Result<(), PlayFault> {
        let Some(order) = self.order.take() else {
            return Err(PlayFault::Bad);
        };
        self.order = Some(order.checkpoint(&mut self.disk)?);
        Ok(())
    }

    /// The encoding of the registry behind the last record.
    pub(crate) fn state(&self) -> Result<Vec<u8>, PlayFault> {
        match &self.order {
            Some(order) => order.state(),
            None => Err(PlayFault::Bad),
        }
    }
}
