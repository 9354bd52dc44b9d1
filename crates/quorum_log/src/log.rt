//! An open log.
ghost use Rattle.std.specs.Prelude.{◌≡◌, ◌+◌, ◌<◌, IsTrue, ◌↔◌};

use crate::found::Found;
use crate::layout::{half_at, half_size};
use std::alloc::{AllocError, Global};
use std::marker::Model;

/// A log that was opened and can be written.
#[derive(Drop)]
pub struct Log {
    pub(crate) claim: u32,
    pub(crate) cap: u32,
    pub(crate) half: u8,
    pub(crate) version: u32,
    pub(crate) generation: u64,
    pub(crate) base: u64,
    pub(crate) records: u64,
    pub(crate) tail: u64,
    pub(crate) other_valid: bool,
    pub(crate) buffer: Vec<u8>,
}

impl Model for Log {
    ghost use Rattle.std.specs.Prelude.{length};
    ghost use Rattle.quorum_log.specs.Logs.{LogValue, IsSoundLog};

    ghost Value = { LogValue };

    ghost view = { λ log. record {
      claim = log.claim;
      cap = log.cap;
      half = log.half;
      version = log.version;
      generation = log.generation;
      base = log.base;
      records = log.records;
      tail = log.tail;
      other_valid = log.other_valid;
    } };

    ghost invariant = { λ log. IsSoundLog (record {
      claim = log.claim;
      cap = log.cap;
      half = log.half;
      version = log.version;
      generation = log.generation;
      base = log.base;
      records = log.records;
      tail = log.tail;
      other_valid = log.other_valid;
    }) (length log.buffer.items) };
}

impl Log {
    ghost use Rattle.std.specs.Prelude.{◌≤◌, ◌^◌, IfOk};
    ghost use Rattle.std.specs.Prelude.{length};
    ghost use Rattle.registry_defs.specs.Contents.{IsCap};
    ghost use Rattle.quorum_log.specs.Layout.{most_records};
    ghost use Rattle.quorum_log.specs.Image.{tail_of, end_of};
    ghost use Rattle.quorum_log.specs.Logs.{Fits, log_of};

    /// The log of what was found.
    pub(crate) fn of(
        alloc: Global,
        claim: u32,
        found: &Found,
        other_valid: bool,
    ) -> Result<Log, AllocError>
        requires cap { IsCap found.now.cap }
        requires half { found.now.half ≤ 1 }
        requires tail { tail_of found.now < end_of found.now }
        requires end { end_of found.now < 2 ^ 63 }
        requires count { found.now.base + length found.now.records ≤ most_records }
        ensures { IfOk result (λ log. log ≡ log_of claim found.now other_valid) }
    {
        let buffer = vec![in alloc; 0; found.cap as usize + 57_369]?;
        Ok(Log {
            claim,
            cap: found.cap,
            half: found.half,
            version: found.version,
            generation: found.generation,
            base: found.base,
            records: found.records.as_slice().len() as u64,
            tail: found.tail(),
            other_valid,
            buffer,
        })
    }

    /// The version of the current half, 1 or 2.
    pub fn version(&self) -> u32
        ensures { result ≡ self.now.version }
    {
        self.version
    }

    /// Whether a record of that length fits behind the last one.
    pub fn fits(&self, length: usize) -> bool
        ensures { IsTrue result ↔ Fits self.now length }
    {
        let end = half_at(self.cap, self.half) + half_size(self.cap);
        (length as u64) < end - self.tail && end - self.tail - (length as u64) > 5
    }
}
