//! A record is added to a log, with a checkpoint before it where one is due.
ghost use Rattle.std.specs.Prelude.{◌≡◌, ◌↔◌, ◌+◌, ◌<◌, ◌≤◌, ℕ, [], length, option_map, None, true, IfOk};
ghost use Rattle.disk_core.specs.Calls.{SameDisk};
ghost use Rattle.quorum_log.specs.Layout.{image_size, most_record, most_records};
ghost use Rattle.quorum_log.specs.Logs.{Fits};
ghost use Rattle.registry_defs.specs.Contents.{keys_in};
ghost use Rattle.registry_defs.specs.Spelling.{registry_text};
ghost use Rattle.update_records.specs.Entry.{record_text};
ghost use Rattle.record_log.specs.Adding.{Adds, AppendsTo, BeginsTo, CheckpointsTo, IsSound, is_due};
ghost use Rattle.log_order.specs.Orders.{last_text};

use crate::fault::AddFault;
use crate::record_log::RecordLog;
use clus_registry::Registry;
use disk_core::Disk;
use std::alloc::{AllocError, Global};
use update_records::{Record, encode};

impl RecordLog {
    /// Adds a record behind the last one.
    ///
    /// Where it doesn't fit, or the log isn't of version 2, a checkpoint is written before it: the registry behind the
    /// last record, and that record.
    ///
    /// A fault hands nothing back: the log must be recovered again.
    pub fn add<D: Disk>(
        self,
        disk: &mut D,
        entry: &Record,
        registry: &Registry,
        last: Option<&Record>,
    ) -> Result<RecordLog, AddFault>
        requires few { self.base + self.records < most_records }
        requires cap { registry.now.cap ≡ self.cap }
        requires last { (last ≡ None) ↔ (self.base + self.records ≡ 0) }
        requires disk_size { image_size self.cap ≤ (D.view disk.old).size }
        ensures adds { let state = registry_text (keys_in registry.now) in let final = last_text (option_map (λ e. e.now) last.entry) in
            let bytes = record_text entry.now in Adds (is_due self (length bytes)) self state final bytes (D.view disk.old) result (D.view disk.new) }
        ensures same { SameDisk (D.view disk.old) (D.view disk.new) }
        ensures held { (D.view disk.new).current.held ≡ (D.view disk.old).current.held }
        ensures token { IfOk result (λ log. log.claim ≡ self.claim) }
        ensures same_cap { IfOk result (λ log. log.cap ≡ self.cap) }
        ensures count { IfOk result (λ log. log.base + log.records ≡ self.base + self.records + 1) }
        ensures sound { IsSound entry.now result }
    {
        let bytes = encode(self.alloc, entry)?;
        if self.is_due(bytes.len()) {
            return self.add_behind_checkpoint(disk, &bytes, registry, last);
        }
        self.append(disk, &bytes)
    }

    /// Writes a checkpoint: the registry behind the last record, and that record.
    ///
    /// A fault hands nothing back: the log must be recovered again.
    pub fn checkpoint<D: Disk>(
        self,
        disk: &mut D,
        registry: &Registry,
        last: Option<&Record>,
    ) -> Result<RecordLog, AddFault>
        requires cap { registry.now.cap ≡ self.cap }
        requires last { (last ≡ None) ↔ (self.base + self.records ≡ 0) }
        requires disk_size { image_size self.cap ≤ (D.view disk.old).size }
        ensures checkpoints { let state = registry_text (keys_in registry.now) in let final = last_text (option_map (λ e. e.now) last.entry) in
            CheckpointsTo self state final (D.view disk.old) result (D.view disk.new) }
        ensures same { SameDisk (D.view disk.old) (D.view disk.new) }
        ensures held { (D.view disk.new).current.held ≡ (D.view disk.old).current.held }
        ensures token { IfOk result (λ log. log.claim ≡ self.claim) }
        ensures same_cap { IfOk result (λ log. log.cap ≡ self.cap) }
        ensures count { IfOk result (λ log. log.base + log.records ≡ self.base + self.records) }
    {
        let state = registry.to_bytes()?;
        let last = encode_last(self.alloc, last)?;
        self.begin(disk, &state, &last)
    }

    /// Whether a checkpoint has to be written before a record of that length.
    fn is_due(&self, length: usize) -> bool
        ensures due { result ≡ is_due self.now length }
    {
        self.log.version() != 2 || !self.log.fits(length)
    }
}

impl RecordLog {
    /// Adds a record behind a checkpoint, whose bytes are all made before it.
    fn add_behind_checkpoint<D: Disk>(
        self,
        disk: &mut D,
        bytes: &[u8],
        registry: &Registry,
        last: Option<&Record>,
    ) -> Result<RecordLog, AddFault>
        requires some { 1 ≤ length bytes.now }
        requires most { length bytes.now ≤ most_record }
        requires few { self.base + self.records < most_records }
        requires cap { registry.now.cap ≡ self.cap }
        requires last { (last ≡ None) ↔ (self.base + self.records ≡ 0) }
        requires disk_size { image_size self.cap ≤ (D.view disk.old).size }
        ensures adds { let state = registry_text (keys_in registry.now) in let final = last_text (option_map (λ e. e.now) last.entry) in
            Adds true self state final bytes.now (D.view disk.old) result (D.view disk.new) }
        ensures same { SameDisk (D.view disk.old) (D.view disk.new) }
        ensures held { (D.view disk.new).current.held ≡ (D.view disk.old).current.held }
        ensures token { IfOk result (λ log. log.claim ≡ self.claim) }
        ensures same_cap { IfOk result (λ log. log.cap ≡ self.cap) }
        ensures count { IfOk result (λ log. log.base + log.records ≡ self.base + self.records + 1) }
    {
        let state = registry.to_bytes()?;
        let last = encode_last(self.alloc, last)?;
        let begun = self.begin(disk, &state, &last)?;
        begun.append(disk, bytes)
    }

    /// Begins the other half of the log.
    fn begin<D: Disk>(self, disk: &mut D, state: &[u8], last: &[u8]) -> Result<RecordLog, AddFault>
        requires state { length state.now ≤ self.cap }
        requires last { length last.now ≤ most_record }
        requires none { (last.now ≡ []) ↔ (self.base + self.records ≡ 0) }
        requires disk_size { image_size self.cap ≤ (D.view disk.old).size }
        ensures begun { BeginsTo self state.now last.now (D.view disk.old) result (D.view disk.new) }
        ensures same { SameDisk (D.view disk.old) (D.view disk.new) }
        ensures held { (D.view disk.new).current.held ≡ (D.view disk.old).current.held }
        ensures token { IfOk result (λ log. log.claim ≡ self.claim) }
        ensures same_cap { IfOk result (λ log. log.cap ≡ self.cap) }
        ensures count { IfOk result (λ log. log.base + log.records ≡ self.base + self.records) }
        ensures fits { IfOk result (λ begun. (count : ℕ) → count ≤ most_record → Fits begun count) }
    {
        match self.log.checkpoint(disk, state, last) {
            Ok(log) => Ok(RecordLog {
                alloc: self.alloc,
                log,
            }),
            Err(fault) => Err(AddFault::Checkpoint(fault)),
        }
    }

    /// Appends the bytes of a record.
    fn append<D: Disk>(self, disk: &mut D, bytes: &[u8]) -> Result<RecordLog, AddFault>
        requires version { self.version ≡ 2 }
        requires some { 1 ≤ length bytes.now }
        requires most { length bytes.now ≤ most_record }
        requires fits { Fits self (length bytes.now) }
        requires few { self.base + self.records < most_records }
        requires disk_size { image_size self.cap ≤ (D.view disk.old).size }
        ensures appended { AppendsTo self bytes.now (D.view disk.old) result (D.view disk.new) }
        ensures same { SameDisk (D.view disk.old) (D.view disk.new) }
        ensures held { (D.view disk.new).current.held ≡ (D.view disk.old).current.held }
        ensures token { IfOk result (λ log. log.claim ≡ self.claim) }
        ensures same_cap { IfOk result (λ log. log.cap ≡ self.cap) }
        ensures count { IfOk result (λ log. log.base + log.records ≡ self.base + self.records + 1) }
    {
        match self.log.append(disk, bytes) {
            Ok(log) => Ok(RecordLog {
                alloc: self.alloc,
                log,
            }),
            Err(fault) => Err(AddFault::Append(fault)),
        }
    }
}

/// The bytes of the last record, none where there is no record.
fn encode_last(alloc: Global, last: Option<&Record>) -> Result<Vec<u8>, AllocError>
    ensures written { IfOk result (λ bytes. bytes.items ≡ last_text (option_map (λ e. e.now) last.entry)) }
    ensures short { IfOk result (λ bytes. length bytes.items ≤ most_record) }
    ensures none { IfOk result (λ bytes. (bytes.items ≡ []) ↔ (last.entry ≡ None)) }
{
    match last {
        Some(entry) => encode(alloc, entry),
        None => Ok(Vec::new(alloc)),
    }
}
