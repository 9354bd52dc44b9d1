//! Changes cut into batches.

ghost use Rattle.std.specs.Prelude.{◌≡◌, ◌+◌, ◌++◌, ◌<◌, ◌≤◌, [], ◌∷◌, ◌&&◌, nat_le, nat_lt, length, All, IfOk, OnOk};
ghost use Rattle.update_records.specs.declared.update.Update.TheVariants.{Batch};
ghost use Rattle.update_records.specs.Spelling.{change_text};
ghost use Rattle.update_records.specs.Validity.{IsValid, IsValidChange};
ghost use Rattle.hive_text.specs.Batches.{last_batch};
ghost use Rattle.hive_text.specs.Batching.{IsSound, IsTaken, Takes};

use std::alloc::{AllocError, Global};
use std::mem;
use update_records::{Change, Changes, Update};

/// How many changes a batch may have.
const MOST_CHANGES: usize = 64;

/// How long the encoding of a batch may be.
const MOST_BYTES: usize = 57_310;

/// The kind of the update and the count of its changes.
const HEAD_BYTES: usize = 3;

/// Takes changes, and cuts them into batches.
#[derive(Drop)]
pub(crate) struct Batcher {
    pub(crate) alloc: Global,
    /// The batches that take no more.
    pub(crate) done: Vec<Update>,
    /// The changes of the batch behind them.
    pub(crate) taken: Vec<Change>,
    /// The length of its encoding.
    pub(crate) size: usize,
}

impl Batcher {
    pub(crate) fn new(alloc: Global) -> Batcher
        ensures sound { IsSound result }
        ensures done { result.done.items ≡ [] }
        ensures taken { result.taken.items ≡ [] }
    {
        Batcher {
            alloc,
            done: Vec::new(alloc),
            taken: Vec::new(alloc),
            size: HEAD_BYTES,
        }
    }

    /// Takes a change whose encoding has so many bytes.
    pub(crate) fn take(&mut self, change: Change, size: usize) -> Result<(), AllocError>
        requires sound { IsSound self.old }
        requires valid { IsValidChange change }
        requires size { size ≡ length (change_text change) }
        requires small { size ≤ 57307 }
        ensures { OnOk result (Takes self.old (change ∷ []) self.new) }
    {
        if self.has_room(size) {
            return self.append(change, size);
        }
        self.close()?;
        self.append(change, size)
    }

    /// The batches, when all changes were taken.
    pub(crate) fn finish(self) -> Result<Vec<Update>, AllocError>
        requires { IsSound self }
        ensures all { IfOk result (λ updates. updates.items ≡ self.done.items ++ last_batch self.taken.items) }
        ensures valid { IfOk result (λ updates. All IsValid updates.items) }
    {
        let Batcher {
            alloc: _,
            mut done,
            taken,
            size: _,
        } = self;
        if taken.is_empty() {
            return Ok(done);
        }
        done.push(Update::Batch {
            changes: Changes::new(taken),
        })?;
        Ok(done)
    }

    /// Whether a change of so many bytes can go into the batch.
    fn has_room(&self, size: usize) -> bool
        requires sound { IsSound self.now }
        requires small { size ≤ 57307 }
        ensures { result ≡ (nat_lt (length self.now.taken.items) 64 && nat_le (self.now.size + size) 57310) }
    {
        self.taken.len() < MOST_CHANGES && self.size + size <= MOST_BYTES
    }

    fn append(&mut self, change: Change, size: usize) -> Result<(), AllocError>
        requires sound { IsSound self.old }
        requires valid { IsValidChange change }
        requires size { size ≡ length (change_text change) }
        requires few { length self.old.taken.items < 64 }
        requires short { self.old.size + size ≤ 57310 }
        ensures sound { OnOk result (IsSound self.new) }
        ensures done { OnOk result (self.new.done.items ≡ self.old.done.items) }
        ensures taken { OnOk result (self.new.taken.items ≡ self.old.taken.items ++ change ∷ []) }
    {
        self.taken.push(change)?;
        self.size += size;
        Ok(())
    }

    /// The batch takes no more, and the next one begins.
    fn close(&mut self) -> Result<(), AllocError>
        requires sound { IsSound self.old }
        requires some { 0 < length self.old.taken.items }
        ensures sound { OnOk result (IsSound self.new) }
        ensures done { OnOk result (self.new.done.items ≡ self.old.done.items ++ Batch self.old.taken.items ∷ []) }
        ensures taken { OnOk result (self.new.taken.items ≡ []) }
        ensures size { OnOk result (self.new.size ≡ 3) }
    {
        let taken = mem::replace(&mut self.taken, Vec::new(self.alloc));
        self.size = HEAD_BYTES;
        self.done.push(Update::Batch {
            changes: Changes::new(taken),
        })?;
        Ok(())
    }
}
