ghost use Rattle.std.specs.Prelude.{◌≡◌, ◌<◌, ◌≤◌, ◌^◌, All, length};
ghost use Rattle.clus_names.specs.Folding.{folded_parts};
ghost use Rattle.registry_defs.specs.Applying.{birth_or, resolved, change_applied, changes_applied, update_applied};
ghost use Rattle.registry_defs.specs.Contents.{keys_in};
ghost use Rattle.registry_defs.specs.Keys.{key_at};
ghost use Rattle.update_records.specs.Validity.{IsValid, IsValidChange};
ghost use Rattle.clus_registry.specs.Outcomes.{Applies};

use crate::outcomes::{done, refused_at};
use crate::registry::Registry;
use clus_names::Path;
use registry_defs::Outcome;
use std::alloc::AllocError;
use update_records::{Change, Update};

impl Registry {
    /// Makes the update of a record, with the record's sequence number and stamp.
    ///
    /// An update that can't be made is refused with a status, and a batch is refused whole where one of its changes is. A
    /// refused update changes nothing.
    pub fn apply(&mut self, place: u64, stamp: u64, update: &Update) -> Result<Outcome, AllocError>
        requires first { 0 < place }
        requires last { place < 2 ^ 63 }
        requires valid { IsValid update.now }
        ensures { Applies result self.old self.new (update_applied self.old.cap place stamp update.now (keys_in self.old)) }
    {
        match update {
            Update::Create { key, birth, subkey } => self.create(place, stamp, key, *birth, subkey),
            Update::SetValue {
                key,
                birth,
                name,
                kind,
                bytes,
            } => self.set_value(stamp, key, *birth, name, *kind, bytes.as_slice()),
            Update::DeleteValue { key, birth, name } => {
                Ok(self.delete_value(stamp, key, *birth, name))
            }
            Update::DeleteKey { key, birth, subkey } => {
                Ok(self.delete_key(stamp, key, *birth, subkey))
            }
            Update::Batch { changes } => self.apply_all(place, stamp, changes.as_slice()),
        }
    }

    /// All of the changes or none: they are made on a copy.
    fn apply_all(
        &mut self,
        place: u64,
        stamp: u64,
        changes: &[Change],
    ) -> Result<Outcome, AllocError>
        requires first { 0 < place }
        requires last { place < 2 ^ 63 }
        requires few { length changes.now ≤ 64 }
        requires each { All IsValidChange changes.now }
        ensures { Applies result self.old self.new (changes_applied self.old.cap place stamp (keys_in self.old) 1 changes.now (keys_in self.old)) }
    {
        let mut changed = self.copy()?;
        let mut number = 0;
        for change in changes {
            number += 1;
            let outcome = changed.apply_change(place, stamp, change)?;
            if outcome.status != 0 {
                return Ok(refused_at(number, outcome.status));
            }
        }
        *self = changed;
        Ok(done())
    }

    fn apply_change(
        &mut self,
        place: u64,
        stamp: u64,
        change: &Change,
    ) -> Result<Outcome, AllocError>
        requires first { 0 < place }
        requires last { place < 2 ^ 63 }
        requires valid { IsValidChange change.now }
        ensures { Applies result self.old self.new (change_applied self.old.cap place stamp (resolved change.now (keys_in self.old)) (keys_in self.old)) }
    {
        match change {
            Change::Create { key, birth, subkey } => {
                let birth = self.birth_or(*birth, key);
                self.create(place, stamp, key, birth, subkey)
            }
            Change::SetValue {
                key,
                birth,
                name,
                kind,
                bytes,
            } => {
                let birth = self.birth_or(*birth, key);
                self.set_value(stamp, key, birth, name, *kind, bytes.as_slice())
            }
            Change::DeleteValue { key, birth, name } => {
                let birth = self.birth_or(*birth, key);
                Ok(self.delete_value(stamp, key, birth, name))
            }
            Change::DeleteKey { key, birth, subkey } => {
                let birth = self.birth_or(*birth, key);
                Ok(self.delete_key(stamp, key, birth, subkey))
            }
        }
    }

    /// The creation number that a change of a batch means: 0 stands for that of whatever key is there.
    fn birth_or(&self, birth: u64, key: &Path) -> u64
        ensures { result ≡ birth_or birth (key_at (folded_parts key.now) (keys_in self.now)) }
    {
        match self.key_at(key) {
            None => birth,
            Some(found) => { if birth == 0 { found.birth() } else { birth } }
        }
    }
}
