ghost use Rattle.std.specs.Prelude.{◌≡◌, ◌+◌, ◌++◌, ◌<◌, ◌≤◌, ◌^◌, false, length, MatchOption};
ghost use Rattle.clus_names.specs.Folding.{folded_parts};
ghost use Rattle.registry_defs.specs.Applying.{is_born, if_born, create_applied, set_value_applied, delete_value_applied, delete_key_applied};
ghost use Rattle.registry_defs.specs.Contents.{keys_in};
ghost use Rattle.registry_defs.specs.Keys.{key_at};
ghost use Rattle.registry_defs.specs.Sizes.{size, written_size};
ghost use Rattle.update_records.specs.Validity.{FitTogether};
ghost use Rattle.clus_registry.specs.Found.{IsBornAt};
ghost use Rattle.clus_registry.specs.Outcomes.{Applies, IsApplied};

use crate::outcomes::{
    CREATED_NEW_KEY, DISK_FULL, FILE_NOT_FOUND, KEY_DELETED, KEY_HAS_CHILDREN, OPENED_EXISTING_KEY,
    done, opened, refused,
};
use crate::registry::Registry;
use clus_names::{Name, Path};
use registry_defs::Outcome;
use registry_tree::{Growth, Key};
use std::alloc::AllocError;
use wire_fields::Octets;

impl Registry {
    /// Makes the key below another one, and all keys that are missing on the way.
    pub(crate) fn create(
        &mut self,
        place: u64,
        stamp: u64,
        key: &Path,
        birth: u64,
        subkey: &Path,
    ) -> Result<Outcome, AllocError>
        requires first { 0 < place }
        requires last { place < 2 ^ 63 }
        requires valid { FitTogether key.now subkey.now }
        ensures { Applies result self.old self.new
            (if_born birth (key_at (folded_parts key.now) (keys_in self.old)) (keys_in self.old)
            (create_applied self.old.cap place stamp key.now subkey.now (keys_in self.old))) }
    {
        match self.born(key, birth) {
            None => Ok(refused(KEY_DELETED)),
            Some(found) => match found.find(subkey.units()) {
                Some(target) => Ok(opened(OPENED_EXISTING_KEY, target.birth())),
                None => {
                    let size = self.size_after(found.creation_growth(subkey.units(), stamp));
                    if (self.cap as usize) < size {
                        return Ok(refused(DISK_FULL));
                    }
                    self.root
                        .create(self.alloc, key.units(), subkey.units(), place, stamp)?;
                    self.size = size as u32;
                    Ok(opened(CREATED_NEW_KEY, place))
                }
            },
        }
    }

    /// Sets the type and the data of a value. One that is there keeps its name as first given.
    pub(crate) fn set_value(
        &mut self,
        stamp: u64,
        key: &Path,
        birth: u64,
        name: &Name,
        kind: u32,
        bytes: &[u8],
    ) -> Result<Outcome, AllocError>
        requires valid { length bytes.now ≤ 49152 }
        ensures { Applies result self.old self.new
            (if_born birth (key_at (folded_parts key.now) (keys_in self.old)) (keys_in self.old)
            (set_value_applied self.old.cap stamp key.now name.now kind bytes.now (keys_in self.old))) }
    {
        match self.born(key, birth) {
            None => Ok(refused(KEY_DELETED)),
            Some(found) => {
                let size = self.size_after(found.value_growth(name, bytes.len(), stamp));
                if (self.cap as usize) < size {
                    return Ok(refused(DISK_FULL));
                }
                let copied = Octets::new(bytes.to_vec(self.alloc)?);
                // That a name keeps its limits is known where its units are read.
                let _units = name.units();
                self.root
                    .set_value(self.alloc, key.units(), name, kind, copied, stamp)?;
                self.size = size as u32;
                Ok(done())
            }
        }
    }

    pub(crate) fn delete_value(
        &mut self,
        stamp: u64,
        key: &Path,
        birth: u64,
        name: &Name,
    ) -> Outcome
        ensures { IsApplied result self.old self.new
            (if_born birth (key_at (folded_parts key.now) (keys_in self.old)) (keys_in self.old)
            (delete_value_applied stamp key.now name.now (keys_in self.old))) }
    {
        match self.born(key, birth) {
            None => refused(KEY_DELETED),
            Some(found) => match found.value_removal(name.units(), stamp) {
                None => refused(FILE_NOT_FOUND),
                Some(growth) => {
                    let size = self.size_after(growth);
                    self.root.delete_value(key.units(), name.units(), stamp);
                    self.size = size as u32;
                    done()
                }
            },
        }
    }

    /// Deletes the key below another one, which must have no subkeys.
    pub(crate) fn delete_key(
        &mut self,
        stamp: u64,
        key: &Path,
        birth: u64,
        subkey: &Path,
    ) -> Outcome
        requires valid { 0 < length subkey.now }
        ensures { IsApplied result self.old self.new
            (if_born birth (key_at (folded_parts key.now) (keys_in self.old)) (keys_in self.old)
            (delete_key_applied stamp (folded_parts (key.now ++ subkey.now)) (keys_in self.old))) }
    {
        match self.born(key, birth) {
            None => refused(KEY_DELETED),
            Some(found) => match found.find(subkey.units()) {
                None => refused(FILE_NOT_FOUND),
                Some(target) => {
                    if target.has_subkeys() {
                        return refused(KEY_HAS_CHILDREN);
                    }
                    let freed = target.own_size();
                    let written = self.root.remove(key.units(), subkey.units(), stamp);
                    self.size = self.size + written_size(stamp) - freed - written_size(written);
                    done()
                }
            },
        }
    }

    /// The key at the path, where it has that creation number.
    fn born(&self, key: &Path, birth: u64) -> Option<&Key>
        ensures { MatchOption result (is_born birth (key_at (folded_parts key.now) (keys_in self.now)) ≡ false)
            (λ found. IsBornAt birth (folded_parts key.now) (keys_in self.now) found.now) }
    {
        match self.key_at(key) {
            None => None,
            Some(found) => {
                if found.birth() == birth {
                    Some(found)
                } else {
                    None
                }
            }
        }
    }

    /// The size after a change that adds and frees so much.
    fn size_after(&self, growth: Growth) -> usize
        requires small { growth.added < 2 ^ 33 }
        requires freed { growth.freed ≤ size (keys_in self.now) + growth.added }
        ensures { result + growth.freed ≡ size (keys_in self.now) + growth.added }
    {
        self.size() as usize + growth.added - growth.freed
    }
}

/// A written time of 0 isn't encoded.
fn written_size(written: u64) -> u32
    ensures { result ≡ written_size written }
{
    if written == 0 { 0 } else { 8 }
}
