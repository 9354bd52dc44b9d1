ghost use Rattle.std.specs.Prelude.{◌≡◌, ◌≤◌, length, None, Some, IfSome, MatchOption, option_map};
ghost use Rattle.clus_names.specs.Folding.{folded, folded_parts};
ghost use Rattle.clus_names.specs.Limits.{IsName, IsPart};
ghost use Rattle.registry_defs.specs.Contents.{keys_in};
ghost use Rattle.registry_defs.specs.Keys.{key_at};
ghost use Rattle.registry_defs.specs.Limits.{IsRegistry, HaveFields};
ghost use Rattle.registry_defs.specs.Nodes.{keys_of};
ghost use Rattle.registry_defs.specs.Rising.{RisingKeys};
ghost use Rattle.registry_defs.specs.Readings.{birth_at, value_in, nth_subkey, nth_value, info_at};
ghost use Rattle.registry_defs.specs.Nodes.{IsAt};
ghost use Rattle.clus_registry.specs.Found.{type_and_data, name_and_time, name_type_and_data};

use crate::registry::Registry;
use clus_names::{Name, Path};
use registry_defs::Info;
use registry_tree::Key;

impl Registry {
    /// The creation number of a key.
    pub fn find(&self, path: &Path) -> Option<u64>
        ensures { result ≡ birth_at (folded_parts path.now) (keys_in self.now) }
    {
        match self.key_at(path) {
            None => None,
            Some(key) => Some(key.birth()),
        }
    }

    /// The type and the data of a value.
    pub fn value(&self, key: &Path, name: &Name) -> Option<(u32, &[u8])>
        ensures found { MatchOption result (value_in (folded_parts key.now) (folded name.now) (keys_in self.now) ≡ None)
            (λ found. option_map type_and_data (value_in (folded_parts key.now) (folded name.now) (keys_in self.now)) ≡ Some (found.0, found.1.now)) }
        ensures short { IfSome result (λ found. length found.1.now ≤ 49152) }
    {
        match self.key_at(key) {
            None => None,
            Some(found) => match found.value(name.units()) {
                None => None,
                Some(value) => Some((value.kind, value.bytes.as_slice())),
            },
        }
    }

    /// The name and the written time of the subkey with exactly so many smaller ones.
    pub fn nth_key(&self, key: &Path, index: u32) -> Option<(&[u16], u64)>
        ensures found { MatchOption result (nth_subkey (folded_parts key.now) index (keys_in self.now) ≡ None)
            (λ found. option_map name_and_time (nth_subkey (folded_parts key.now) index (keys_in self.now)) ≡ Some (found.0.now, found.1)) }
        ensures name { IfSome result (λ found. IsPart found.0.now) }
    {
        match self.key_at(key) {
            None => None,
            Some(found) => match found.nth_subkey(index as usize) {
                None => None,
                Some(subkey) => Some((subkey.part(), subkey.written())),
            },
        }
    }

    /// The name, the type and the data of the value with exactly so many smaller ones.
    pub fn nth_value(&self, key: &Path, index: u32) -> Option<(&[u16], u32, &[u8])>
        ensures found { MatchOption result (nth_value (folded_parts key.now) index (keys_in self.now) ≡ None)
            (λ found. option_map name_type_and_data (nth_value (folded_parts key.now) index (keys_in self.now)) ≡ Some (found.0.now, found.1, found.2.now)) }
        ensures name { IfSome result (λ found. IsName found.0.now) }
        ensures short { IfSome result (λ found. length found.2.now ≤ 49152) }
    {
        match self.key_at(key) {
            None => None,
            Some(found) => match found.nth_value(index as usize) {
                None => None,
                Some(value) => Some((value.name.units(), value.kind, value.bytes.as_slice())),
            },
        }
    }

    /// How much a key holds.
    pub fn info(&self, key: &Path) -> Option<Info>
        ensures { result ≡ info_at (folded_parts key.now) (keys_in self.now) }
    {
        match self.key_at(key) {
            None => None,
            Some(found) => Some(found.info()),
        }
    }

    /// The key at a path, with all below it.
    pub(crate) fn key_at(&self, path: &Path) -> Option<&Key>
        ensures found { MatchOption result (key_at (folded_parts path.now) (keys_in self.now) ≡ None)
            (λ key. IsAt (folded_parts path.now) (keys_in self.now) key.now) }
        ensures limits { IsRegistry (keys_in self.now) }
        ensures rising { IfSome result (λ key. RisingKeys (keys_of key.now)) }
        ensures fields { IfSome result (λ key. HaveFields (keys_of key.now)) }
    {
        self.root.find(path.units())
    }
}
