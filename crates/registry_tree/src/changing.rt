ghost use Rattle.std.specs.Prelude.{◌≡◌, ◌<◌, ◌++◌, false, length, Some, IsSome, OnOk, OnErr, option_map};
ghost use Rattle.clus_names.specs.Parts.{parts_of};
ghost use Rattle.registry_defs.specs.Changes.{at_key, with_value, without_value, key_deleted};
ghost use Rattle.registry_defs.specs.Keys.{key_at};
ghost use Rattle.registry_defs.specs.Nodes.{keys_of, path_of};
ghost use Rattle.registry_defs.specs.Sections.{has_subkeys, parent_of};

use crate::key::Key;
use crate::searching::search_keys;
use crate::values::{delete_in, set_in};
use clus_names::{Name, split_first_part};
use std::alloc::{AllocError, Global};
use wire_fields::Octets;

impl Key {
    /// Sets a value of the key at the path, if that is there.
    pub fn set_value(
        &mut self,
        alloc: Global,
        path: &[u16],
        name: &Name,
        kind: u32,
        bytes: Octets,
        stamp: u64,
    ) -> Result<(), AllocError>
        ensures part { self.new.here.part ≡ self.old.here.part }
        ensures ok { OnOk result (keys_of self.new ≡ at_key (with_value name.now kind bytes stamp) (path_of path.now) (keys_of self.old)) }
        ensures err { OnErr result (self.new ≡ self.old) }
    {
        match split_first_part(path) {
            None => {
                set_in(alloc, &mut self.values, name, kind, bytes)?;
                self.written = stamp;
                Ok(())
            }
            Some((part, rest)) => match search_keys(&self.subkeys, part) {
                Ok(at) => {
                    let key = &mut self.subkeys[at];
                    key.set_value(alloc, rest, name, kind, bytes, stamp)?;
                    Ok(())
                }
                Err(_) => Ok(()),
            },
        }
    }

    /// Deletes a value of the key at the path, if that is there.
    pub fn delete_value(&mut self, path: &[u16], name: &[u16], stamp: u64)
        ensures part { self.new.here.part ≡ self.old.here.part }
        ensures keys { keys_of self.new ≡ at_key (without_value name.now stamp) (path_of path.now) (keys_of self.old) }
    {
        match split_first_part(path) {
            None => {
                delete_in(&mut self.values, name);
                self.written = stamp;
            }
            Some((part, rest)) => match search_keys(&self.subkeys, part) {
                Ok(at) => {
                    let key = &mut self.subkeys[at];
                    key.delete_value(rest, name, stamp);
                }
                Err(_) => {}
            },
        }
    }

    /// Removes the key that is below the one at the path and has no subkeys, and stamps its parent. Gives when the parent
    /// was changed before that.
    pub fn remove(&mut self, path: &[u16], below: &[u16], stamp: u64) -> u64
        requires some { 0 < length (parts_of below.now) }
        requires there { IsSome (key_at (path_of path.now ++ path_of below.now) (keys_of self.old)) }
        requires leaf { has_subkeys (path_of path.now ++ path_of below.now) (keys_of self.old) ≡ false }
        ensures part { self.new.here.part ≡ self.old.here.part }
        ensures keys { keys_of self.new ≡ key_deleted stamp (path_of path.now ++ path_of below.now) (keys_of self.old) }
        ensures was { option_map (λ key. key.written) (key_at (parent_of (path_of path.now ++ path_of below.now)) (keys_of self.old)) ≡ Some result }
    {
        match split_first_part(path) {
            None => self.remove_below(below, stamp),
            Some((part, rest)) => match search_keys(&self.subkeys, part) {
                Ok(at) => {
                    let key = &mut self.subkeys[at];
                    key.remove(rest, below, stamp)
                }
                Err(_) => unreachable!(),
            },
        }
    }

    fn remove_below(&mut self, below: &[u16], stamp: u64) -> u64
        requires some { 0 < length (parts_of below.now) }
        requires there { IsSome (key_at (path_of below.now) (keys_of self.old)) }
        requires leaf { has_subkeys (path_of below.now) (keys_of self.old) ≡ false }
        ensures part { self.new.here.part ≡ self.old.here.part }
        ensures keys { keys_of self.new ≡ key_deleted stamp (path_of below.now) (keys_of self.old) }
        ensures was { option_map (λ key. key.written) (key_at (parent_of (path_of below.now)) (keys_of self.old)) ≡ Some result }
    {
        match split_first_part(below) {
            None => unreachable!(),
            Some((part, rest)) => match search_keys(&self.subkeys, part) {
                Ok(at) => match split_first_part(rest) {
                    None => {
                        let was = self.written;
                        self.subkeys.remove(at);
                        self.written = stamp;
                        was
                    }
                    Some(_) => {
                        let key = &mut self.subkeys[at];
                        key.remove_below(rest, stamp)
                    }
                },
                Err(_) => unreachable!(),
            },
        }
    }
}
