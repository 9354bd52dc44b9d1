ghost use Rattle.std.specs.Prelude.{◌≡◌, ◌≤◌, [], ◌∷◌, length, IfOk, IsSome, OnOk, OnErr};
ghost use Rattle.clus_names.specs.Parts.{parts_of};
ghost use Rattle.registry_defs.specs.Changes.{new_key, chain_made, created};
ghost use Rattle.registry_defs.specs.Keys.{key_at};
ghost use Rattle.registry_defs.specs.Nodes.{keys_of, path_of, spread};

use crate::items::insert_at;
use crate::key::Key;
use crate::searching::search_keys;
use clus_names::{Units, split_first_part};
use std::alloc::{AllocError, Global};

impl Key {
    /// Makes the keys that are missing below the key at the path, which is there.
    pub fn create(
        &mut self,
        alloc: Global,
        path: &[u16],
        below: &[u16],
        place: u64,
        stamp: u64,
    ) -> Result<(), AllocError>
        requires there { IsSome (key_at (path_of path.now) (keys_of self.old)) }
        ensures part { self.new.here.part ≡ self.old.here.part }
        ensures ok { OnOk result (keys_of self.new ≡ created place stamp (path_of path.now) (parts_of below.now) (keys_of self.old)) }
        ensures err { OnErr result (self.new ≡ self.old) }
    {
        match split_first_part(path) {
            None => self.create_below(alloc, below, place, stamp),
            Some((part, rest)) => match search_keys(&self.subkeys, part) {
                Ok(at) => {
                    let key = &mut self.subkeys[at];
                    key.create(alloc, rest, below, place, stamp)?;
                    Ok(())
                }
                Err(_) => unreachable!(),
            },
        }
    }

    fn create_below(
        &mut self,
        alloc: Global,
        below: &[u16],
        place: u64,
        stamp: u64,
    ) -> Result<(), AllocError>
        ensures part { self.new.here.part ≡ self.old.here.part }
        ensures ok { OnOk result (keys_of self.new ≡ created place stamp [] (parts_of below.now) (keys_of self.old)) }
        ensures err { OnErr result (self.new ≡ self.old) }
    {
        match split_first_part(below) {
            None => Ok(()),
            Some((part, rest)) => match search_keys(&self.subkeys, part) {
                Ok(at) => {
                    let key = &mut self.subkeys[at];
                    key.create_below(alloc, rest, place, stamp)?;
                    Ok(())
                }
                Err(at) => {
                    // the whole chain comes first, so that a lack of memory leaves the tree as it was
                    let made = chain(alloc, part, rest, place, stamp)?;
                    insert_at(&mut self.subkeys, at, made)?;
                    self.written = stamp;
                    Ok(())
                }
            },
        }
    }
}

/// A new key with new keys below it, each below the one before.
fn chain(
    alloc: Global,
    part: &[u16],
    rest: &[u16],
    place: u64,
    stamp: u64,
) -> Result<Key, AllocError>
    ensures part { IfOk result (λ key. key.here.part ≡ part.now) }
    ensures keys { IfOk result (λ key. keys_of key ≡ chain_made place stamp [] (parts_of rest.now) (([], new_key place stamp part.now) ∷ [])) }
{
    match split_first_part(rest) {
        None => with_subkeys(alloc, part, place, stamp, Vec::new(alloc)),
        Some((next, others)) => {
            let key = chain(alloc, next, others, place, stamp)?;
            with_subkeys(alloc, part, place, stamp, single(alloc, key)?)
        }
    }
}

fn with_subkeys(
    alloc: Global,
    part: &[u16],
    place: u64,
    stamp: u64,
    subkeys: Vec<Key>,
) -> Result<Key, AllocError>
    requires { length subkeys.items ≤ 1 }
    ensures { IfOk result (λ key. key ≡ record { here = new_key place stamp part.now; below = spread subkeys.items }) }
{
    Ok(Key {
        part: Units::new(part.to_vec(alloc)?),
        birth: place,
        written: stamp,
        values: Vec::new(alloc),
        subkeys,
    })
}

/// A list that takes no more room than its one key.
fn single(alloc: Global, key: Key) -> Result<Vec<Key>, AllocError>
    ensures { IfOk result (λ keys. keys.items ≡ key ∷ []) }
{
    let mut keys = Vec::with_capacity(alloc, 1)?;
    keys.push(key)?;
    Ok(keys)
}
