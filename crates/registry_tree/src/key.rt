ghost use Rattle.std.specs.Prelude.{◌≡◌, [], nat_lt, length, None, Some, MatchOption, IfSome, IfOk};
ghost use Rattle.clus_names.specs.Folding.{name_cmp};
ghost use Rattle.registry_defs.specs.Keys.{new_root, key_at};
ghost use Rattle.registry_defs.specs.Nodes.{keys_of, name_of, path_of, spread};
ghost use Rattle.registry_defs.specs.Rising.{Rising};
ghost use Rattle.registry_defs.specs.Sections.{section};
ghost use Rattle.registry_tree.specs.Values.{entries_of, RisingValues};

use crate::searching::search_keys;
use crate::value::Value;
use crate::values::copied;
use clus_names::{Units, split_first_part};
use std::alloc::{AllocError, Global};
use std::marker::Model;

/// A key with its values and all that stands below it.
#[derive(Drop)]
pub struct Key {
    /// Its name as first given; the root's is empty.
    pub(crate) part: Units,
    pub(crate) birth: u64,
    pub(crate) written: u64,
    pub(crate) values: Vec<Value>,
    pub(crate) subkeys: Vec<Key>,
}

impl Model for Key {
    ghost use Rattle.std.specs.Prelude.{◌≡◌, length};
    ghost use Rattle.std.proofs.Common.{arith};
    ghost use Rattle.registry_defs.specs.Nodes.{Node};

    ghost Value = { Node };

    ghost use Rattle.registry_tree.specs.Level.{node_of, IsOrdered};
    ghost use Rattle.registry_tree.specs.Weights.{weight, most_le-spread};

    ghost view = { node_of };

    ghost invariant = { IsOrdered };

    ghost size = { weight };

    ghost size_decreases = { λ a h. omega (arith, most_le-spread a.subkeys.items) };
}

impl Key {
    /// The root of the empty registry.
    pub fn root(alloc: Global) -> Key
        ensures { result ≡ record { here = new_root; below = [] } }
    {
        Key {
            part: Units::new(Vec::new(alloc)),
            birth: 0,
            written: 0,
            values: Vec::new(alloc),
            subkeys: Vec::new(alloc),
        }
    }

    /// The key with these values and subkeys.
    pub fn of(part: Units, birth: u64, written: u64, values: Vec<Value>, subkeys: Vec<Key>) -> Key
        requires values { RisingValues values.items }
        requires subkeys { Rising name_cmp name_of subkeys.items }
        ensures here { result.here ≡ record { part = part; birth = birth; written = written; values = entries_of values.items } }
        ensures below { result.below ≡ spread subkeys.items }
    {
        Key {
            part,
            birth,
            written,
            values,
            subkeys,
        }
    }

    /// Its name as first given.
    pub fn part(&self) -> &[u16]
        ensures { result.now ≡ self.now.here.part }
    {
        self.part.as_slice()
    }

    pub fn birth(&self) -> u64
        ensures { result ≡ self.now.here.birth }
    {
        self.birth
    }

    /// When it was last changed.
    pub fn written(&self) -> u64
        ensures { result ≡ self.now.here.written }
    {
        self.written
    }

    /// Its values, in ascending order of their folded names.
    pub fn values(&self) -> &[Value]
        ensures entries { entries_of result.now ≡ self.now.here.values }
        ensures rising { RisingValues result.now }
    {
        self.values.as_slice()
    }

    /// The keys right below it, in ascending order of their folded names.
    pub fn subkeys(&self) -> &[Key]
        ensures below { spread result.now ≡ self.now.below }
        ensures rising { Rising name_cmp name_of result.now }
    {
        self.subkeys.as_slice()
    }

    pub fn has_subkeys(&self) -> bool
        ensures { result ≡ nat_lt 1 (length (keys_of self.now)) }
    {
        !self.subkeys.is_empty()
    }

    /// The key at a path from this one.
    pub fn find(&self, path: &[u16]) -> Option<&Key>
        ensures found { MatchOption result (key_at (path_of path.now) (keys_of self.now) ≡ None)
            (λ key. key_at (path_of path.now) (keys_of self.now) ≡ Some key.now.here) }
        ensures section { IfSome result (λ key. keys_of key.now ≡ section (path_of path.now) (keys_of self.now)) }
    {
        match split_first_part(path) {
            None => Some(self),
            Some((part, rest)) => match search_keys(&self.subkeys, part) {
                Ok(at) => {
                    let key = &self.subkeys[at];
                    key.find(rest)
                }
                Err(_) => None,
            },
        }
    }

    pub fn copy(&self, alloc: Global) -> Result<Key, AllocError>
        ensures { IfOk result (λ copied. copied ≡ self.now) }
    {
        let mut subkeys = Vec::new(alloc);
        for key in &self.subkeys {
            subkeys.push(key.copy(alloc)?)?;
        }
        Ok(Key {
            part: self.part.copy(alloc)?,
            birth: self.birth,
            written: self.written,
            values: copied(alloc, &self.values)?,
            subkeys,
        })
    }
}
