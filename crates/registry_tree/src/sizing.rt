//! How the size of a registry changes, before it is changed.

ghost use Rattle.std.specs.Prelude.{◌≡◌, ℕ, ◌+◌, ◌*◌, ◌<◌, ◌≤◌, ◌^◌, List, [], ◌∷◌, true, false, length, is_some, MatchOption, IfSome};
ghost use Rattle.clus_names.specs.Folding.{folded};
ghost use Rattle.clus_names.specs.Parts.{parts_of};
ghost use Rattle.registry_defs.specs.Changes.{with_value, without_value};
ghost use Rattle.registry_defs.specs.Growth.{chain_size, creation_added, creation_freed};
ghost use Rattle.registry_defs.specs.Keys.{value_at};
ghost use Rattle.registry_defs.specs.Nodes.{keys_of, name_of};
ghost use Rattle.registry_defs.specs.Sizes.{total, value_size, written_size, key_size};
ghost use Rattle.registry_tree.specs.Values.{entries_of, value_data, value_name};

use crate::growth::Growth;
use crate::key::Key;
use crate::searching::{search_keys, search_values};
use crate::value::Value;
use clus_names::{Name, split_first_part};

impl Key {
    /// Its size as that of a key that isn't the root.
    pub fn own_size(&self) -> u32
        requires small { key_size (name_of self.now ∷ []) self.now.here < 2 ^ 32 }
        ensures { result ≡ key_size (name_of self.now ∷ []) self.now.here }
    {
        (18 + 2 * self.part.as_slice().len()
            + written_size(self.written)
            + values_size(&self.values)) as u32
    }

    /// What a value of so many bytes adds to this key's size where it is set, and what it gives free.
    pub fn value_growth(&self, name: &Name, count: usize, stamp: u64) -> Growth
        requires small { count < 2 ^ 32 }
        ensures exact { (path : List (List ℕ)) (kind : ℕ) (bytes : List ℕ) → length bytes ≡ count
            → key_size path (with_value name.now kind bytes stamp self.now.here) + result.freed ≡ key_size path self.now.here + result.added }
        ensures bound { result.added < 2 ^ 33 }
    {
        let units = name.units();
        match search_values(&self.values, units) {
            Ok(at) => {
                let value = &self.values[at];
                Growth {
                    added: written_size(stamp) + count,
                    freed: written_size(self.written) + value.bytes.as_slice().len(),
                }
            }
            Err(_) => Growth {
                added: written_size(stamp) + (10 + 2 * units.len() + count),
                freed: written_size(self.written),
            },
        }
    }

    /// The same where a value is deleted; None where it isn't there.
    pub fn value_removal(&self, name: &[u16], stamp: u64) -> Option<Growth>
        ensures found { MatchOption result (is_some (value_at (folded name.now) self.now.here.values) ≡ false)
            (λ growth. is_some (value_at (folded name.now) self.now.here.values) ≡ true) }
        ensures exact { IfSome result
            (λ growth. (path : List (List ℕ)) → key_size path (without_value name.now stamp self.now.here) + growth.freed
            ≡ key_size path self.now.here + growth.added) }
        ensures bound { IfSome result (λ growth. growth.added ≤ 8) }
    {
        match search_values(&self.values, name) {
            Ok(at) => {
                let value = &self.values[at];
                Some(Growth {
                    added: written_size(stamp),
                    freed: written_size(self.written) + value_size(value),
                })
            }
            Err(_) => None,
        }
    }

    /// The same where keys are made below this one.
    pub fn creation_growth(&self, below: &[u16], stamp: u64) -> Growth
        requires short { length below.now ≤ 1023 }
        ensures added { result.added ≡ creation_added stamp [] (parts_of below.now) (keys_of self.now) }
        ensures freed { result.freed ≡ creation_freed [] (parts_of below.now) (keys_of self.now) }
        ensures bound { result.added < 2 ^ 33 }
    {
        match split_first_part(below) {
            None => Growth { added: 0, freed: 0 },
            Some((part, rest)) => match search_keys(&self.subkeys, part) {
                Ok(at) => {
                    let key = &self.subkeys[at];
                    key.creation_growth(rest, stamp)
                }
                Err(_) => Growth {
                    added: written_size(stamp) + chain_size(below, stamp),
                    freed: written_size(self.written),
                },
            },
        }
    }
}

fn written_size(written: u64) -> usize
    ensures exact { result ≡ written_size written }
    ensures bound { result ≤ 8 }
{
    if written == 0 { 0 } else { 8 }
}

fn value_size(value: &Value) -> usize
    ensures exact { result ≡ value_size (value_name value.now) (value_data value.now) }
    ensures bound { result < 2 ^ 63 + 2 ^ 12 }
{
    10 + 2 * value.name.units().len() + value.bytes.as_slice().len()
}

fn values_size(values: &[Value]) -> usize
    requires { total value_size (entries_of values.now) < 2 ^ 32 }
    ensures { result ≡ total value_size (entries_of values.now) }
{
    let mut size = 0;
    'values: for value in values {
        size += value_size(value);
    }
    size
}

/// The size of new keys, each below the one before.
fn chain_size(text: &[u16], stamp: u64) -> usize
    requires short { length text.now ≤ 1023 }
    ensures exact { result ≡ chain_size stamp (parts_of text.now) }
    ensures bound { result ≤ 2072 * length text.now }
{
    match split_first_part(text) {
        None => 0,
        Some((part, rest)) => 18 + 2 * part.len() + written_size(stamp) + chain_size(rest, stamp),
    }
}
