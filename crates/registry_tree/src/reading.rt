ghost use Rattle.std.specs.Prelude.{◌≡◌, None, Some, MatchOption, slice_get};
ghost use Rattle.clus_names.specs.Folding.{folded};
ghost use Rattle.registry_defs.specs.Keys.{value_at};
ghost use Rattle.registry_defs.specs.Nodes.{keys_of, subkey_entry};
ghost use Rattle.registry_defs.specs.Rising.{RisingKeys};
ghost use Rattle.registry_defs.specs.Sections.{subkeys};
ghost use Rattle.registry_tree.specs.Values.{value_data, value_entry};

use crate::items::item_at;
use crate::key::Key;
use crate::searching::search_values;
use crate::value::Value;

impl Key {
    /// The value with the name.
    pub fn value(&self, name: &[u16]) -> Option<&Value>
        ensures { MatchOption result (value_at (folded name.now) self.now.here.values ≡ None)
            (λ value. value_at (folded name.now) self.now.here.values ≡ Some (value_data value.now)) }
    {
        match search_values(&self.values, name) {
            Ok(at) => Some(&self.values[at]),
            Err(_) => None,
        }
    }

    /// The value with exactly so many smaller ones.
    pub fn nth_value(&self, index: usize) -> Option<&Value>
        ensures { MatchOption result (slice_get self.now.here.values index ≡ None)
            (λ value. slice_get self.now.here.values index ≡ Some (value_entry value.now)) }
    {
        item_at(&self.values, index)
    }

    /// The subkey with exactly so many smaller ones.
    pub fn nth_subkey(&self, index: usize) -> Option<&Key>
        requires rising { RisingKeys (keys_of self.now) }
        ensures { MatchOption result (slice_get (subkeys (keys_of self.now)) index ≡ None)
            (λ key. slice_get (subkeys (keys_of self.now)) index ≡ Some (subkey_entry key.now)) }
    {
        item_at(&self.subkeys, index)
    }
}
