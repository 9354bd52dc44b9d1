ghost use Rattle.std.specs.Prelude.{◌≡◌, ◌<◌, ◌≤◌, ◌^◌, length};
ghost use Rattle.std.specs.List.{AllByRecursion};
ghost use Rattle.registry_defs.specs.Limits.{HaveFields};
ghost use Rattle.registry_defs.specs.Nodes.{keys_of};
ghost use Rattle.registry_defs.specs.Readings.{longest, info_of};
ghost use Rattle.registry_defs.specs.Rising.{RisingKeys};
ghost use Rattle.registry_defs.specs.Sections.{subkeys};

use crate::key::Key;
use crate::value::Value;
use registry_defs::Info;
use std::cmp::max;

impl Key {
    /// How much it holds.
    pub fn info(&self) -> Info
        requires rising { RisingKeys (keys_of self.now) }
        requires fields { HaveFields (keys_of self.now) }
        ensures { result ≡ info_of self.now.here (subkeys (keys_of self.now)) }
    {
        Info {
            subkeys: self.subkey_count(),
            longest_subkey: self.longest_subkey(),
            values: self.value_count(),
            longest_name: self.longest_name(),
            longest_data: self.longest_data(),
            written: self.written(),
        }
    }

    pub(crate) fn value_count(&self) -> u32
        requires few { length self.now.here.values < 2 ^ 32 }
        ensures { result ≡ length self.now.here.values }
    {
        self.values.len() as u32
    }

    pub(crate) fn subkey_count(&self) -> u32
        requires rising { RisingKeys (keys_of self.now) }
        requires few { length (keys_of self.now) < 2 ^ 32 }
        ensures { result ≡ length (subkeys (keys_of self.now)) }
    {
        self.subkeys.len() as u32
    }

    fn longest_subkey(&self) -> u32
        requires rising { RisingKeys (keys_of self.now) }
        requires fields { HaveFields (keys_of self.now) }
        ensures { result ≡ longest (λ entry. length entry.1.part) (subkeys (keys_of self.now)) }
    {
        longest_part(&self.subkeys) as u32
    }

    fn longest_name(&self) -> u32
        ensures { result ≡ longest (λ entry. length entry.1.name) self.now.here.values }
    {
        longest_name(&self.values) as u32
    }

    fn longest_data(&self) -> u32
        requires short { AllByRecursion (λ entry. length entry.1.bytes ≤ 49152) self.now.here.values }
        ensures { result ≡ longest (λ entry. length entry.1.bytes) self.now.here.values }
    {
        longest_data(&self.values) as u32
    }
}

fn longest_part(keys: &[Key]) -> usize
    ensures { result ≡ longest (λ key. length key.here.part) keys.now }
{
    let mut most = 0;
    'keys: for key in keys {
        most = max(most, key.part().len());
    }
    most
}

fn longest_name(values: &[Value]) -> usize
    ensures exact { result ≡ longest (λ value. length value.name) values.now }
    ensures short { result ≤ 1023 }
{
    let mut most = 0;
    'values: for value in values {
        most = max(most, value.name.units().len());
    }
    most
}

fn longest_data(values: &[Value]) -> usize
    ensures { result ≡ longest (λ value. length value.bytes) values.now }
{
    let mut most = 0;
    'values: for value in values {
        most = max(most, value.bytes.as_slice().len());
    }
    most
}
