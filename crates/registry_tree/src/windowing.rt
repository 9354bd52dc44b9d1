//! A part of the spelling of a registry, written into a slice without memory.

ghost use Rattle.std.specs.Prelude.{◌≡◌, ◌+◌, ◌<◌, ◌≤◌, ◌^◌, length, take, drop};
ghost use Rattle.std.specs.List.{AllByRecursion};
ghost use Rattle.update_records.specs.Spelling.{units_text, name_text, data_text};
ghost use Rattle.registry_defs.specs.Limits.{HasFields, HaveFields};
ghost use Rattle.registry_defs.specs.Nodes.{keys_of};
ghost use Rattle.registry_defs.specs.Rising.{RisingKeys};
ghost use Rattle.registry_defs.specs.Sections.{subkeys};
ghost use Rattle.registry_defs.specs.Spelling.{birth_text, value_text, values_text, key_text, registry_text};
ghost use Rattle.registry_tree.specs.Values.{value_data, entries_of};
ghost use Rattle.registry_tree.specs.Windows.{Fills};

use crate::key::Key;
use crate::value::Value;
use crate::window::Window;

impl Key {
    /// Fills a slice with the bytes, from the offset on, of the spelling of the registry whose root this is.
    pub fn write_piece(&self, offset: usize, into: &mut [u8])
        requires rising { RisingKeys (keys_of self.now) }
        requires fields { HaveFields (keys_of self.now) }
        requires within { offset + length into.old ≤ length (registry_text (keys_of self.now)) }
        ensures { into.new ≡ take (length into.old) (drop offset (registry_text (keys_of self.now))) }
    {
        let mut window = Window {
            before: offset,
            filled: 0,
        };
        self.fill(&mut window, into);
    }

    /// Writes the spelling, up to the end of the window.
    fn fill(&self, window: &mut Window, into: &mut [u8])
        requires within { window.old.filled ≤ length into.old }
        requires rising { RisingKeys (keys_of self.now) }
        requires fields { HaveFields (keys_of self.now) }
        ensures { Fills (registry_text (keys_of self.now)) window.old into.old window.new into.new }
    {
        self.fill_alone(window, into);
        'subkeys: for key in &self.subkeys {
            if window.is_full(into) {
                return;
            }
            fill_name(window, key.part(), into);
            key.fill(window, into);
        }
    }

    /// What stands before the subkeys.
    #[tactic(auto, unfolding(registry_defs::specs::Spelling::key_text))]
    fn fill_alone(&self, window: &mut Window, into: &mut [u8])
        requires within { window.old.filled ≤ length into.old }
        requires rising { RisingKeys (keys_of self.now) }
        requires fields { HaveFields (keys_of self.now) }
        ensures { Fills (key_text self.now.here (length (subkeys (keys_of self.now)))) window.old into.old window.new into.new }
    {
        fill_birth(window, self.birth(), self.written(), into);
        window.put_u32(self.value_count(), into);
        self.fill_values(window, into);
        window.put_u32(self.subkey_count(), into);
    }

    fn fill_values(&self, window: &mut Window, into: &mut [u8])
        requires within { window.old.filled ≤ length into.old }
        requires fields { HasFields self.now.here }
        ensures { Fills (values_text self.now.here.values) window.old into.old window.new into.new }
    {
        fill_values(window, &self.values, into);
    }
}

#[tactic(auto, unfolding(registry_defs::specs::Spelling::birth_text))]
fn fill_birth(window: &mut Window, birth: u64, written: u64, into: &mut [u8])
    requires within { window.old.filled ≤ length into.old }
    requires room { birth < 2 ^ 63 }
    ensures { Fills (birth_text birth written) window.old into.old window.new into.new }
{
    if written == 0 {
        window.put_u64(birth, into);
        return;
    }
    window.put_u64(birth + 0x8000_0000_0000_0000, into);
    window.put_u64(written, into);
}

fn fill_values(window: &mut Window, values: &[Value], into: &mut [u8])
    requires within { window.old.filled ≤ length into.old }
    requires names { AllByRecursion (λ value. length value.name ≤ 1023) values.now }
    requires short { AllByRecursion (λ value. length value.bytes ≤ 49152) values.now }
    ensures { Fills (values_text (entries_of values.now)) window.old into.old window.new into.new }
{
    'values: for value in values {
        if window.is_full(into) {
            return;
        }
        fill_value(window, value, into);
    }
}

#[tactic(auto, unfolding(registry_defs::specs::Spelling::value_text))]
fn fill_value(window: &mut Window, value: &Value, into: &mut [u8])
    requires within { window.old.filled ≤ length into.old }
    requires name { length value.now.name ≤ 1023 }
    requires short { length value.now.bytes ≤ 49152 }
    ensures { Fills (value_text (value_data value.now)) window.old into.old window.new into.new }
{
    fill_name(window, value.name.units(), into);
    window.put_u32(value.kind, into);
    fill_data(window, value.bytes.as_slice(), into);
}

/// A name: how many units, and the units.
#[tactic(auto, unfolding(update_records::specs::Spelling::name_text))]
fn fill_name(window: &mut Window, units: &[u16], into: &mut [u8])
    requires within { window.old.filled ≤ length into.old }
    requires short { length units.now ≤ 1023 }
    ensures { Fills (name_text units.now) window.old into.old window.new into.new }
{
    if window.passes(2 + 2 * units.len()) {
        return;
    }
    window.put_u16(units.len() as u16, into);
    fill_units(window, units, into);
}

fn fill_units(window: &mut Window, units: &[u16], into: &mut [u8])
    requires within { window.old.filled ≤ length into.old }
    ensures { Fills (units_text units.now) window.old into.old window.new into.new }
{
    'units: for unit in units {
        window.put_u16(*unit, into);
    }
}

/// Data of a value: how many bytes, and the bytes.
#[tactic(auto, unfolding(update_records::specs::Spelling::data_text))]
fn fill_data(window: &mut Window, bytes: &[u8], into: &mut [u8])
    requires within { window.old.filled ≤ length into.old }
    requires short { length bytes.now ≤ 49152 }
    ensures { Fills (data_text bytes.now) window.old into.old window.new into.new }
{
    window.put_u32(bytes.len() as u32, into);
    window.put(bytes, into);
}
