ghost use Rattle.std.specs.Prelude.{◌≡◌, ◌<◌, ◌≤◌, ◌^◌, length};
ghost use Rattle.std.specs.List.{AllByRecursion};
ghost use Rattle.wire_fields.specs.declared.endian.Endian.TheVariants.{Little};
ghost use Rattle.update_records.specs.Outcomes.{Appends};
ghost use Rattle.registry_defs.specs.Limits.{HasFields, HaveFields};
ghost use Rattle.registry_defs.specs.Nodes.{keys_of};
ghost use Rattle.registry_defs.specs.Rising.{RisingKeys};
ghost use Rattle.registry_defs.specs.Sections.{subkeys};
ghost use Rattle.registry_defs.specs.Spelling.{birth_text, value_text, values_text, key_text, registry_text};
ghost use Rattle.registry_tree.specs.Values.{value_data, entries_of};

use crate::key::Key;
use crate::value::Value;
use std::alloc::AllocError;
use update_records::{put_counted, put_data};
use wire_fields::Put;

impl Key {
    /// Appends the spelling of the registry whose root this is.
    pub fn write(&self, put: &mut Put) -> Result<(), AllocError>
        requires order { put.old.endian ≡ Little }
        requires rising { RisingKeys (keys_of self.now) }
        requires fields { HaveFields (keys_of self.now) }
        ensures { Appends result put.old put.new (registry_text (keys_of self.now)) }
    {
        self.write_alone(put)?;
        'subkeys: for key in &self.subkeys {
            put_counted(put, key.part())?;
            key.write(put)?;
        }
        Ok(())
    }

    /// What stands before the subkeys.
    #[tactic(auto, unfolding(registry_defs::specs::Spelling::key_text))]
    fn write_alone(&self, put: &mut Put) -> Result<(), AllocError>
        requires order { put.old.endian ≡ Little }
        requires rising { RisingKeys (keys_of self.now) }
        requires fields { HaveFields (keys_of self.now) }
        ensures { Appends result put.old put.new (key_text self.now.here (length (subkeys (keys_of self.now)))) }
    {
        put_birth(put, self.birth(), self.written())?;
        put.u32(self.value_count())?;
        self.write_values(put)?;
        put.u32(self.subkey_count())
    }

    fn write_values(&self, put: &mut Put) -> Result<(), AllocError>
        requires order { put.old.endian ≡ Little }
        requires fields { HasFields self.now.here }
        ensures { Appends result put.old put.new (values_text self.now.here.values) }
    {
        put_values(put, &self.values)
    }
}

#[tactic(auto, unfolding(registry_defs::specs::Spelling::birth_text))]
fn put_birth(put: &mut Put, birth: u64, written: u64) -> Result<(), AllocError>
    requires order { put.old.endian ≡ Little }
    requires room { birth < 2 ^ 63 }
    ensures { Appends result put.old put.new (birth_text birth written) }
{
    if written == 0 {
        return put.u64(birth);
    }
    put.u64(birth + 0x8000_0000_0000_0000)?;
    put.u64(written)
}

#[tactic(auto, unfolding(registry_defs::specs::Spelling::value_text))]
fn put_value(put: &mut Put, value: &Value) -> Result<(), AllocError>
    requires order { put.old.endian ≡ Little }
    requires name { length value.now.name ≤ 1023 }
    requires short { length value.now.bytes ≤ 49152 }
    ensures { Appends result put.old put.new (value_text (value_data value.now)) }
{
    put_counted(put, value.name.units())?;
    put.u32(value.kind)?;
    put_data(put, &value.bytes)
}

fn put_values(put: &mut Put, values: &[Value]) -> Result<(), AllocError>
    requires order { put.old.endian ≡ Little }
    requires names { AllByRecursion (λ value. length value.name ≤ 1023) values.now }
    requires short { AllByRecursion (λ value. length value.bytes ≤ 49152) values.now }
    ensures { Appends result put.old put.new (values_text (entries_of values.now)) }
{
    'values: for value in values {
        put_value(put, value)?;
    }
    Ok(())
}
