//! Single fields of a state. A field is at fault, at its first byte, where it is cut off, ends past `end`, or breaks its
//! rule.

ghost use Rattle.std.specs.Prelude.{◌≡◌, ◌≤◌, ◌&&◌, true, length, nat_le, IfOk};
ghost use Rattle.wire_fields.specs.Reading.{number_at, times};
ghost use Rattle.registry_defs.specs.StateFields.{data_at, field_at};
ghost use Rattle.registry_defs.specs.StateGrammar.{fits_birth, lacks_separator, written_at};
ghost use Rattle.registry_states.specs.Readers.{whole};
ghost use Rattle.registry_states.specs.Readers.{Takes};

use crate::read_fault::ReadFault;
use std::alloc::Global;
use wire_fields::{Fields, Octets};

const MOST_DATA_BYTES: u32 = 49_152;

pub(crate) const MOST_NAME_UNITS: u16 = 1023;

pub(crate) const MOST_PART_UNITS: u16 = 255;

/// The text of a path has no more.
pub(crate) const MOST_PATH_UNITS: u16 = 1023;

const SEPARATOR: u16 = 0x5C;

/// In the field of a creation number it tells that a written time follows.
pub(crate) const WRITTEN_MARK: u64 = 0x8000_0000_0000_0000;

/// A number of 4 bytes, of at most `most`.
fn u32_at_most(fields: &mut Fields<'_>, most: u32, end: usize) -> Result<u32, ReadFault>
    ensures taken { Takes (λ value. value) result (field_at (number_at 4) (λ value. nat_le value most) end fields.old) fields.new }
{
    let place = fields.place();
    let Ok(value) = fields.u32() else {
        return Err(ReadFault::Cut { place });
    };
    if end < fields.place() {
        return Err(ReadFault::Bad { place });
    }
    if most < value {
        return Err(ReadFault::Bad { place });
    }
    Ok(value)
}

/// Any number of 4 bytes.
pub(crate) fn u32_field(fields: &mut Fields<'_>, end: usize) -> Result<u32, ReadFault>
    ensures { Takes (λ value. value) result (field_at (number_at 4) (λ value. true) end fields.old) fields.new }
{
    let place = fields.place();
    let Ok(value) = fields.u32() else {
        return Err(ReadFault::Cut { place });
    };
    if end < fields.place() {
        return Err(ReadFault::Bad { place });
    }
    Ok(value)
}

/// The creation number of the key with the name, and whether a written time follows.
pub(crate) fn birth_field(
    fields: &mut Fields<'_>,
    part: &[u16],
    end: usize,
) -> Result<u64, ReadFault>
    ensures { Takes (λ field. field) result (field_at (number_at 8) (fits_birth part.now) end fields.old) fields.new }
{
    let place = fields.place();
    let Ok(field) = fields.u64() else {
        return Err(ReadFault::Cut { place });
    };
    if end < fields.place() {
        return Err(ReadFault::Bad { place });
    }
    if !fits_birth(part, field) {
        return Err(ReadFault::Bad { place });
    }
    Ok(field)
}

fn fits_birth(part: &[u16], field: u64) -> bool
    ensures { result ≡ fits_birth part.now field }
{
    if part.is_empty() {
        field % WRITTEN_MARK == 0
    } else {
        0 < field % WRITTEN_MARK
    }
}

/// The written time, where it is there.
pub(crate) fn written_field(
    fields: &mut Fields<'_>,
    is_there: bool,
    end: usize,
) -> Result<u64, ReadFault>
    ensures { Takes (λ written. written) result (written_at is_there end fields.old) fields.new }
{
    if !is_there {
        return Ok(0);
    }
    let place = fields.place();
    let Ok(written) = fields.u64() else {
        return Err(ReadFault::Cut { place });
    };
    if end < fields.place() {
        return Err(ReadFault::Bad { place });
    }
    if written == 0 {
        return Err(ReadFault::Bad { place });
    }
    Ok(written)
}

/// How many units follow.
pub(crate) fn unit_count(
    fields: &mut Fields<'_>,
    low: u16,
    high: u16,
    end: usize,
) -> Result<u16, ReadFault>
    ensures taken { Takes (λ count. count) result (field_at (number_at 2) (λ count. nat_le low count && nat_le count high) end fields.old) fields.new }
    ensures most { IfOk result (λ count. count ≤ high) }
{
    let place = fields.place();
    let Ok(count) = fields.u16() else {
        return Err(ReadFault::Cut { place });
    };
    if end < fields.place() {
        return Err(ReadFault::Bad { place });
    }
    if count < low || high < count {
        return Err(ReadFault::Bad { place });
    }
    Ok(count)
}

pub(crate) fn units(
    alloc: Global,
    fields: &mut Fields<'_>,
    count: u16,
) -> Result<Vec<u16>, ReadFault>
    ensures taken { Takes (λ units. units.items) result (whole fields.old.place (times count (number_at 2) fields.old)) fields.new }
    ensures many { IfOk result (λ units. length units.items ≡ count) }
{
    let place = fields.place();
    let mut units = Vec::new(alloc);
    'units: for _ in 0..count {
        match fields.u16() {
            Ok(unit) => units.push(unit)?,
            Err(_) => return Err(ReadFault::Cut { place }),
        }
    }
    Ok(units)
}

pub(crate) fn lacks_separator(units: &[u16]) -> bool
    ensures { result ≡ lacks_separator units.now }
{
    !units.contains(&SEPARATOR)
}

#[tactic(auto, unfolding(registry_defs::specs::StateFields::data_at))]
pub(crate) fn data(alloc: Global, fields: &mut Fields<'_>, end: usize) -> Result<Octets, ReadFault>
    ensures { Takes (λ bytes. bytes) result (data_at end fields.old) fields.new }
{
    let count = u32_at_most(fields, MOST_DATA_BYTES, end)?;
    let place = fields.place();
    let Ok(bytes) = fields.take(count as usize) else {
        return Err(ReadFault::Cut { place });
    };
    if end < fields.place() {
        return Err(ReadFault::Bad { place });
    }
    Ok(Octets::new(bytes.to_vec(alloc)?))
}
