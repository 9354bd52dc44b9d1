//! Single fields, each with the place at which it is at fault: the first byte of a field that is cut off, ends past
//! `end`, or breaks its rule. Formats that hold records read their own numbers with them.

ghost use Rattle.std.specs.Prelude.{◌≡◌, ◌≤◌, length, IfOk};
ghost use Rattle.clus_names.specs.Limits.{lacks_zero};
ghost use Rattle.wire_fields.specs.Reading.{bytes_at, number_at, times};
ghost use Rattle.update_records.specs.Checked.{field_at, between, anything, whole};
ghost use Rattle.update_records.specs.Grammar.{data_at, name_at, path_at};
ghost use Rattle.update_records.specs.Outcomes.{Takes, JudgesPath};

use crate::fault::RecordFault;
use clus_names::{Name, NameFault, Path, lacks_zero};
use std::alloc::Global;
use wire_fields::{Fields, Octets};

const MOST_DATA_BYTES: u32 = 49_152;

const MOST_UNITS: u16 = 1023;

/// A number of 1 byte from `low` to `high`.
pub fn u8_between(fields: &mut Fields<'_>, low: u8, high: u8, end: usize) -> Result<u8, RecordFault>
    ensures taken { Takes (λ value. value) result (field_at (number_at 1) (between low high) end fields.old) fields.new }
    ensures bounds { IfOk result (λ value. (low ≤ value) × (value ≤ high)) }
{
    let place = fields.place();
    let Ok(value) = fields.u8() else {
        return Err(RecordFault::Bad { place });
    };
    if end < fields.place() {
        return Err(RecordFault::Bad { place });
    }
    if value < low || high < value {
        return Err(RecordFault::Bad { place });
    }
    Ok(value)
}

/// A number of 2 bytes from `low` to `high`.
pub fn u16_between(
    fields: &mut Fields<'_>,
    low: u16,
    high: u16,
    end: usize,
) -> Result<u16, RecordFault>
    ensures taken { Takes (λ value. value) result (field_at (number_at 2) (between low high) end fields.old) fields.new }
    ensures bounds { IfOk result (λ value. (low ≤ value) × (value ≤ high)) }
{
    let place = fields.place();
    let Ok(value) = fields.u16() else {
        return Err(RecordFault::Bad { place });
    };
    if end < fields.place() {
        return Err(RecordFault::Bad { place });
    }
    if value < low || high < value {
        return Err(RecordFault::Bad { place });
    }
    Ok(value)
}

/// A number of 4 bytes from `low` to `high`.
pub fn u32_between(
    fields: &mut Fields<'_>,
    low: u32,
    high: u32,
    end: usize,
) -> Result<u32, RecordFault>
    ensures taken { Takes (λ value. value) result (field_at (number_at 4) (between low high) end fields.old) fields.new }
    ensures bounds { IfOk result (λ value. (low ≤ value) × (value ≤ high)) }
{
    let place = fields.place();
    let Ok(value) = fields.u32() else {
        return Err(RecordFault::Bad { place });
    };
    if end < fields.place() {
        return Err(RecordFault::Bad { place });
    }
    if value < low || high < value {
        return Err(RecordFault::Bad { place });
    }
    Ok(value)
}

/// A number of 8 bytes from `low` to `high`.
pub fn u64_between(
    fields: &mut Fields<'_>,
    low: u64,
    high: u64,
    end: usize,
) -> Result<u64, RecordFault>
    ensures taken { Takes (λ value. value) result (field_at (number_at 8) (between low high) end fields.old) fields.new }
    ensures bounds { IfOk result (λ value. (low ≤ value) × (value ≤ high)) }
{
    let place = fields.place();
    let Ok(value) = fields.u64() else {
        return Err(RecordFault::Bad { place });
    };
    if end < fields.place() {
        return Err(RecordFault::Bad { place });
    }
    if value < low || high < value {
        return Err(RecordFault::Bad { place });
    }
    Ok(value)
}

/// Any number of 4 bytes.
pub fn u32_field(fields: &mut Fields<'_>, end: usize) -> Result<u32, RecordFault>
    ensures { Takes (λ value. value) result (field_at (number_at 4) anything end fields.old) fields.new }
{
    let place = fields.place();
    let Ok(value) = fields.u32() else {
        return Err(RecordFault::Bad { place });
    };
    if end < fields.place() {
        return Err(RecordFault::Bad { place });
    }
    Ok(value)
}

/// Any number of 8 bytes.
pub fn u64_field(fields: &mut Fields<'_>, end: usize) -> Result<u64, RecordFault>
    ensures { Takes (λ value. value) result (field_at (number_at 8) anything end fields.old) fields.new }
{
    let place = fields.place();
    let Ok(value) = fields.u64() else {
        return Err(RecordFault::Bad { place });
    };
    if end < fields.place() {
        return Err(RecordFault::Bad { place });
    }
    Ok(value)
}

fn units(alloc: Global, fields: &mut Fields<'_>, count: u16) -> Result<Vec<u16>, RecordFault>
    ensures taken { Takes (λ units. units.items) result (whole fields.old.place (times count (number_at 2) fields.old)) fields.new }
    ensures many { IfOk result (λ units. length units.items ≡ count) }
{
    let place = fields.place();
    let mut units = Vec::new(alloc);
    'units: for _ in 0..count {
        match fields.u16() {
            Ok(unit) => units.push(unit)?,
            Err(_) => return Err(RecordFault::Bad { place }),
        }
    }
    Ok(units)
}

#[tactic(auto, unfolding(crate::specs::Grammar::name_at, crate::specs::Grammar::units_at))]
pub fn name(alloc: Global, fields: &mut Fields<'_>, end: usize) -> Result<Name, RecordFault>
    ensures { Takes (λ name. name) result (name_at end fields.old) fields.new }
{
    let count = u16_between(fields, 0, MOST_UNITS, end)?;
    let place = fields.place();
    let units = units(alloc, fields, count)?;
    if end < fields.place() {
        return Err(RecordFault::Bad { place });
    }
    if !lacks_zero(&units) {
        return Err(RecordFault::Bad { place });
    }
    match Name::new(alloc, &units) {
        Ok(name) => Ok(name),
        Err(NameFault::Memory) => Err(RecordFault::Memory),
        Err(_) => unreachable!(),
    }
}

/// A path whose text has between `low` and `high` units.
#[tactic(auto, unfolding(crate::specs::Grammar::path_at, crate::specs::Grammar::units_at))]
pub fn path(
    alloc: Global,
    fields: &mut Fields<'_>,
    low: u16,
    high: u16,
    end: usize,
) -> Result<Path, RecordFault>
    ensures { Takes (λ path. path) result (path_at low high end fields.old) fields.new }
{
    let count = u16_between(fields, low, high, end)?;
    let place = fields.place();
    let units = units(alloc, fields, count)?;
    if end < fields.place() {
        return Err(RecordFault::Bad { place });
    }
    path_in(alloc, &units, place)
}

fn path_in(alloc: Global, units: &[u16], place: usize) -> Result<Path, RecordFault>
    ensures { JudgesPath result units.now place }
{
    if !lacks_zero(units) {
        return Err(RecordFault::Bad { place });
    }
    match Path::parse(alloc, units) {
        Ok(path) => Ok(path),
        Err(NameFault::Memory) => Err(RecordFault::Memory),
        Err(_) => Err(RecordFault::Bad { place }),
    }
}

#[tactic(auto, unfolding(crate::specs::Grammar::data_at))]
pub fn data(alloc: Global, fields: &mut Fields<'_>, end: usize) -> Result<Octets, RecordFault>
    ensures { Takes (λ bytes. bytes) result (data_at end fields.old) fields.new }
{
    let count = u32_between(fields, 0, MOST_DATA_BYTES, end)?;
    let place = fields.place();
    let Ok(bytes) = fields.take(count as usize) else {
        return Err(RecordFault::Bad { place });
    };
    if end < fields.place() {
        return Err(RecordFault::Bad { place });
    }
    Ok(Octets::new(bytes.to_vec(alloc)?))
}
