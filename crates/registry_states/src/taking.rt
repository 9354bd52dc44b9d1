//! The items of a state, each read whole.

ghost use Rattle.std.specs.Prelude.{◌≡◌, ◌+◌, ◌≤◌, ◌<◌, length, IfOk};
ghost use Rattle.registry_defs.specs.StateGrammar.{is_above, part_at, value_at};
ghost use Rattle.registry_tree.specs.Values.{value_data};
ghost use Rattle.registry_states.specs.Ahead.{last_value};
ghost use Rattle.registry_states.specs.Items.{head_at, subkey_at};
ghost use Rattle.registry_states.specs.Readers.{name_at};
ghost use Rattle.registry_states.specs.Readers.{Takes};

use crate::ahead::Level;
use crate::item::{Head, Item};
use crate::read_fault::ReadFault;
use crate::reading::{
    MOST_NAME_UNITS, MOST_PART_UNITS, MOST_PATH_UNITS, WRITTEN_MARK, birth_field, data,
    lacks_separator, u32_field, unit_count, units, written_field,
};
use clus_names::{Name, NameFault, Units, cmp_folded, lacks_zero};
use registry_tree::Value;
use std::alloc::Global;
use wire_fields::Fields;

/// The value behind these items.
#[tactic(auto, unfolding(registry_defs::specs::StateGrammar::value_at))]
pub(crate) fn take_value(
    alloc: Global,
    fields: &mut Fields<'_>,
    items: &[Item],
    end: usize,
) -> Result<Value, ReadFault>
    ensures { Takes value_data result (value_at (last_value items.now) end fields.old) fields.new }
{
    let name = value_name(alloc, fields, items, end)?;
    let kind = u32_field(fields, end)?;
    let bytes = data(alloc, fields, end)?;
    Ok(Value { name, kind, bytes })
}

#[tactic(auto, unfolding(registry_defs::specs::StateFields::units_at))]
fn value_name(
    alloc: Global,
    fields: &mut Fields<'_>,
    items: &[Item],
    end: usize,
) -> Result<Name, ReadFault>
    ensures { Takes (λ name. name) result (name_at (last_value items.now) end fields.old) fields.new }
{
    let count = unit_count(fields, 0, MOST_NAME_UNITS, end)?;
    let place = fields.place();
    let units = units(alloc, fields, count)?;
    if end < fields.place() {
        return Err(ReadFault::Bad { place });
    }
    if !lacks_zero(&units) || !is_above_item(items, &units) {
        return Err(ReadFault::Bad { place });
    }
    match Name::new(alloc, &units) {
        Ok(name) => Ok(name),
        Err(NameFault::Memory) => Err(ReadFault::Memory),
        Err(_) => unreachable!(),
    }
}

/// A name is above that of the value right before it; the first value of a key has none before it.
fn is_above_item(items: &[Item], name: &[u16]) -> bool
    ensures { result ≡ is_above (last_value items.now) name.now }
{
    match items.last() {
        Some(Item::Value(last)) => cmp_folded(last.name.units(), name).is_lt(),
        Some(Item::Head(_)) => true,
        Some(Item::Subkeys(_)) => true,
        None => true,
    }
}

/// The next subkey of the level.
#[tactic(auto, unfolding(crate::specs::Items::subkey_at))]
pub(crate) fn take_subkey(
    alloc: Global,
    fields: &mut Fields<'_>,
    level: &Level,
    end: usize,
) -> Result<Head, ReadFault>
    ensures taken { Takes (λ head. head) result (subkey_at level.now.depth level.now.last level.now.used end fields.old) fields.new }
    ensures short { IfOk result (λ head. level.now.used + length head.part ≤ 1278) }
    ensures deep { IfOk result (λ _. 0 < level.now.depth) }
{
    let part = take_part(alloc, fields, level, end)?;
    if level.depth == 0 {
        return Err(ReadFault::Bad {
            place: fields.place(),
        });
    }
    take_head(fields, part, end)
}

#[tactic(auto, unfolding(registry_defs::specs::StateFields::units_at, registry_defs::specs::StateGrammar::part_at))]
fn take_part(
    alloc: Global,
    fields: &mut Fields<'_>,
    level: &Level,
    end: usize,
) -> Result<Units, ReadFault>
    ensures taken { Takes (λ part. part) result (part_at level.now.last level.now.used end fields.old) fields.new }
    ensures short { IfOk result (λ part. level.now.used + length part ≤ 1278) }
{
    let most = MOST_PART_UNITS.min(MOST_PATH_UNITS.saturating_sub(level.used));
    let count = unit_count(fields, 1, most, end)?;
    let place = fields.place();
    let units = units(alloc, fields, count)?;
    if end < fields.place() {
        return Err(ReadFault::Bad { place });
    }
    if !lacks_zero(&units) || !lacks_separator(&units) || !is_above(&level.last, &units) {
        return Err(ReadFault::Bad { place });
    }
    Ok(Units::new(units))
}

fn is_above(last: &Option<Units>, part: &[u16]) -> bool
    ensures { result ≡ is_above last.now part.now }
{
    match last {
        None => true,
        Some(last) => cmp_folded(last.as_slice(), part).is_lt(),
    }
}

/// The key whose name was read.
#[tactic(auto, unfolding(crate::specs::Items::head_at))]
pub(crate) fn take_head(fields: &mut Fields<'_>, part: Units, end: usize) -> Result<Head, ReadFault>
    ensures taken { Takes (λ head. head) result (head_at part end fields.old) fields.new }
    ensures named { IfOk result (λ head. head.part ≡ part) }
{
    let field = birth_field(fields, part.as_slice(), end)?;
    let written = written_field(fields, WRITTEN_MARK <= field, end)?;
    let values = u32_field(fields, end)?;
    Ok(Head {
        part,
        birth: field % WRITTEN_MARK,
        written,
        values,
    })
}
