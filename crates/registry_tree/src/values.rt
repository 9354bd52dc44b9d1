//! The values of one key, in ascending order of their folded names.

ghost use Rattle.std.specs.Prelude.{◌≡◌, ◌<◌, ◌≤◌, ◌+◌, ◌*◌, length, IfOk, OnOk, OnErr};
ghost use Rattle.clus_names.specs.Folding.{folded, name_cmp};
ghost use Rattle.registry_defs.specs.Changes.{value_set};
ghost use Rattle.registry_defs.specs.Keys.{without};
ghost use Rattle.registry_tree.specs.Values.{entries_of, RisingValues};

use crate::items::insert_at;
use crate::searching::search_values;
use crate::value::Value;
use clus_names::Name;
use std::alloc::{AllocError, Global};
use wire_fields::Octets;

/// Sets a value; one that is there keeps its name as first given.
pub fn set_in(
    alloc: Global,
    values: &mut Vec<Value>,
    name: &Name,
    kind: u32,
    bytes: Octets,
) -> Result<(), AllocError>
    requires { RisingValues values.old.items }
    ensures rising { RisingValues values.new.items }
    ensures ok { OnOk result (entries_of values.new.items ≡ value_set name.now kind bytes (entries_of values.old.items)) }
    ensures err { OnErr result (values.new.items ≡ values.old.items) }
{
    match search_values(values, name.units()) {
        Ok(at) => {
            let value = &mut values[at];
            value.kind = kind;
            value.bytes = bytes;
            Ok(())
        }
        Err(at) => {
            let name = name.copy(alloc)?;
            insert_at(values, at, Value { name, kind, bytes })?;
            Ok(())
        }
    }
}

/// Deletes a value, if it is there.
pub fn delete_in(values: &mut Vec<Value>, name: &[u16])
    requires { RisingValues values.old.items }
    ensures rising { RisingValues values.new.items }
    ensures entries { entries_of values.new.items ≡ without name_cmp (folded name.now) (entries_of values.old.items) }
{
    match search_values(values, name) {
        Ok(at) => {
            values.remove(at);
        }
        Err(_) => {}
    }
}

pub fn copied(alloc: Global, values: &[Value]) -> Result<Vec<Value>, AllocError>
    ensures { IfOk result (λ copied. copied.items ≡ values.now) }
{
    let mut items = Vec::new(alloc);
    for value in values {
        items.push(Value {
            name: value.name.copy(alloc)?,
            kind: value.kind,
            bytes: value.bytes.copy(alloc)?,
        })?;
    }
    Ok(items)
}
