//! The changes of a registry, key by key.

ghost use Rattle.std.specs.Prelude.{◌≡◌, ◌≤◌, ◌++◌, [], ◌∷◌, length, All, IfOk, OnOk};
ghost use Rattle.std.specs.List.{AllByRecursion, flat_map};
ghost use Rattle.clus_names.specs.declared.fault.NameFault.TheVariants.{Memory};
ghost use Rattle.clus_names.specs.Limits.{IsPart};
ghost use Rattle.clus_names.specs.Parts.{text_of};
ghost use Rattle.update_records.specs.Validity.{IsValid};
ghost use Rattle.registry_defs.specs.Contents.{keys_in};
ghost use Rattle.registry_defs.specs.Limits.{HasFields, HaveFields};
ghost use Rattle.registry_defs.specs.Nodes.{keys_of};
ghost use Rattle.registry_defs.specs.Rising.{RisingKeys};
ghost use Rattle.registry_tree.specs.Values.{entries_of, value_entry};
ghost use Rattle.hive_text.specs.Batches.{batches_of, changes_in};
ghost use Rattle.hive_text.specs.Batching.{HavePaths, IsSound, Takes};
ghost use Rattle.hive_text.specs.Changes.{changes_from, changes_of, creation, key_changes, setting, settings};

use crate::batcher::Batcher;
use clus_names::{NameFault, Path};
use clus_registry::Registry;
use registry_tree::{Key, Value};
use std::alloc::{AllocError, Global};
use update_records::{Change, Update};

/// The bytes of a change that makes a key, beside those of its path.
const CREATION_BYTES: usize = 13;

/// The bytes of a change that sets a value, beside those of its path, its name and its data.
const SETTING_BYTES: usize = 21;

/// The registry as updates: batches of changes that make its keys and set its values.
pub fn batches(alloc: Global, registry: &Registry) -> Result<Vec<Update>, AllocError>
    ensures cut { IfOk result (λ updates. updates.items ≡ batches_of (keys_in registry.now)) }
    ensures whole { IfOk result (λ updates. flat_map changes_in updates.items ≡ changes_of (keys_in registry.now)) }
    ensures valid { IfOk result (λ updates. All IsValid updates.items) }
{
    let mut batcher = Batcher::new(alloc);
    take_key(alloc, registry.root(), &Path::root(alloc), &mut batcher)?;
    batcher.finish()
}

/// The changes of the key with the path, and of all below it.
fn take_key(alloc: Global, key: &Key, path: &Path, batcher: &mut Batcher) -> Result<(), AllocError>
    requires sound { IsSound batcher.old }
    requires rising { RisingKeys (keys_of key.now) }
    requires fields { HaveFields (keys_of key.now) }
    requires paths { HavePaths path.now key.now.below }
    ensures { OnOk result (Takes batcher.old (changes_from path.now (keys_of key.now)) batcher.new) }
{
    take_alone(alloc, key, path, batcher)?;
    'subkeys: for subkey in key.subkeys() {
        let below = path_below(alloc, path, subkey.part())?;
        take_key(alloc, subkey, &below, batcher)?;
    }
    Ok(())
}

/// The changes of the key with the path alone.
fn take_alone(
    alloc: Global,
    key: &Key,
    path: &Path,
    batcher: &mut Batcher,
) -> Result<(), AllocError>
    requires sound { IsSound batcher.old }
    requires fields { HasFields key.now.here }
    ensures { OnOk result (Takes batcher.old (key_changes path.now key.now.here) batcher.new) }
{
    take_creation(alloc, path, batcher)?;
    take_values(alloc, path, key.values(), batcher)
}

fn take_creation(alloc: Global, path: &Path, batcher: &mut Batcher) -> Result<(), AllocError>
    requires { IsSound batcher.old }
    ensures { OnOk result (Takes batcher.old (creation path.now) batcher.new) }
{
    if path.parts() == 0 {
        return Ok(());
    }
    let size = CREATION_BYTES + 2 * path.units().len();
    let subkey = path.copy(alloc)?;
    batcher.take(
        Change::Create {
            key: Path::root(alloc),
            birth: 0,
            subkey,
        },
        size,
    )
}

fn take_values(
    alloc: Global,
    path: &Path,
    values: &[Value],
    batcher: &mut Batcher,
) -> Result<(), AllocError>
    requires sound { IsSound batcher.old }
    requires short { AllByRecursion (λ value. length value.bytes ≤ 49152) values.now }
    ensures { OnOk result (Takes batcher.old (settings path.now (entries_of values.now)) batcher.new) }
{
    'values: for value in values {
        take_value(alloc, path, value, batcher)?;
    }
    Ok(())
}

fn take_value(
    alloc: Global,
    path: &Path,
    value: &Value,
    batcher: &mut Batcher,
) -> Result<(), AllocError>
    requires sound { IsSound batcher.old }
    requires short { length value.now.bytes ≤ 49152 }
    ensures { OnOk result (Takes batcher.old (setting path.now (value_entry value.now) ∷ []) batcher.new) }
{
    let units = path.units().len() + value.name.units().len();
    let size = SETTING_BYTES + 2 * units + value.bytes.as_slice().len();
    let key = path.copy(alloc)?;
    let name = value.name.copy(alloc)?;
    let bytes = value.bytes.copy(alloc)?;
    batcher.take(
        Change::SetValue {
            key,
            birth: 0,
            name,
            kind: value.kind,
            bytes,
        },
        size,
    )
}

/// The path of a subkey with the name.
fn path_below(alloc: Global, path: &Path, part: &[u16]) -> Result<Path, AllocError>
    requires part { IsPart part.now }
    requires short { length (text_of (path.now ++ part.now ∷ [])) ≤ 1023 }
    ensures { IfOk result (λ below. below ≡ path.now ++ part.now ∷ []) }
{
    let subkey = match Path::parse(alloc, part) {
        Ok(subkey) => subkey,
        Err(fault) => return Err(out_of_memory(fault)),
    };
    match path.join(alloc, &subkey) {
        Ok(below) => Ok(below),
        Err(fault) => Err(out_of_memory(fault)),
    }
}

/// The fault of a call that can have no other.
pub(crate) fn out_of_memory(fault: NameFault) -> AllocError
    requires { fault ≡ Memory }
{
    match fault {
        NameFault::Memory => AllocError,
        _ => unreachable!(),
    }
}
