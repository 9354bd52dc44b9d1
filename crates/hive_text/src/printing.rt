ghost use Rattle.std.specs.Prelude.{◌≡◌, ◌++◌, IfOk, OnOk, string_bytes};
ghost use Rattle.clus_names.specs.Limits.{LacksZero};
ghost use Rattle.registry_defs.specs.Contents.{keys_in};
ghost use Rattle.registry_defs.specs.Nodes.{keys_of};
ghost use Rattle.registry_tree.specs.Values.{entries_of, value_data};
ghost use Rattle.hive_text.specs.HiveText.{HaveNames, data_text, hive_text, key_line, keys_lines, kind_text, times_text, value_line, value_lines};

use clus_names::print_units;
use clus_registry::Registry;
use registry_tree::{Key, Value};
use std::alloc::{AllocError, Global};

/// The first line.
const HEAD: &[u8] = b"hive 1\n";

/// The line behind a key's values and subkeys.
const UP: &[u8] = b"up\n";

/// The text of the registry, which `read` reads back.
pub fn print(alloc: Global, registry: &Registry) -> Result<Vec<u8>, AllocError>
    ensures { IfOk result (λ text. text.items ≡ hive_text (keys_in registry.now)) }
{
    let mut text = Vec::new(alloc);
    text.extend_from_slice(HEAD)?;
    print_key(alloc, registry.root(), &mut text)?;
    Ok(text)
}

/// A key with all that stands below it.
fn print_key(alloc: Global, key: &Key, text: &mut Vec<u8>) -> Result<(), AllocError>
    requires { HaveNames (keys_of key.now) }
    ensures { OnOk result (text.new.items ≡ text.old.items ++ keys_lines 0 (keys_of key.now)) }
{
    push_key(alloc, key, text)?;
    push_values(alloc, key.values(), text)?;
    'subkeys: for subkey in key.subkeys() {
        print_key(alloc, subkey, text)?;
    }
    text.extend_from_slice(UP)?;
    Ok(())
}

#[tactic(auto, unfolding(crate::specs::HiveText::key_line))]
fn push_key(alloc: Global, key: &Key, text: &mut Vec<u8>) -> Result<(), AllocError>
    requires { LacksZero key.now.here.part }
    ensures { OnOk result (text.new.items ≡ text.old.items ++ key_line key.now.here) }
{
    text.extend_from_slice(b"key ")?;
    text.extend_from_slice(&print_units(alloc, key.part())?)?;
    text.extend_from_slice(times_text(alloc, key.birth(), key.written())?.as_bytes())?;
    Ok(())
}

#[tactic(auto, unfolding(crate::specs::HiveText::times_text))]
fn times_text(alloc: Global, birth: u64, written: u64) -> Result<String, AllocError>
    ensures { IfOk result (λ text. string_bytes text ≡ times_text birth written) }
{
    format!(in alloc; " {birth} {written}\n")
}

fn push_values(alloc: Global, values: &[Value], text: &mut Vec<u8>) -> Result<(), AllocError>
    ensures { OnOk result (text.new.items ≡ text.old.items ++ value_lines (entries_of values.now)) }
{
    'values: for value in values {
        push_value(alloc, value, text)?;
    }
    Ok(())
}

#[tactic(auto, unfolding(crate::specs::HiveText::value_line))]
fn push_value(alloc: Global, value: &Value, text: &mut Vec<u8>) -> Result<(), AllocError>
    ensures { OnOk result (text.new.items ≡ text.old.items ++ value_line (value_data value.now)) }
{
    text.extend_from_slice(b"value ")?;
    text.extend_from_slice(&print_units(alloc, value.name.units())?)?;
    text.extend_from_slice(kind_text(alloc, value.kind)?.as_bytes())?;
    text.extend_from_slice(data_text(alloc, value.bytes.as_slice())?.as_bytes())?;
    text.extend_from_slice(b"\n")?;
    Ok(())
}

#[tactic(auto, unfolding(crate::specs::HiveText::kind_text))]
fn kind_text(alloc: Global, kind: u32) -> Result<String, AllocError>
    ensures { IfOk result (λ text. string_bytes text ≡ kind_text kind) }
{
    format!(in alloc; " {kind} ")
}

/// Hexadecimal digits, lower case, or `-` where there is no byte.
fn data_text(alloc: Global, bytes: &[u8]) -> Result<String, AllocError>
    ensures { IfOk result (λ text. string_bytes text ≡ data_text bytes.now) }
{
    if bytes.is_empty() {
        return String::from_str(alloc, "-");
    }
    hex::encode(alloc, bytes)
}
