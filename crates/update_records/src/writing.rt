//! The spelling of updates, appended field by field.

ghost use Rattle.std.specs.Prelude.{◌≡◌, ◌<◌, ◌≤◌, length, All, OnOk};
ghost use Rattle.std.specs.List.{flat_map};
ghost use Rattle.wire_fields.specs.Numbers.{IsBytes};
ghost use Rattle.wire_fields.specs.declared.endian.Endian.TheVariants.{Little};
ghost use Rattle.clus_names.specs.Limits.{IsPath, IsName};
ghost use Rattle.update_records.specs.declared.change.Change.TheVariants as change;
ghost use Rattle.update_records.specs.declared.update.Update.TheVariants as update;
ghost use Rattle.update_records.specs.Limits.{IsChange, IsKey, IsUpdate};
ghost use Rattle.update_records.specs.Outcomes.{Appends};
ghost use Rattle.update_records.specs.Spelling.{change_text, data_text, key_text, name_text, path_text, units_text, update_text};
ghost use Rattle.update_records.specs.Validity.{FitTogether, IsValid, IsValidChange, IsValidBatch};

use crate::change::Change;
use crate::update::Update;
use clus_names::{Name, Path};
use std::alloc::AllocError;
use wire_fields::{Octets, Put};

fn put_units(put: &mut Put, units: &[u16]) -> Result<(), AllocError>
    requires { put.old.endian ≡ Little }
    ensures { Appends result put.old put.new (units_text units.now) }
{
    'units: for unit in units {
        put.u16(*unit)?;
    }
    Ok(())
}

/// A name: how many units, and the units.
#[tactic(auto, unfolding(crate::specs::Spelling::name_text))]
pub fn put_counted(put: &mut Put, units: &[u16]) -> Result<(), AllocError>
    requires order { put.old.endian ≡ Little }
    requires short { length units.now ≤ 1023 }
    ensures { Appends result put.old put.new (name_text units.now) }
{
    put.u16(units.len() as u16)?;
    put_units(put, units)
}

fn put_name(put: &mut Put, name: &Name) -> Result<(), AllocError>
    requires { put.old.endian ≡ Little }
    ensures written { Appends result put.old put.new (name_text name.now) }
    ensures limits { IsName name.now }
{
    put_counted(put, name.units())
}

fn put_path(put: &mut Put, path: &Path) -> Result<(), AllocError>
    requires { put.old.endian ≡ Little }
    ensures written { Appends result put.old put.new (path_text path.now) }
    ensures limits { IsPath path.now }
{
    put_counted(put, path.units())
}

/// Data of a value: how many bytes, and the bytes.
#[tactic(auto, unfolding(crate::specs::Spelling::data_text))]
pub fn put_data(put: &mut Put, bytes: &Octets) -> Result<(), AllocError>
    requires order { put.old.endian ≡ Little }
    requires short { length bytes.now ≤ 49152 }
    ensures written { Appends result put.old put.new (data_text bytes.now) }
    ensures limits { IsBytes bytes.now }
{
    let bytes = bytes.as_slice();
    put.u32(bytes.len() as u32)?;
    put.bytes(bytes)
}

#[tactic(auto, unfolding(crate::specs::Spelling::key_text))]
fn put_key(put: &mut Put, kind: u8, key: &Path, birth: u64) -> Result<(), AllocError>
    requires { put.old.endian ≡ Little }
    ensures written { Appends result put.old put.new (key_text kind key.now birth) }
    ensures limits { OnOk result (IsKey key.now birth) }
{
    put.u8(kind)?;
    put_path(put, key)?;
    put.u64(birth)
}

#[tactic(auto, unfolding(crate::specs::Spelling::change_text))]
fn put_create(put: &mut Put, key: &Path, birth: u64, subkey: &Path) -> Result<(), AllocError>
    requires order { put.old.endian ≡ Little }
    requires fit { FitTogether key.now subkey.now }
    ensures written { Appends result put.old put.new (change_text (change.Create key.now birth subkey.now)) }
    ensures limits { OnOk result (IsChange (change.Create key.now birth subkey.now)) }
{
    put_key(put, 1, key, birth)?;
    put_path(put, subkey)
}

#[tactic(auto, unfolding(crate::specs::Spelling::change_text))]
fn put_set_value(
    put: &mut Put,
    key: &Path,
    birth: u64,
    name: &Name,
    kind: u32,
    bytes: &Octets,
) -> Result<(), AllocError>
    requires order { put.old.endian ≡ Little }
    requires short { length bytes.now ≤ 49152 }
    ensures written { Appends result put.old put.new (change_text (change.SetValue key.now birth name.now kind bytes.now)) }
    ensures limits { OnOk result (IsChange (change.SetValue key.now birth name.now kind bytes.now)) }
{
    put_key(put, 2, key, birth)?;
    put_name(put, name)?;
    put.u32(kind)?;
    put_data(put, bytes)
}

#[tactic(auto, unfolding(crate::specs::Spelling::change_text))]
fn put_delete_value(put: &mut Put, key: &Path, birth: u64, name: &Name) -> Result<(), AllocError>
    requires { put.old.endian ≡ Little }
    ensures written { Appends result put.old put.new (change_text (change.DeleteValue key.now birth name.now)) }
    ensures limits { OnOk result (IsChange (change.DeleteValue key.now birth name.now)) }
{
    put_key(put, 3, key, birth)?;
    put_name(put, name)
}

#[tactic(auto, unfolding(crate::specs::Spelling::change_text))]
fn put_delete_key(put: &mut Put, key: &Path, birth: u64, subkey: &Path) -> Result<(), AllocError>
    requires order { put.old.endian ≡ Little }
    requires fit { FitTogether key.now subkey.now }
    requires some { 0 < length subkey.now }
    ensures written { Appends result put.old put.new (change_text (change.DeleteKey key.now birth subkey.now)) }
    ensures limits { OnOk result (IsChange (change.DeleteKey key.now birth subkey.now)) }
{
    put_key(put, 4, key, birth)?;
    put_path(put, subkey)
}

fn put_change(put: &mut Put, change: &Change) -> Result<(), AllocError>
    requires order { put.old.endian ≡ Little }
    requires valid { IsValidChange change.now }
    ensures written { Appends result put.old put.new (change_text change.now) }
    ensures limits { OnOk result (IsChange change.now) }
{
    match change {
        Change::Create { key, birth, subkey } => put_create(put, key, *birth, subkey),
        Change::SetValue {
            key,
            birth,
            name,
            kind,
            bytes,
        } => put_set_value(put, key, *birth, name, *kind, bytes),
        Change::DeleteValue { key, birth, name } => put_delete_value(put, key, *birth, name),
        Change::DeleteKey { key, birth, subkey } => put_delete_key(put, key, *birth, subkey),
    }
}

fn put_changes(put: &mut Put, changes: &[Change]) -> Result<(), AllocError>
    requires order { put.old.endian ≡ Little }
    requires valid { All IsValidChange changes.now }
    ensures written { Appends result put.old put.new (flat_map change_text changes.now) }
    ensures limits { OnOk result (All IsChange changes.now) }
{
    'changes: for change in changes {
        put_change(put, change)?;
    }
    Ok(())
}

fn put_batch(put: &mut Put, changes: &[Change]) -> Result<(), AllocError>
    requires order { put.old.endian ≡ Little }
    requires valid { IsValidBatch changes.now }
    ensures written { Appends result put.old put.new (update_text (update.Batch changes.now)) }
    ensures limits { OnOk result (IsUpdate (update.Batch changes.now)) }
{
    put.u8(5)?;
    put.u16(changes.len() as u16)?;
    put_changes(put, changes)
}

pub fn put_update(put: &mut Put, update: &Update) -> Result<(), AllocError>
    requires order { put.old.endian ≡ Little }
    requires valid { IsValid update.now }
    ensures written { Appends result put.old put.new (update_text update.now) }
    ensures limits { OnOk result (IsUpdate update.now) }
{
    match update {
        Update::Create { key, birth, subkey } => put_create(put, key, *birth, subkey),
        Update::SetValue {
            key,
            birth,
            name,
            kind,
            bytes,
        } => put_set_value(put, key, *birth, name, *kind, bytes),
        Update::DeleteValue { key, birth, name } => put_delete_value(put, key, *birth, name),
        Update::DeleteKey { key, birth, subkey } => put_delete_key(put, key, *birth, subkey),
        Update::Batch { changes } => put_batch(put, changes.as_slice()),
    }
}
