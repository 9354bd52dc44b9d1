//! The parameters of a method as a stub.

ghost use Rattle.std.specs.Prelude.{◌≡◌, [], ◌∷◌, IfOk, OnOk};
ghost use Rattle.wire_fields.specs.declared.endian.Endian.TheVariants.{Little};
ghost use Rattle.ndr_values.specs.Spelling.{Bytes, Handle, Number, Text};
ghost use Rattle.clusapi_stubs.specs.Inputs.{parameters};
ghost use Rattle.clusapi_stubs.specs.Outputs.{IsArray, IsText, encoding, written};
ghost use Rattle.clusapi_stubs.specs.Requests.{CanAsk};

use crate::input::In;
use clus_names::Units;
use ndr_values::{WireHandle, write_bytes, write_handle, write_number, write_string};
use std::alloc::{AllocError, Global};
use wire_fields::{Endian, Octets, Put};

/// The parameters in their canonical encoding: little-endian, with padding of zeros.
pub fn write_in(alloc: Global, input: &In) -> Result<Vec<u8>, AllocError>
    requires { CanAsk input.now }
    ensures { IfOk result (λ stub. stub.items ≡ encoding Little [] (parameters input.now)) }
{
    let mut into = Put::new(alloc, Endian::Little);
    put_in(&mut into, input)?;
    Ok(into.into_bytes())
}

fn put_in(into: &mut Put, input: &In) -> Result<(), AllocError>
    requires { CanAsk input.now }
    ensures { OnOk result (into.new ≡ written into.old (parameters input.now)) }
{
    match input {
        In::OpenCluster | In::GetClusterName => Ok(()),
        In::CloseCluster { handle } | In::CloseKey { handle } | In::QueryInfoKey { handle } => {
            on(into, handle)
        }
        In::GetRootKey { sam } => number(into, *sam),
        In::CreateKey {
            handle,
            subkey,
            options,
            sam,
            security,
        } => create_key(into, handle, subkey, *options, *sam, *security),
        In::OpenKey {
            handle,
            subkey: text,
            sam: number,
        }
        | In::QueryValue {
            handle,
            name: text,
            cb_data: number,
        } => text_and_number(into, handle, text, *number),
        In::EnumKey { handle, index } => index_of(into, handle, *index),
        In::SetValue {
            handle,
            name,
            kind,
            bytes,
            cb_data,
        } => set_value(into, handle, name, *kind, bytes, *cb_data),
        In::DeleteValue { handle, name: text }
        | In::DeleteKey {
            handle,
            subkey: text,
        } => text_of(into, handle, text),
        In::EnumValue {
            handle,
            index,
            cb_data,
        } => index_and_size(into, handle, *index, *cb_data),
    }
}

fn number(into: &mut Put, number: u32) -> Result<(), AllocError>
    ensures { OnOk result (into.new ≡ written into.old (Number number ∷ [])) }
{
    write_number(into, number)
}

fn on(into: &mut Put, handle: &WireHandle) -> Result<(), AllocError>
    ensures { OnOk result (into.new ≡ written into.old (Handle handle.now ∷ [])) }
{
    write_handle(into, handle)
}

fn index_of(into: &mut Put, handle: &WireHandle, index: u32) -> Result<(), AllocError>
    ensures { OnOk result (into.new ≡ written into.old (Handle handle.now ∷ Number index ∷ [])) }
{
    write_handle(into, handle)?;
    write_number(into, index)
}

fn index_and_size(
    into: &mut Put,
    handle: &WireHandle,
    index: u32,
    cb_data: u32,
) -> Result<(), AllocError>
    ensures { OnOk result (into.new ≡ written into.old (Handle handle.now ∷ Number index ∷ Number cb_data ∷ [])) }
{
    write_handle(into, handle)?;
    write_number(into, index)?;
    write_number(into, cb_data)
}

fn text_of(into: &mut Put, handle: &WireHandle, text: &Units) -> Result<(), AllocError>
    requires { IsText text.now }
    ensures { OnOk result (into.new ≡ written into.old (Handle handle.now ∷ Text text.now ∷ [])) }
{
    write_handle(into, handle)?;
    write_string(into, text.as_slice())
}

fn text_and_number(
    into: &mut Put,
    handle: &WireHandle,
    text: &Units,
    number: u32,
) -> Result<(), AllocError>
    requires { IsText text.now }
    ensures { OnOk result (into.new ≡ written into.old (Handle handle.now ∷ Text text.now ∷ Number number ∷ [])) }
{
    text_of(into, handle, text)?;
    write_number(into, number)
}

fn create_key(
    into: &mut Put,
    handle: &WireHandle,
    subkey: &Units,
    options: u32,
    sam: u32,
    security: u32,
) -> Result<(), AllocError>
    requires { IsText subkey.now }
    ensures { OnOk result (into.new ≡ written into.old (Handle handle.now ∷ Text subkey.now ∷ Number options ∷ Number sam ∷ Number security ∷ [])) }
{
    text_of(into, handle, subkey)?;
    write_number(into, options)?;
    write_number(into, sam)?;
    write_number(into, security)
}

fn set_value(
    into: &mut Put,
    handle: &WireHandle,
    name: &Units,
    kind: u32,
    bytes: &Octets,
    cb_data: u32,
) -> Result<(), AllocError>
    requires name { IsText name.now }
    requires bytes { IsArray bytes.now }
    ensures { OnOk result (into.new ≡ written into.old (Handle handle.now ∷ Text name.now ∷ Number kind ∷ Bytes bytes.now ∷ Number cb_data ∷ [])) }
{
    text_of(into, handle, name)?;
    write_number(into, kind)?;
    write_bytes(into, bytes.as_slice())?;
    write_number(into, cb_data)
}
