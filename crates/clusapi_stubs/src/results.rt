//! The results of the methods, in the order in which they are sent.

ghost use Rattle.std.specs.Prelude.{◌≡◌, ℕ, [], ◌∷◌, ◌++◌, IfSome, OnOk, slice_index};
ghost use Rattle.ndr_values.specs.Spelling.{Bytes, Handle, Number, Time};
ghost use Rattle.clusapi_stubs.specs.Outputs.{IsArray, IsText, first_referent, referent_after, text_at, written};

use clus_names::Units;
use ndr_values::{
    WireHandle, write_bytes, write_handle, write_number, write_pointer, write_string, write_time,
};
use std::alloc::AllocError;
use wire_fields::{Octets, Put};

/// The referent of the first pointer of a stub that isn't null (C706, 14.3.10).
const FIRST_REFERENT: u32 = 0x0002_0000;

/// A pointer to a text.
fn text(into: &mut Put, referent: u32, text: &Option<Units>) -> Result<(), AllocError>
    requires { IfSome text.now IsText }
    ensures { OnOk result (into.new ≡ written into.old (text_at referent text.now)) }
{
    match text {
        None => write_pointer(into, 0),
        Some(text) => {
            write_pointer(into, referent)?;
            write_string(into, text.as_slice())
        }
    }
}

fn referent_after(referent: u32, text: &Option<Units>) -> u32
    requires { referent ≡ first_referent }
    ensures { result ≡ referent_after referent text.now }
{
    match text {
        None => referent,
        Some(_) => referent + 4,
    }
}

pub(crate) fn handle_behind(
    into: &mut Put,
    status: u32,
    handle: &WireHandle,
) -> Result<(), AllocError>
    ensures { OnOk result (into.new ≡ written into.old (Number status ∷ Handle handle.now ∷ [])) }
{
    write_number(into, status)?;
    write_handle(into, handle)
}

pub(crate) fn handle_first(
    into: &mut Put,
    handle: &WireHandle,
    status: u32,
) -> Result<(), AllocError>
    ensures { OnOk result (into.new ≡ written into.old (Handle handle.now ∷ Number status ∷ [])) }
{
    write_handle(into, handle)?;
    write_number(into, status)
}

pub(crate) fn cluster_name(
    into: &mut Put,
    cluster: &Option<Units>,
    node: &Option<Units>,
    status: u32,
) -> Result<(), AllocError>
    requires cluster { IfSome cluster.now IsText }
    requires node { IfSome node.now IsText }
    ensures { OnOk result (into.new ≡ written into.old (text_at first_referent cluster.now ++ (text_at (referent_after first_referent cluster.now) node.now ++ Number status ∷ []))) }
{
    text(into, FIRST_REFERENT, cluster)?;
    text(into, referent_after(FIRST_REFERENT, cluster), node)?;
    write_number(into, status)
}

pub(crate) fn opened(
    into: &mut Put,
    status: u32,
    rpc_status: u32,
    handle: &WireHandle,
) -> Result<(), AllocError>
    ensures { OnOk result (into.new ≡ written into.old (Number status ∷ Number rpc_status ∷ Handle handle.now ∷ [])) }
{
    write_number(into, status)?;
    write_number(into, rpc_status)?;
    write_handle(into, handle)
}

pub(crate) fn created(
    into: &mut Put,
    disposition: u32,
    status: u32,
    rpc_status: u32,
    handle: &WireHandle,
) -> Result<(), AllocError>
    ensures { OnOk result (into.new ≡ written into.old (Number disposition ∷ Number status ∷ Number rpc_status ∷ Handle handle.now ∷ [])) }
{
    write_number(into, disposition)?;
    write_number(into, status)?;
    write_number(into, rpc_status)?;
    write_handle(into, handle)
}

pub(crate) fn statuses(into: &mut Put, rpc_status: u32, status: u32) -> Result<(), AllocError>
    ensures { OnOk result (into.new ≡ written into.old (Number rpc_status ∷ Number status ∷ [])) }
{
    write_number(into, rpc_status)?;
    write_number(into, status)
}

pub(crate) fn time_and_statuses(
    into: &mut Put,
    time: u64,
    rpc_status: u32,
    status: u32,
) -> Result<(), AllocError>
    ensures { OnOk result (into.new ≡ written into.old (Time time ∷ Number rpc_status ∷ Number status ∷ [])) }
{
    write_time(into, time)?;
    write_number(into, rpc_status)?;
    write_number(into, status)
}

pub(crate) fn key(
    into: &mut Put,
    name: &Option<Units>,
    time: u64,
    rpc_status: u32,
    status: u32,
) -> Result<(), AllocError>
    requires { IfSome name.now IsText }
    ensures { OnOk result (into.new ≡ written into.old (text_at first_referent name.now ++ Time time ∷ Number rpc_status ∷ Number status ∷ [])) }
{
    text(into, FIRST_REFERENT, name)?;
    time_and_statuses(into, time, rpc_status, status)
}

/// The type of a value and its data.
fn data(into: &mut Put, kind: u32, bytes: &Octets) -> Result<(), AllocError>
    requires { IsArray bytes.now }
    ensures { OnOk result (into.new ≡ written into.old (Number kind ∷ Bytes bytes.now ∷ [])) }
{
    write_number(into, kind)?;
    write_bytes(into, bytes.as_slice())
}

pub(crate) fn value(
    into: &mut Put,
    kind: u32,
    bytes: &Octets,
    required: u32,
    rpc_status: u32,
    status: u32,
) -> Result<(), AllocError>
    requires { IsArray bytes.now }
    ensures { OnOk result (into.new ≡ written into.old (Number kind ∷ Bytes bytes.now ∷ Number required ∷ Number rpc_status ∷ Number status ∷ [])) }
{
    data(into, kind, bytes)?;
    write_number(into, required)?;
    statuses(into, rpc_status, status)
}

fn value_and_size(
    into: &mut Put,
    kind: u32,
    bytes: &Octets,
    cb_data: u32,
    total: u32,
    rpc_status: u32,
    status: u32,
) -> Result<(), AllocError>
    requires { IsArray bytes.now }
    ensures { OnOk result (into.new ≡ written into.old (Number kind ∷ Bytes bytes.now ∷ Number cb_data ∷ Number total ∷ Number rpc_status ∷ Number status ∷ [])) }
{
    data(into, kind, bytes)?;
    write_number(into, cb_data)?;
    write_number(into, total)?;
    statuses(into, rpc_status, status)
}

pub(crate) fn named_value(
    into: &mut Put,
    name: &Option<Units>,
    kind: u32,
    bytes: &Octets,
    cb_data: u32,
    total: u32,
    rpc_status: u32,
    status: u32,
) -> Result<(), AllocError>
    requires name { IfSome name.now IsText }
    requires bytes { IsArray bytes.now }
    ensures { OnOk result (into.new ≡ written into.old (text_at first_referent name.now ++ Number kind ∷ Bytes bytes.now ∷ Number cb_data ∷ Number total ∷ Number rpc_status ∷ Number status ∷ [])) }
{
    text(into, FIRST_REFERENT, name)?;
    value_and_size(into, kind, bytes, cb_data, total, rpc_status, status)
}

pub(crate) fn counts(into: &mut Put, counts: &[u32; 6]) -> Result<(), AllocError>
    ensures { OnOk result (into.new ≡ written into.old (Number (slice_index counts.now 0) ∷ Number (slice_index counts.now 1) ∷ Number (slice_index counts.now 2) ∷ Number (slice_index counts.now 3) ∷ Number (slice_index counts.now 4) ∷ Number (slice_index counts.now 5) ∷ [])) }
{
    write_number(into, counts[0])?;
    write_number(into, counts[1])?;
    write_number(into, counts[2])?;
    write_number(into, counts[3])?;
    write_number(into, counts[4])?;
    write_number(into, counts[5])
}
