//! The results of a method as a stub.

ghost use Rattle.std.specs.Prelude.{◌≡◌, [], IfOk, OnOk};
ghost use Rattle.wire_fields.specs.declared.endian.Endian.TheVariants.{Little};
ghost use Rattle.clusapi_stubs.specs.Outputs.{CanSpell, encoding, results, written};

use crate::output::Out;
use crate::results as put;
use std::alloc::{AllocError, Global};
use wire_fields::{Endian, Put};

/// The results in their canonical encoding: little-endian, with padding of zeros.
pub fn write_out(alloc: Global, out: &Out) -> Result<Vec<u8>, AllocError>
    requires { CanSpell out.now }
    ensures { IfOk result (λ stub. stub.items ≡ encoding Little [] (results out.now)) }
{
    let mut into = Put::new(alloc, Endian::Little);
    put_out(&mut into, out)?;
    Ok(into.into_bytes())
}

fn put_out(into: &mut Put, out: &Out) -> Result<(), AllocError>
    requires { CanSpell out.now }
    ensures { OnOk result (into.new ≡ written into.old (results out.now)) }
{
    match out {
        Out::OpenCluster { status, handle } => put::handle_behind(into, *status, handle),
        Out::CloseCluster { handle, status } | Out::CloseKey { handle, status } => {
            put::handle_first(into, handle, *status)
        }
        Out::GetClusterName {
            cluster,
            node,
            status,
        } => put::cluster_name(into, cluster, node, *status),
        Out::GetRootKey {
            status,
            rpc_status,
            handle,
        }
        | Out::OpenKey {
            status,
            rpc_status,
            handle,
        } => put::opened(into, *status, *rpc_status, handle),
        Out::CreateKey {
            disposition,
            status,
            rpc_status,
            handle,
        } => put::created(into, *disposition, *status, *rpc_status, handle),
        Out::EnumKey {
            name,
            written,
            rpc_status,
            status,
        } => put::key(into, name, *written, *rpc_status, *status),
        Out::SetValue { rpc_status, status }
        | Out::DeleteValue { rpc_status, status }
        | Out::DeleteKey { rpc_status, status } => put::statuses(into, *rpc_status, *status),
        Out::QueryValue {
            kind,
            bytes,
            required,
            rpc_status,
            status,
        } => put::value(into, *kind, bytes, *required, *rpc_status, *status),
        Out::EnumValue {
            name,
            kind,
            bytes,
            cb_data,
            total,
            rpc_status,
            status,
        } => put::named_value(
            into,
            name,
            *kind,
            bytes,
            *cb_data,
            *total,
            *rpc_status,
            *status,
        ),
        Out::QueryInfoKey {
            subkeys,
            longest_subkey,
            values,
            longest_name,
            longest_data,
            security,
            written,
            rpc_status,
            status,
        } => {
            put::counts(
                into,
                &[
                    *subkeys,
                    *longest_subkey,
                    *values,
                    *longest_name,
                    *longest_data,
                    *security,
                ],
            )?;
            put::time_and_statuses(into, *written, *rpc_status, *status)
        }
    }
}
