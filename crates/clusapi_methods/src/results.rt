//! The results of the methods that read, from what is found in the registry.

ghost use Rattle.std.specs.Prelude.{◌≡◌, ◌-◌, ◌≤◌, ◌++◌, IfOk, Some, length, replicate};
ghost use Rattle.clusapi_stubs.specs.declared.output.Out.TheVariants.{EnumKey};
ghost use Rattle.clusapi_methods.specs.Checked.{IsTold};
ghost use Rattle.clusapi_methods.specs.Results.{entry_out, info_out, value_out};
ghost use Rattle.clusapi_methods.specs.Sizes.{IsBounded, IsShortText};

use crate::refusals::zeros;
use crate::statuses::MORE_DATA;
use clus_names::Units;
use clus_registry::Info;
use clusapi_stubs::Out;
use std::alloc::{AllocError, Global};
use wire_fields::Octets;

pub(crate) fn key(alloc: Global, name: &[u16], written: u64) -> Result<Out, AllocError>
    requires { IsShortText name.now }
    ensures results { IfOk result (λ out. out ≡ EnumKey (Some name.now) written 0 0) }
    ensures bounded { IfOk result IsBounded }
{
    Ok(Out::EnumKey {
        name: Some(Units::new(name.to_vec(alloc)?)),
        written,
        rpc_status: 0,
        status: 0,
    })
}

/// A value whose data is padded with zeros to the size that was asked for. Data that is longer isn't given.
pub(crate) fn value(alloc: Global, kind: u32, bytes: &[u8], cb_data: u32) -> Result<Out, AllocError>
    requires { length bytes.now ≤ 49152 }
    ensures results { IfOk result (λ out. out ≡ value_out kind bytes.now cb_data) }
    ensures bounded { IfOk result IsBounded }
{
    let required = bytes.len() as u32;
    if cb_data < required {
        return Ok(Out::QueryValue {
            kind,
            bytes: zeros(alloc, cb_data)?,
            required,
            rpc_status: 0,
            status: MORE_DATA,
        });
    }
    Ok(Out::QueryValue {
        kind,
        bytes: padded(alloc, bytes, cb_data)?,
        required,
        rpc_status: 0,
        status: 0,
    })
}

fn padded(alloc: Global, bytes: &[u8], size: u32) -> Result<Octets, AllocError>
    requires { length bytes.now ≤ size }
    ensures { IfOk result (λ all. all ≡ bytes.now ++ replicate (size - length bytes.now) 0) }
{
    let mut all = bytes.to_vec(alloc)?;
    all.resize(size as usize, 0)?;
    Ok(Octets::new(all))
}

/// A value of an enumeration. Data that is longer than what was asked for isn't given.
pub(crate) fn named_value(
    alloc: Global,
    name: &[u16],
    kind: u32,
    bytes: &[u8],
    cb_data: u32,
) -> Result<Out, AllocError>
    requires { IsTold name.now bytes.now }
    ensures results { IfOk result (λ out. out ≡ entry_out name.now kind bytes.now cb_data) }
    ensures bounded { IfOk result IsBounded }
{
    let name = Some(Units::new(name.to_vec(alloc)?));
    let total = bytes.len() as u32;
    if cb_data < total {
        return Ok(Out::EnumValue {
            name,
            kind,
            bytes: Octets::new(Vec::new(alloc)),
            cb_data: 0,
            total,
            rpc_status: 0,
            status: MORE_DATA,
        });
    }
    Ok(Out::EnumValue {
        name,
        kind,
        bytes: Octets::new(bytes.to_vec(alloc)?),
        cb_data: total,
        total,
        rpc_status: 0,
        status: 0,
    })
}

pub(crate) fn info(info: &Info) -> Out
    ensures { result ≡ info_out info.now }
{
    Out::QueryInfoKey {
        subkeys: info.subkeys,
        longest_subkey: info.longest_subkey,
        values: info.values,
        longest_name: info.longest_name,
        longest_data: info.longest_data,
        security: 0,
        written: info.written,
        rpc_status: 0,
        status: 0,
    }
}
