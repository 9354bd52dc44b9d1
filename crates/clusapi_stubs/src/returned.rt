//! The results of each method, in the order in which they are sent.

ghost use Rattle.clusapi_stubs.specs.Results.{TakesOutput};

use crate::fault::InFault;
use crate::output::Out;
use crate::values::{array, handle, number, target, time};
use std::alloc::Global;
use wire_fields::Fields;

pub(crate) fn open_cluster(from: &mut Fields<'_>) -> Result<Out, InFault>
    ensures { TakesOutput 0 result from.old from.new }
{
    let status = number(from)?;
    let handle = handle(from)?;
    Ok(Out::OpenCluster { status, handle })
}

pub(crate) fn close_cluster(from: &mut Fields<'_>) -> Result<Out, InFault>
    ensures { TakesOutput 1 result from.old from.new }
{
    let handle = handle(from)?;
    let status = number(from)?;
    Ok(Out::CloseCluster { handle, status })
}

pub(crate) fn close_key(from: &mut Fields<'_>) -> Result<Out, InFault>
    ensures { TakesOutput 37 result from.old from.new }
{
    let handle = handle(from)?;
    let status = number(from)?;
    Ok(Out::CloseKey { handle, status })
}

pub(crate) fn get_cluster_name(alloc: Global, from: &mut Fields<'_>) -> Result<Out, InFault>
    ensures { TakesOutput 3 result from.old from.new }
{
    let cluster = target(alloc, from)?;
    let node = target(alloc, from)?;
    let status = number(from)?;
    Ok(Out::GetClusterName {
        cluster,
        node,
        status,
    })
}

pub(crate) fn get_root_key(from: &mut Fields<'_>) -> Result<Out, InFault>
    ensures { TakesOutput 28 result from.old from.new }
{
    let status = number(from)?;
    let rpc_status = number(from)?;
    let handle = handle(from)?;
    Ok(Out::GetRootKey {
        status,
        rpc_status,
        handle,
    })
}

pub(crate) fn open_key(from: &mut Fields<'_>) -> Result<Out, InFault>
    ensures { TakesOutput 30 result from.old from.new }
{
    let status = number(from)?;
    let rpc_status = number(from)?;
    let handle = handle(from)?;
    Ok(Out::OpenKey {
        status,
        rpc_status,
        handle,
    })
}

pub(crate) fn create_key(from: &mut Fields<'_>) -> Result<Out, InFault>
    ensures { TakesOutput 29 result from.old from.new }
{
    let disposition = number(from)?;
    let status = number(from)?;
    let rpc_status = number(from)?;
    let handle = handle(from)?;
    Ok(Out::CreateKey {
        disposition,
        status,
        rpc_status,
        handle,
    })
}

pub(crate) fn set_value(from: &mut Fields<'_>) -> Result<Out, InFault>
    ensures { TakesOutput 32 result from.old from.new }
{
    let rpc_status = number(from)?;
    let status = number(from)?;
    Ok(Out::SetValue { rpc_status, status })
}

pub(crate) fn delete_value(from: &mut Fields<'_>) -> Result<Out, InFault>
    ensures { TakesOutput 33 result from.old from.new }
{
    let rpc_status = number(from)?;
    let status = number(from)?;
    Ok(Out::DeleteValue { rpc_status, status })
}

pub(crate) fn delete_key(from: &mut Fields<'_>) -> Result<Out, InFault>
    ensures { TakesOutput 35 result from.old from.new }
{
    let rpc_status = number(from)?;
    let status = number(from)?;
    Ok(Out::DeleteKey { rpc_status, status })
}

pub(crate) fn enum_key(alloc: Global, from: &mut Fields<'_>) -> Result<Out, InFault>
    ensures { TakesOutput 31 result from.old from.new }
{
    let name = target(alloc, from)?;
    let written = time(from)?;
    let rpc_status = number(from)?;
    let status = number(from)?;
    Ok(Out::EnumKey {
        name,
        written,
        rpc_status,
        status,
    })
}

pub(crate) fn query_value(alloc: Global, from: &mut Fields<'_>) -> Result<Out, InFault>
    ensures { TakesOutput 34 result from.old from.new }
{
    let kind = number(from)?;
    let bytes = array(alloc, from)?;
    let required = number(from)?;
    let rpc_status = number(from)?;
    let status = number(from)?;
    Ok(Out::QueryValue {
        kind,
        bytes,
        required,
        rpc_status,
        status,
    })
}

pub(crate) fn enum_value(alloc: Global, from: &mut Fields<'_>) -> Result<Out, InFault>
    ensures { TakesOutput 36 result from.old from.new }
{
    let name = target(alloc, from)?;
    let kind = number(from)?;
    let bytes = array(alloc, from)?;
    let cb_data = number(from)?;
    let total = number(from)?;
    let rpc_status = number(from)?;
    let status = number(from)?;
    Ok(Out::EnumValue {
        name,
        kind,
        bytes,
        cb_data,
        total,
        rpc_status,
        status,
    })
}

pub(crate) fn query_info_key(from: &mut Fields<'_>) -> Result<Out, InFault>
    ensures { TakesOutput 38 result from.old from.new }
{
    let subkeys = number(from)?;
    let longest_subkey = number(from)?;
    let values = number(from)?;
    let longest_name = number(from)?;
    let longest_data = number(from)?;
    let security = number(from)?;
    let written = time(from)?;
    let rpc_status = number(from)?;
    let status = number(from)?;
    Ok(Out::QueryInfoKey {
        subkeys,
        longest_subkey,
        values,
        longest_name,
        longest_data,
        security,
        written,
        rpc_status,
        status,
    })
}
