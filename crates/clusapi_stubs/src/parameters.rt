//! The parameters of each method, in the order in which they are sent.

ghost use Rattle.clusapi_stubs.specs.Grammar.{TakesInput};

use crate::fault::InFault;
use crate::input::In;
use crate::values::{array, handle, number, text};
use std::alloc::Global;
use wire_fields::Fields;

pub(crate) fn get_root_key(from: &mut Fields<'_>) -> Result<In, InFault>
    ensures { TakesInput 28 result from.old from.new }
{
    let sam = number(from)?;
    Ok(In::GetRootKey { sam })
}

pub(crate) fn close_cluster(from: &mut Fields<'_>) -> Result<In, InFault>
    ensures { TakesInput 1 result from.old from.new }
{
    let handle = handle(from)?;
    Ok(In::CloseCluster { handle })
}

pub(crate) fn close_key(from: &mut Fields<'_>) -> Result<In, InFault>
    ensures { TakesInput 37 result from.old from.new }
{
    let handle = handle(from)?;
    Ok(In::CloseKey { handle })
}

pub(crate) fn query_info_key(from: &mut Fields<'_>) -> Result<In, InFault>
    ensures { TakesInput 38 result from.old from.new }
{
    let handle = handle(from)?;
    Ok(In::QueryInfoKey { handle })
}

pub(crate) fn enum_key(from: &mut Fields<'_>) -> Result<In, InFault>
    ensures { TakesInput 31 result from.old from.new }
{
    let handle = handle(from)?;
    let index = number(from)?;
    Ok(In::EnumKey { handle, index })
}

pub(crate) fn enum_value(from: &mut Fields<'_>) -> Result<In, InFault>
    ensures { TakesInput 36 result from.old from.new }
{
    let handle = handle(from)?;
    let index = number(from)?;
    let cb_data = number(from)?;
    Ok(In::EnumValue {
        handle,
        index,
        cb_data,
    })
}

pub(crate) fn delete_value(alloc: Global, from: &mut Fields<'_>) -> Result<In, InFault>
    ensures { TakesInput 33 result from.old from.new }
{
    let handle = handle(from)?;
    let name = text(alloc, from)?;
    Ok(In::DeleteValue { handle, name })
}

pub(crate) fn delete_key(alloc: Global, from: &mut Fields<'_>) -> Result<In, InFault>
    ensures { TakesInput 35 result from.old from.new }
{
    let handle = handle(from)?;
    let subkey = text(alloc, from)?;
    Ok(In::DeleteKey { handle, subkey })
}

pub(crate) fn open_key(alloc: Global, from: &mut Fields<'_>) -> Result<In, InFault>
    ensures { TakesInput 30 result from.old from.new }
{
    let handle = handle(from)?;
    let subkey = text(alloc, from)?;
    let sam = number(from)?;
    Ok(In::OpenKey {
        handle,
        subkey,
        sam,
    })
}

pub(crate) fn query_value(alloc: Global, from: &mut Fields<'_>) -> Result<In, InFault>
    ensures { TakesInput 34 result from.old from.new }
{
    let handle = handle(from)?;
    let name = text(alloc, from)?;
    let cb_data = number(from)?;
    Ok(In::QueryValue {
        handle,
        name,
        cb_data,
    })
}

pub(crate) fn create_key(alloc: Global, from: &mut Fields<'_>) -> Result<In, InFault>
    ensures { TakesInput 29 result from.old from.new }
{
    let handle = handle(from)?;
    let subkey = text(alloc, from)?;
    let options = number(from)?;
    let sam = number(from)?;
    let security = number(from)?;
    Ok(In::CreateKey {
        handle,
        subkey,
        options,
        sam,
        security,
    })
}

pub(crate) fn set_value(alloc: Global, from: &mut Fields<'_>) -> Result<In, InFault>
    ensures { TakesInput 32 result from.old from.new }
{
    let handle = handle(from)?;
    let name = text(alloc, from)?;
    let kind = number(from)?;
    let bytes = array(alloc, from)?;
    let cb_data = number(from)?;
    Ok(In::SetValue {
        handle,
        name,
        kind,
        bytes,
        cb_data,
    })
}
