//! The values that parameters and results are made of.

ghost use Rattle.ndr_values.specs.Reading.{Takes, TakesIn, byte_array, handle, number, pointer, string, time};
ghost use Rattle.clusapi_stubs.specs.Results.{target};

use clus_names::Units;
use ndr_values::{
    NdrFault, ReadFault, WireHandle, read_bytes, read_handle, read_number, read_pointer,
    read_string, read_time,
};
use std::alloc::Global;
use wire_fields::{Fields, Octets};

pub(crate) fn number(from: &mut Fields<'_>) -> Result<u32, NdrFault>
    ensures { Takes (λ x. x) result (number from.old) from.new }
{
    read_number(from)
}

pub(crate) fn handle(from: &mut Fields<'_>) -> Result<WireHandle, NdrFault>
    ensures { Takes (λ x. x) result (handle from.old) from.new }
{
    read_handle(from)
}

pub(crate) fn text(alloc: Global, from: &mut Fields<'_>) -> Result<Units, ReadFault>
    ensures { TakesIn (λ x. x) result (string from.old) from.new }
{
    Ok(Units::new(read_string(alloc, from)?))
}

pub(crate) fn array(alloc: Global, from: &mut Fields<'_>) -> Result<Octets, ReadFault>
    ensures { TakesIn (λ x. x) result (byte_array from.old) from.new }
{
    Ok(Octets::new(read_bytes(alloc, from)?))
}

pub(crate) fn time(from: &mut Fields<'_>) -> Result<u64, NdrFault>
    ensures { Takes (λ x. x) result (time from.old) from.new }
{
    read_time(from)
}

fn pointer(from: &mut Fields<'_>) -> Result<bool, NdrFault>
    ensures { Takes (λ x. x) result (pointer from.old) from.new }
{
    read_pointer(from)
}

/// The text behind a pointer, None where it is null.
pub(crate) fn target(alloc: Global, from: &mut Fields<'_>) -> Result<Option<Units>, ReadFault>
    ensures { TakesIn (λ x. x) result (target from.old) from.new }
{
    if !pointer(from)? {
        return Ok(None);
    }
    Ok(Some(text(alloc, from)?))
}
