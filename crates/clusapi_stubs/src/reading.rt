//! A stub as the parameters of a method.

ghost use Rattle.std.specs.Prelude.{◌≡◌, IfErr, IfOk};
ghost use Rattle.clusapi_stubs.specs.Inputs.{LackZero, size_fits};
ghost use Rattle.clusapi_stubs.specs.Grammar.{GivesInput, InputBad, IsInput, TakesInput, sized};
ghost use Rattle.clusapi_stubs.specs.Parameters.{IsReadAs, input_in};
ghost use Rattle.clusapi_stubs.specs.declared.input.In.{In};

use crate::fault::InFault;
use crate::input::In;
use crate::parameters as of;
use ndr_values::NdrFault;
use std::alloc::Global;
use wire_fields::{Endian, Fields};

/// The bytes of a size.
const SIZE: usize = 4;

/// The longest value that a client may ask for.
const MOST_ASKED: u32 = 1_048_576;

/// The parameters of the method with this operation number. Bytes behind the last one are ignored.
pub fn read_in(alloc: Global, opnum: u16, endian: Endian, stub: &[u8]) -> Result<In, InFault>
    ensures read { IsReadAs result (input_in opnum endian stub.now) }
    ensures found { IfOk result (λ input. IsInput opnum endian stub.now input) }
    ensures texts { IfOk result LackZero }
    ensures only { (input : In) → IsInput opnum endian stub.now input → GivesInput result input }
    ensures fault { IfErr result (λ fault. InputBad opnum endian stub.now fault) }
{
    let mut from = Fields::new(stub, endian);
    let input = input(alloc, opnum, &mut from)?;
    sized(input, from.place())
}

/// Tests the size, which is the last parameter of the methods that have one.
fn sized(input: In, behind: usize) -> Result<In, InFault>
    ensures { result ≡ sized input behind }
{
    if size_fits(&input) {
        return Ok(input);
    }
    Err(InFault::Ndr(NdrFault::BadCount {
        place: behind.saturating_sub(SIZE),
    }))
}

fn input(alloc: Global, opnum: u16, from: &mut Fields<'_>) -> Result<In, InFault>
    ensures { TakesInput opnum result from.old from.new }
{
    match opnum {
        0 => Ok(In::OpenCluster),
        1 => of::close_cluster(from),
        3 => Ok(In::GetClusterName),
        28 => of::get_root_key(from),
        29 => of::create_key(alloc, from),
        30 => of::open_key(alloc, from),
        31 => of::enum_key(from),
        32 => of::set_value(alloc, from),
        33 => of::delete_value(alloc, from),
        34 => of::query_value(alloc, from),
        35 => of::delete_key(alloc, from),
        36 => of::enum_value(from),
        37 => of::close_key(from),
        38 => of::query_info_key(from),
        _ => Err(InFault::Opnum),
    }
}

fn size_fits(input: &In) -> bool
    ensures { result ≡ size_fits input.now }
{
    match input {
        In::SetValue { bytes, cb_data, .. } => bytes.as_slice().len() == *cb_data as usize,
        In::QueryValue { cb_data, .. } => *cb_data <= MOST_ASKED,
        In::EnumValue { cb_data, .. } => *cb_data <= MOST_ASKED,
        _ => true,
    }
}
