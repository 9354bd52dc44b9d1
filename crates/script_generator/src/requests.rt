//! Requests of a generated script, on the root key of a node.

ghost use Rattle.std.specs.Prelude.{◌≡◌, ◌<◌, ◌^◌, IfOk, string_bytes};
ghost use Rattle.context_handles.specs.Encoding.{id_of};
ghost use Rattle.wire_fields.specs.declared.endian.Endian.TheVariants.{Little};
ghost use Rattle.wire_fields.specs.Numbers.{num};
ghost use Rattle.clusapi_stubs.specs.Requests.{CanAsk};
ghost use Rattle.clusapi_stubs.specs.Outputs.{IsArray};
ghost use Rattle.clusapi_stubs.specs.Inputs.{opnum_of};
ghost use Rattle.script_generator.specs.Lines.{name_of, query, request_line, root_of, setting};

use byteorder::{BigEndian, ByteOrder};
use clus_names::Units;
use clusapi_stubs::{In, write_in};
use ndr_values::WireHandle;
use std::alloc::{AllocError, Global};
use uuid::Uuid;
use wire_fields::{Endian, Octets, Put};

/// The operation number of a request that sets a value, and of one that asks for a value.
const SET_VALUE: u16 = 32;

const QUERY_VALUE: u16 = 34;

/// A value's type: a number of 4 bytes.
const NUMBER: u32 = 4;
/// How many bytes such a value has.
const SIZE: u32 = 4;

/// Sets the value with this digit in its name to the number.
pub(crate) fn set_line(
    alloc: Global,
    conn: u64,
    node: u32,
    digit: u16,
    number: u32,
) -> Result<String, AllocError>
    requires digit { digit < 10 }
    ensures { IfOk result (λ line. string_bytes line ≡ request_line conn (setting node digit number)) }
{
    let input = In::SetValue {
        handle: root_of(node),
        name: name_of(alloc, digit)?,
        kind: NUMBER,
        bytes: number_bytes(alloc, number)?,
        cb_data: SIZE,
    };
    request_line(alloc, conn, SET_VALUE, &input)
}

/// Asks for the value with this digit in its name.
pub(crate) fn query_line(
    alloc: Global,
    conn: u64,
    node: u32,
    digit: u16,
) -> Result<String, AllocError>
    requires digit { digit < 10 }
    ensures { IfOk result (λ line. string_bytes line ≡ request_line conn (query node digit)) }
{
    let input = In::QueryValue {
        handle: root_of(node),
        name: name_of(alloc, digit)?,
        cb_data: SIZE,
    };
    request_line(alloc, conn, QUERY_VALUE, &input)
}

#[tactic(auto, unfolding(crate::specs::Lines::request_line))]
fn request_line(alloc: Global, conn: u64, opnum: u16, input: &In) -> Result<String, AllocError>
    requires asked { CanAsk input.now }
    requires method { opnum ≡ opnum_of input.now }
    ensures { IfOk result (λ line. string_bytes line ≡ request_line conn input.now) }
{
    let stub = hex::encode(alloc, &write_in(alloc, input)?)?;
    format!(in alloc; "request {conn} {opnum} {stub}\n")
}

/// `V` and the digit.
fn name_of(alloc: Global, digit: u16) -> Result<Units, AllocError>
    requires digit { digit < 10 }
    ensures { IfOk result (λ name. name ≡ name_of digit) }
{
    Ok(Units::new(vec![in alloc; u16::from(b'V'), u16::from(b'0') + digit]?))
}

fn number_bytes(alloc: Global, number: u32) -> Result<Octets, AllocError>
    ensures bytes { IfOk result (λ bytes. bytes ≡ num Little 4 number) }
    ensures short { IfOk result IsArray }
{
    let mut put = Put::new(alloc, Endian::Little);
    put.u32(number)?;
    Ok(Octets::new(put.into_bytes()))
}

/// The first handle that the node gives.
fn root_of(node: u32) -> WireHandle
    ensures { result ≡ root_of node }
{
    WireHandle {
        attributes: 0,
        id: first_id(node),
    }
}

#[tactic(auto, unfolding(wire_fields::specs::Numbers::num))]
fn first_id(node: u32) -> Uuid
    ensures { result ≡ id_of node 1 }
{
    let mut id = [0; 16];
    BigEndian::write_u32(&mut id[..4], node);
    BigEndian::write_u64(&mut id[8..], 1);
    Uuid::from_bytes(id)
}
