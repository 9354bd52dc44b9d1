//! Writing values in their canonical encoding.

ghost use Rattle.std.specs.Prelude.{◌≡◌, ◌≢◌, ◌<◌, ◌^◌, ◌+◌, All, OnErr, OnOk, length, take};
ghost use Rattle.std.specs.List.{flat_map};
ghost use Rattle.wire_fields.specs.Numbers.{num};
ghost use Rattle.wire_fields.specs.Written.{Adds};
ghost use Rattle.ndr_values.specs.Spelling.{canonical_bytes, canonical_counts, canonical_handle, canonical_number, canonical_text, canonical_time};
ghost use Rattle.ndr_values.specs.Writing.{Appends};

use crate::handle::WireHandle;
use std::alloc::AllocError;
use wire_fields::Put;

/// A number of 4 bytes.
pub fn write_number(into: &mut Put, number: u32) -> Result<(), AllocError>
    ensures { Adds result into.old into.new (canonical_number into.old.endian (length into.old.bytes) number) }
{
    let start = into.len();
    let written = put_number(into, number);
    whole_or_nothing(into, start, written)
}

/// A time: 8 bytes, sent as two numbers.
pub fn write_time(into: &mut Put, time: u64) -> Result<(), AllocError>
    ensures { Adds result into.old into.new (canonical_time into.old.endian (length into.old.bytes) time) }
{
    let start = into.len();
    let written = put_time(into, time);
    whole_or_nothing(into, start, written)
}

/// A pointer's referent, 0 for null.
pub fn write_pointer(into: &mut Put, referent: u32) -> Result<(), AllocError>
    ensures { Adds result into.old into.new (canonical_number into.old.endian (length into.old.bytes) referent) }
{
    write_number(into, referent)
}

/// A context handle.
pub fn write_handle(into: &mut Put, handle: &WireHandle) -> Result<(), AllocError>
    ensures { Adds result into.old into.new (canonical_handle into.old.endian (length into.old.bytes) handle.now) }
{
    let start = into.len();
    let written = put_handle(into, handle);
    whole_or_nothing(into, start, written)
}

/// A conformant array of bytes.
pub fn write_bytes(into: &mut Put, bytes: &[u8]) -> Result<(), AllocError>
    requires { length bytes.now < 2 ^ 32 }
    ensures { Adds result into.old into.new (canonical_bytes into.old.endian (length into.old.bytes) bytes.now) }
{
    let start = into.len();
    let written = put_bytes(into, bytes);
    whole_or_nothing(into, start, written)
}

/// A conformant varying string, with a unit 0 as its end.
pub fn write_string(into: &mut Put, text: &[u16]) -> Result<(), AllocError>
    requires units { All (λ unit. unit ≢ 0) text.now }
    requires count { length text.now + 1 < 2 ^ 32 }
    ensures { Adds result into.old into.new (canonical_text into.old.endian (length into.old.bytes) text.now) }
{
    let start = into.len();
    let written = put_string(into, text);
    whole_or_nothing(into, start, written)
}

/// Takes back what was appended before memory ran out.
fn whole_or_nothing(
    into: &mut Put,
    start: usize,
    written: Result<(), AllocError>,
) -> Result<(), AllocError>
    ensures same { result ≡ written }
    ensures kept { OnOk result (into.new ≡ into.old) }
    ensures undone { OnErr result (into.new ≡ record { endian = into.old.endian; bytes = take start into.old.bytes }) }
{
    if written.is_err() {
        into.truncate(start);
    }
    written
}

fn put_number(into: &mut Put, number: u32) -> Result<(), AllocError>
    ensures { Appends result into.old into.new (canonical_number into.old.endian (length into.old.bytes) number) }
{
    into.align(4)?;
    into.u32(number)
}

fn put_time(into: &mut Put, time: u64) -> Result<(), AllocError>
    ensures { Appends result into.old into.new (canonical_time into.old.endian (length into.old.bytes) time) }
{
    put_number(into, (time % 0x1_0000_0000) as u32)?;
    into.u32((time / 0x1_0000_0000) as u32)
}

fn put_handle(into: &mut Put, handle: &WireHandle) -> Result<(), AllocError>
    ensures { Appends result into.old into.new (canonical_handle into.old.endian (length into.old.bytes) handle.now) }
{
    put_number(into, handle.attributes)?;
    into.uuid(&handle.id)
}

fn put_bytes(into: &mut Put, bytes: &[u8]) -> Result<(), AllocError>
    requires { length bytes.now < 2 ^ 32 }
    ensures { Appends result into.old into.new (canonical_bytes into.old.endian (length into.old.bytes) bytes.now) }
{
    put_number(into, bytes.len() as u32)?;
    into.bytes(bytes)
}

fn put_string(into: &mut Put, text: &[u16]) -> Result<(), AllocError>
    requires { length text.now + 1 < 2 ^ 32 }
    ensures { Appends result into.old into.new (canonical_text into.old.endian (length into.old.bytes) text.now) }
{
    put_counts(into, text.len() as u32 + 1)?;
    put_units(into, text)?;
    into.u16(0)
}

/// The maximum, the offset and the actual count of a string that is sent whole.
fn put_counts(into: &mut Put, count: u32) -> Result<(), AllocError>
    ensures { Appends result into.old into.new (canonical_counts into.old.endian (length into.old.bytes) count) }
{
    put_number(into, count)?;
    into.u32(0)?;
    into.u32(count)
}

fn put_units(into: &mut Put, text: &[u16]) -> Result<(), AllocError>
    ensures { Appends result into.old into.new (flat_map (num into.old.endian 2) text.now) }
{
    for unit in text {
        into.u16(*unit)?;
    }
    Ok(())
}
