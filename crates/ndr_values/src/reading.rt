//! Reading numbers, pointers, context handles and byte arrays.

ghost use Rattle.std.specs.Prelude.{◌≡◌, ℕ, Bool, List, IfErr, IfOk, Ok};
ghost use Rattle.wire_fields.specs.Reading.{Reading};
ghost use Rattle.wire_fields.specs.Numbers.{IsBytes};
ghost use Rattle.ndr_values.specs.Aligned.{GivesField, aligned, handle_at, word_at};
ghost use Rattle.ndr_values.specs.Reading.{IsFault, Takes, TakesIn, byte_array, handle, number, pointer, time};
ghost use Rattle.ndr_values.specs.Spelling.{Reads, Bytes, Handle, Number, Pointer, Time};
ghost use Rattle.ndr_values.specs.declared.handle.WireHandle.{WireHandle as handles};

use crate::fault::{NdrFault, ReadFault};
use crate::handle::WireHandle;
use std::alloc::Global;
use wire_fields::{Fields, Short};

/// A number of 4 bytes. No memory.
pub fn read_number(from: &mut Fields<'_>) -> Result<u32, NdrFault>
    ensures found { IfOk result (λ value. Reads (Number value) from.old from.new) }
    ensures only { (value : ℕ) (now : Reading) → Reads (Number value) from.old now → Takes (λ x. x) result (Ok (value, now)) from.new }
    ensures fault { IfErr result (λ fault. number from.old ≡ Err fault) }
{
    word(from)
}

/// A time: 8 bytes, sent as two numbers. No memory.
pub fn read_time(from: &mut Fields<'_>) -> Result<u64, NdrFault>
    ensures found { IfOk result (λ value. Reads (Time value) from.old from.new) }
    ensures only { (value : ℕ) (now : Reading) → Reads (Time value) from.old now → Takes (λ x. x) result (Ok (value, now)) from.new }
    ensures fault { IfErr result (λ fault. time from.old ≡ Err fault) }
{
    low_and_high(from)
}

/// Whether the pointer isn't null. Its target follows directly. No memory.
pub fn read_pointer(from: &mut Fields<'_>) -> Result<bool, NdrFault>
    ensures found { IfOk result (λ present. Reads (Pointer present) from.old from.new) }
    ensures only { (present : Bool) (now : Reading) → Reads (Pointer present) from.old now → Takes (λ x. x) result (Ok (present, now)) from.new }
    ensures fault { IfErr result (λ fault. pointer from.old ≡ Err fault) }
{
    present(from)
}

/// A context handle, one field of 20 bytes. No memory.
pub fn read_handle(from: &mut Fields<'_>) -> Result<WireHandle, NdrFault>
    ensures found { IfOk result (λ sent. Reads (Handle sent) from.old from.new) }
    ensures only { (sent : handles) (now : Reading) → Reads (Handle sent) from.old now → Takes (λ x. x) result (Ok (sent, now)) from.new }
    ensures fault { IfErr result (λ fault. handle from.old ≡ Err fault) }
{
    whole_handle(from)
}

/// A conformant array of bytes. An array whose count passes the bytes left is short.
pub fn read_bytes(alloc: Global, from: &mut Fields<'_>) -> Result<Vec<u8>, ReadFault>
    ensures found { IfOk result (λ array. Reads (Bytes array.items) from.old from.new) }
    ensures only { (array : List ℕ) (now : Reading) → Reads (Bytes array) from.old now → TakesIn (λ x. x.items) result (Ok (array, now)) from.new }
    ensures fault { IfErr result (λ fault. IsFault fault (byte_array from.old)) }
{
    bytes(alloc, from)
}

pub(crate) fn word(from: &mut Fields<'_>) -> Result<u32, NdrFault>
    ensures read { Takes (λ x. x) result (number from.old) from.new }
    ensures bytes { IsBytes from.old.left }
{
    let place = from.aligned_place(4);
    aligned_word(from).map_err(|_| NdrFault::Short { place })
}

#[tactic(auto, unfolding(crate::specs::Aligned::word_at))]
fn aligned_word(from: &mut Fields<'_>) -> Result<u32, Short>
    ensures { GivesField result (word_at from.old) from.new }
{
    from.align(4)?;
    from.u32()
}

#[tactic(auto, unfolding(crate::specs::Reading::time))]
fn low_and_high(from: &mut Fields<'_>) -> Result<u64, NdrFault>
    ensures read { Takes (λ x. x) result (time from.old) from.new }
    ensures bytes { IsBytes from.old.left }
{
    let low = word(from)?;
    let place = from.place();
    let high = from.u32().map_err(|_| NdrFault::Short { place })?;
    Ok(u64::from(low) + 0x1_0000_0000 * u64::from(high))
}

#[tactic(auto, unfolding(crate::specs::Reading::pointer))]
fn present(from: &mut Fields<'_>) -> Result<bool, NdrFault>
    ensures read { Takes (λ x. x) result (pointer from.old) from.new }
    ensures bytes { IsBytes from.old.left }
{
    let referent = word(from)?;
    Ok(referent != 0)
}

fn whole_handle(from: &mut Fields<'_>) -> Result<WireHandle, NdrFault>
    ensures read { Takes (λ x. x) result (handle from.old) from.new }
    ensures bytes { IsBytes from.old.left }
{
    let place = from.aligned_place(4);
    aligned_handle(from).map_err(|_| NdrFault::Short { place })
}

#[tactic(auto, unfolding(crate::specs::Aligned::handle_at))]
fn aligned_handle(from: &mut Fields<'_>) -> Result<WireHandle, Short>
    ensures { GivesField result (handle_at from.old) from.new }
{
    from.align(4)?;
    let attributes = from.u32()?;
    let id = from.uuid()?;
    Ok(WireHandle { attributes, id })
}

#[tactic(auto, unfolding(crate::specs::Reading::byte_array))]
fn bytes(alloc: Global, from: &mut Fields<'_>) -> Result<Vec<u8>, ReadFault>
    ensures read { TakesIn (λ x. x.items) result (byte_array from.old) from.new }
    ensures bytes { IsBytes from.old.left }
{
    let count = word(from)?;
    let place = from.place();
    match from.take(count as usize) {
        Ok(array) => Ok(array.to_vec(alloc)?),
        Err(Short) => Err(ReadFault::Ndr(NdrFault::Short { place })),
    }
}
