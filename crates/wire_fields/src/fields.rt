//! A reader over a slice, field by field.

ghost use Rattle.std.specs.Prelude.{◌≡◌, ℕ, ◌+◌, ◌<◌, ◌^◌, ◌⊎◌, length};
ghost use Rattle.wire_fields.specs.Numbers.{IsBytes, uuid_text};
ghost use Rattle.wire_fields.specs.Reading.{Reading, Gives, align_at, bytes_at, gap, number_at, uuid_at};

use crate::endian::Endian;
use byteorder::{BigEndian, ByteOrder, LittleEndian};
use std::marker::Model;
use uuid::Uuid;

/// Too few bytes remain for the field.
#[derive(Clone, Copy, Debug, PartialEq, Eq)]
pub struct Short;

/// Reads a slice from its front; after `Short` the place is unchanged.
pub struct Fields<'a> {
    rest: &'a [u8],
    place: usize,
    endian: Endian,
}

impl<'a> Model for Fields<'a> {
    ghost use Rattle.wire_fields.specs.Reading.{Reading, IsWithinSlice};

    ghost Value = { Reading };

    ghost view = { λ fields. record { endian = fields.endian; place = fields.place; left = fields.rest.now } };

    ghost invariant = { λ fields. IsWithinSlice fields.place fields.rest.now };
}

impl Drop for Fields<'_> {
    fn drop(self) {
        let Fields {
            rest: _,
            place: _,
            endian: _,
        } = self;
    }
}

impl<'a> Fields<'a> {
    pub fn new(bytes: &'a [u8], endian: Endian) -> Fields<'a>
        ensures { result ≡ record { endian = endian; place = 0; left = bytes.now } }
    {
        Fields {
            rest: bytes,
            place: 0,
            endian,
        }
    }

    /// A reader of bytes that stand behind others: so many lie before them.
    pub fn behind(bytes: &'a [u8], endian: Endian, place: usize) -> Fields<'a>
        requires { place + length bytes.now < 2 ^ 63 }
        ensures { result ≡ record { endian = endian; place = place; left = bytes.now } }
    {
        Fields {
            rest: bytes,
            place,
            endian,
        }
    }

    /// How many bytes lie before the next field.
    pub fn place(&self) -> usize
        ensures { result ≡ self.now.place }
    {
        self.place
    }

    /// The place of the next field that is aligned to `to`, also where it lies past the end.
    pub fn aligned_place(&self, to: usize) -> usize
        requires { (to ≡ 1) ⊎ (to ≡ 2) ⊎ (to ≡ 4) ⊎ (to ≡ 8) }
        ensures place { result ≡ self.now.place + gap to self.now.place }
        ensures bytes { IsBytes self.now.left }
    {
        self.place + gap_to(self.place, to)
    }

    /// How many bytes remain.
    pub fn left(&self) -> usize
        ensures { result ≡ length self.now.left }
    {
        self.rest.len()
    }

    pub fn take(&mut self, count: usize) -> Result<&'a [u8], Short>
        ensures { Gives (λ front. front.now) result (bytes_at count self.old) self.old self.new }
    {
        if self.rest.len() < count {
            return Err(Short);
        }
        let (front, rest) = self.rest.split_at(count);
        self.rest = rest;
        self.place += count;
        Ok(front)
    }

    #[tactic(auto, unfolding(crate::specs::Numbers::number))]
    pub fn u8(&mut self) -> Result<u8, Short>
        ensures { Gives (λ value. value) result (number_at 1 self.old) self.old self.new }
    {
        let front = self.take(1)?;
        Ok(front[0])
    }

    #[tactic(auto, unfolding(crate::specs::Numbers::number))]
    pub fn u16(&mut self) -> Result<u16, Short>
        ensures { Gives (λ value. value) result (number_at 2 self.old) self.old self.new }
    {
        let endian = self.endian;
        let front = self.take(2)?;
        Ok(match endian {
            Endian::Little => LittleEndian::read_u16(front),
            Endian::Big => BigEndian::read_u16(front),
        })
    }

    #[tactic(auto, unfolding(crate::specs::Numbers::number))]
    pub fn u32(&mut self) -> Result<u32, Short>
        ensures { Gives (λ value. value) result (number_at 4 self.old) self.old self.new }
    {
        let endian = self.endian;
        let front = self.take(4)?;
        Ok(match endian {
            Endian::Little => LittleEndian::read_u32(front),
            Endian::Big => BigEndian::read_u32(front),
        })
    }

    #[tactic(auto, unfolding(crate::specs::Numbers::number))]
    pub fn u64(&mut self) -> Result<u64, Short>
        ensures { Gives (λ value. value) result (number_at 8 self.old) self.old self.new }
    {
        let endian = self.endian;
        let front = self.take(8)?;
        Ok(match endian {
            Endian::Little => LittleEndian::read_u64(front),
            Endian::Big => BigEndian::read_u64(front),
        })
    }

    /// An identifier: a u32 and two u16 in the byte order, and 8 bytes as they stand
    /// (C706, appendix A).
    pub fn uuid(&mut self) -> Result<Uuid, Short>
        ensures { Gives (λ id. id) result (uuid_at self.old) self.old self.new }
    {
        let endian = self.endian;
        let front = self.take(16)?;
        Ok(identifier(endian, front))
    }

    /// Skips to the next multiple of `to`, counted from the first byte of the slice.
    pub fn align(&mut self, to: usize) -> Result<(), Short>
        requires { (to ≡ 1) ⊎ (to ≡ 2) ⊎ (to ≡ 4) ⊎ (to ≡ 8) }
        ensures { Gives (λ done. done) result (align_at to self.old) self.old self.new }
    {
        let missing = gap_to(self.place, to);
        self.take(missing)?;
        Ok(())
    }
}

#[tactic(auto, unfolding(crate::specs::Numbers::uuid_text))]
fn identifier(endian: Endian, front: &[u8]) -> Uuid
    requires { length front.now ≡ 16 }
    ensures { result ≡ uuid_text endian front.now }
{
    let mut bytes = [0; 16];
    bytes.copy_from_slice(front);
    match endian {
        Endian::Little => Uuid::from_bytes_le(bytes),
        Endian::Big => Uuid::from_bytes(bytes),
    }
}

/// How many bytes are missing at `place` up to a multiple of `to`.
pub(crate) fn gap_to(place: usize, to: usize) -> usize
    requires { (to ≡ 1) ⊎ (to ≡ 2) ⊎ (to ≡ 4) ⊎ (to ≡ 8) }
    ensures gap { result ≡ gap to place }
    ensures small { result < 8 }
{
    let past = place % to;
    if past == 0 { 0 } else { to - past }
}
