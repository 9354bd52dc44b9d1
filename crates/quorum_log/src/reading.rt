//! Numbers and bytes are read from an image by their place.
ghost use Rattle.std.specs.Prelude.{◌≡◌, ◌+◌, ◌≤◌, ◌<◌, length, IfOk};
ghost use Rattle.std.specs.Str.{bytes_eq};
ghost use Rattle.quorum_log.specs.Layout.{number_at, window, magic, version_of, base_of};

use crate::layout::SECOND_VERSION;
use byteorder::{ByteOrder, LittleEndian};
use std::alloc::{AllocError, Global};
use wire_fields::Octets;

#[tactic(auto, unfolding(crate::specs::Layout::number_at, wire_fields::specs::Numbers::number))]
pub(crate) fn read_u32(image: &[u8], at: u64) -> u32
    requires { at + 4 ≤ length image.now }
    ensures { result ≡ number_at image.now at 4 }
{
    LittleEndian::read_u32(&image[at as usize..])
}

#[tactic(auto, unfolding(crate::specs::Layout::number_at, wire_fields::specs::Numbers::number))]
pub(crate) fn read_u64(image: &[u8], at: u64) -> u64
    requires { at + 8 ≤ length image.now }
    ensures { result ≡ number_at image.now at 8 }
{
    LittleEndian::read_u64(&image[at as usize..])
}

pub(crate) fn has_magic(header: &[u8]) -> bool
    requires { 8 ≤ length header.now }
    ensures { result ≡ bytes_eq (window header.now 1 7) magic }
{
    &header[1..8] == b"MSCSLOG".as_slice()
}

/// Copies the bytes that stand there.
pub(crate) fn copy(alloc: Global, image: &[u8], at: u64, count: u64) -> Result<Octets, AllocError>
    requires { at + count ≤ length image.now }
    ensures { IfOk result (λ bytes. bytes ≡ window image.now at count) }
{
    let bytes = image[at as usize..(at + count) as usize].to_vec(alloc)?;
    Ok(Octets::new(bytes))
}

/// The version that the base field tells.
pub(crate) fn version_in(field: u64) -> u32
    ensures { result ≡ version_of field }
{
    if field < SECOND_VERSION { 1 } else { 2 }
}

/// The base that the base field tells.
pub(crate) fn base_in(field: u64) -> u64
    ensures base { result ≡ base_of field }
    ensures most { result < 9_223_372_036_854_775_808 }
{
    if field < SECOND_VERSION {
        field
    } else {
        field - SECOND_VERSION
    }
}
