//! The words of a line.

ghost use Rattle.std.specs.Prelude.{◌≡◌, ◌≢◌, ◌<◌, ◌≤◌, ◌&&◌, ◌↔◌, length, All, IfOk, IfSome, IsTrue, MatchOption, codes, position};
ghost use Rattle.std.specs.Char.{is_ascii_digit};
ghost use Rattle.std.specs.Fmt.{decimal};
ghost use Rattle.std.specs.List.{list_all};
ghost use Rattle.std.specs.Result.{result_ok};
ghost use Rattle.hex.specs.Hex.{decode_of, encode_lower};
ghost use Rattle.clus_names.specs.Limits.{IsName, IsNameUnit, LacksZero};
ghost use Rattle.clus_names.specs.UnitTexts.{unit_text};
ghost use Rattle.wire_fields.specs.Numbers.{IsBytes};
ghost use Rattle.hive_text.specs.HiveText.{data_text};
ghost use Rattle.hive_text.specs.LineWords.{IsSplit, IsWord64, Lacks, Spells, has_no_leading_zero, is_byte, is_decimal, is_short, short_name};

use clus_names::{Units, UnitsFault, read_units};
use hex::FromHexError;
use std::alloc::{AllocError, Global};
use std::str::from_utf8;
use wire_fields::Octets;

/// How many units the name of a value may have, and no key has more.
const MOST_NAME: usize = 1023;

/// What stands before the first such byte, and what behind it.
pub(crate) fn split_once(text: &[u8], byte: u8) -> Option<(&[u8], &[u8])>
    ensures { MatchOption result (Lacks byte text.now) (λ found. IsSplit byte text.now found.0.now found.1.now) }
{
    match place_of(text, byte) {
        Some(place) => Some((&text[..place], &text[place + 1..])),
        None => None,
    }
}

fn place_of(text: &[u8], byte: u8) -> Option<usize>
    ensures first { result ≡ position (is_byte byte) text.now }
    ensures within { IfSome result (λ place. place < length text.now) }
{
    text.iter().position(|other| *other == byte)
}

/// The units whose text the word is, if a name may have so many.
pub(crate) fn read_name(alloc: Global, word: &[u8]) -> Result<Option<Units>, AllocError>
    ensures { IfOk result (Spells IsName unit_text word.now) }
{
    match read_units(alloc, word) {
        Ok(units) => Ok(short_name(units)),
        Err(UnitsFault::Bad { .. }) => Ok(None),
        Err(UnitsFault::Memory) => Err(AllocError),
    }
}

fn short_name(units: Vec<u16>) -> Option<Units>
    requires { LacksZero units.items }
    ensures short { result ≡ short_name units.items }
    ensures units { All IsNameUnit units.items }
{
    if !is_short(&units) {
        return None;
    }
    Some(Units::new(units))
}

fn is_short(units: &[u16]) -> bool
    requires { LacksZero units.now }
    ensures short { result ≡ is_short units.now }
    ensures units { All IsNameUnit units.now }
{
    units.len() <= MOST_NAME
}

/// A decimal number without a leading zero.
pub(crate) fn read_number(word: &[u8]) -> Option<u64>
    ensures { Spells IsWord64 decimal word.now result }
{
    if !is_decimal(word) {
        return None;
    }
    match from_utf8(word) {
        Ok(text) => text.parse().ok(),
        Err(_) => None,
    }
}

fn is_decimal(word: &[u8]) -> bool
    ensures { result ≡ is_decimal word.now }
{
    are_digits(word) && has_no_leading_zero(word)
}

fn are_digits(word: &[u8]) -> bool
    ensures { result ≡ list_all is_ascii_digit word.now }
{
    word.iter().all(|byte| byte.is_ascii_digit())
}

/// A zero stands first only where it stands alone.
fn has_no_leading_zero(word: &[u8]) -> bool
    ensures { result ≡ has_no_leading_zero word.now }
{
    match word {
        [] => false,
        [_] => true,
        [first, ..] => *first > b'0',
    }
}

/// The bytes that pairs of hexadecimal digits tell, which are lower case; `-` tells none.
pub(crate) fn read_data(alloc: Global, word: &[u8]) -> Result<Option<Octets>, AllocError>
    ensures { IfOk result (Spells IsBytes data_text word.now) }
{
    if is_dash(word) {
        return Ok(Some(Octets::new(Vec::new(alloc))));
    }
    if word.is_empty() {
        return Ok(None);
    }
    match decoded(alloc, word)? {
        Some(bytes) => lower_case(alloc, bytes, word),
        None => Ok(None),
    }
}

fn decoded(alloc: Global, digits: &[u8]) -> Result<Option<Octets>, AllocError>
    ensures { IfOk result (λ bytes. bytes ≡ result_ok (decode_of digits.now)) }
{
    match hex::decode(alloc, digits) {
        Ok(bytes) => Ok(Some(Octets::new(bytes))),
        Err(FromHexError::OutOfMemory) => Err(AllocError),
        Err(_) => Ok(None),
    }
}

fn is_dash(word: &[u8]) -> bool
    ensures { IsTrue result ↔ (word.now ≡ codes "-") }
{
    word == b"-".as_slice()
}

/// The bytes, if their digits in lower case are these.
fn lower_case(alloc: Global, bytes: Octets, digits: &[u8]) -> Result<Option<Octets>, AllocError>
    ensures { IfOk result (λ given. MatchOption given (encode_lower bytes ≢ digits.now) (λ same. (same ≡ bytes) × (encode_lower bytes ≡ digits.now))) }
{
    let printed = hex::encode(alloc, bytes.as_slice())?;
    if printed.as_bytes() != digits {
        return Ok(None);
    }
    Ok(Some(bytes))
}
