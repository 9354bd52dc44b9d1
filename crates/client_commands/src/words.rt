//! The words of a command, by what they say.

ghost use Rattle.std.specs.Prelude.{◌≡◌, ◌≤◌, ◌*◌, length, All, IfOk, IfSome};
ghost use Rattle.std.specs.Char.{is_ascii_digit};
ghost use Rattle.std.specs.List.{list_all};
ghost use Rattle.clus_names.specs.Limits.{IsNameUnit, LacksZero};
ghost use Rattle.client_commands.specs.Lines.{Gives, at_column};
ghost use Rattle.client_commands.specs.Words.{IsNameText, data_of, has_no_leading_zero, is_decimal, is_short, name_of, number_of, short};

use crate::command_fault::CommandFault;
use clus_names::{Units, UnitsFault, read_units};
use hex::FromHexError;
use std::alloc::{AllocError, Global};
use std::str::from_utf8;
use wire_fields::Octets;

const MOST_UNITS: usize = 4096;

/// The units of a path or of a value's name.
pub(crate) fn read_name(alloc: Global, word: &[u8], column: u32) -> Result<Units, CommandFault>
    ensures name { Gives (λ units. units) result (at_column column (name_of word.now)) }
    ensures fits { IfOk result IsNameText }
{
    match name(alloc, word)? {
        Some(units) => Ok(units),
        None => Err(CommandFault::Column(column)),
    }
}

/// The units whose text the word is, where there are no more than a name may have.
fn name(alloc: Global, word: &[u8]) -> Result<Option<Units>, AllocError>
    ensures name { IfOk result (λ units. units ≡ name_of word.now) }
    ensures fits { IfOk result (λ units. IfSome units IsNameText) }
{
    match read_units(alloc, word) {
        Ok(units) => Ok(short(units)),
        Err(UnitsFault::Bad { .. }) => Ok(None),
        Err(UnitsFault::Memory) => Err(AllocError),
    }
}

fn short(units: Vec<u16>) -> Option<Units>
    requires { LacksZero units.items }
    ensures short { result ≡ short units.items }
    ensures units { All IsNameUnit units.items }
{
    if !is_short(&units) {
        return None;
    }
    Some(Units::new(units))
}

/// Whether a name may have so many units.
fn is_short(units: &[u16]) -> bool
    requires { LacksZero units.now }
    ensures short { result ≡ is_short units.now }
    ensures units { All IsNameUnit units.now }
{
    units.len() <= MOST_UNITS
}

pub(crate) fn read_number(word: &[u8], column: u32) -> Result<u32, CommandFault>
    ensures { Gives (λ number. number) result (at_column column (number_of word.now)) }
{
    match number(word) {
        Some(number) => Ok(number),
        None => Err(CommandFault::Column(column)),
    }
}

fn number(word: &[u8]) -> Option<u32>
    ensures { result ≡ number_of word.now }
{
    if !is_decimal(word) {
        return None;
    }
    match from_utf8(word) {
        Ok(text) => text.parse().ok(),
        Err(_) => None,
    }
}

fn is_decimal(word: &[u8]) -> bool
    ensures { result ≡ is_decimal word.now }
{
    are_digits(word) && has_no_leading_zero(word)
}

fn are_digits(word: &[u8]) -> bool
    ensures { result ≡ list_all is_ascii_digit word.now }
{
    word.iter().all(|byte| byte.is_ascii_digit())
}

/// A zero stands first only where it stands alone.
fn has_no_leading_zero(word: &[u8]) -> bool
    ensures { result ≡ has_no_leading_zero word.now }
{
    match word {
        [] => false,
        [_] => true,
        [first, ..] => *first > b'0',
    }
}

/// The bytes that pairs of hexadecimal digits tell, or none.
#[tactic(auto, unfolding(crate::specs::Words::data_of))]
pub(crate) fn read_data(alloc: Global, word: &[u8], column: u32) -> Result<Octets, CommandFault>
    ensures data { Gives (λ bytes. bytes) result (at_column column (data_of word.now)) }
    ensures short { IfOk result (λ bytes. 2 * length bytes ≤ length word.now) }
{
    if word == b"-".as_slice() {
        return Ok(Octets::new(Vec::new(alloc)));
    }
    if word.is_empty() {
        return Err(CommandFault::Column(column));
    }
    match hex::decode(alloc, word) {
        Ok(bytes) => Ok(Octets::new(bytes)),
        Err(FromHexError::OutOfMemory) => Err(CommandFault::Memory),
        Err(_) => Err(CommandFault::Column(column)),
    }
}
