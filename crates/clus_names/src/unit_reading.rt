ghost use Rattle.std.specs.Prelude.{◌≡◌, ◌<◌, ◌≤◌, ℕ, List, ◌∷◌, [], ◌+◌, ◌↔◌, length, take, All, Some, IfOk, IfErr, IfSome, IsTrue, position};
ghost use Rattle.clus_names.specs.Limits.{LacksZero, IsNameUnit};
ghost use Rattle.clus_names.specs.declared.units_fault.UnitsFault.TheVariants.{Memory};
ghost use Rattle.clus_names.specs.UnitTexts.{percent, dot, escape, unit_piece, unit_pieces, unit_text};
ghost use Rattle.clus_names.specs.UnitFaults.{is_hex_digit, is_other, hex_value, leading_digits, spelled_unit, escape_fault, piece_fault, IsPieceAt, RefusesPieces, RefusesUnits, GivesUnits};

use crate::unit_printing::{DOT, PERCENT, is_plain};
use crate::units_fault::UnitsFault;
use std::alloc::Global;

/// Reads what `print_units` prints, and nothing else.
pub fn read_units(alloc: Global, text: &[u8]) -> Result<Vec<u16>, UnitsFault>
    ensures no_zero { IfOk result (λ units. LacksZero units.items) }
    ensures found { IfOk result (λ units. unit_text units.items ≡ text.now) }
    ensures only { (units : List ℕ) → All IsNameUnit units → unit_text units ≡ text.now → GivesUnits (λ given. given.items) result units }
    ensures fault { IfErr result (RefusesUnits text.now) }
{
    if text.is_empty() {
        return Err(UnitsFault::Bad { place: 0 });
    }
    if is_dot(text) {
        return Ok(Vec::new(alloc));
    }
    if is_escaped_dot(text) {
        return one_dot(alloc);
    }
    read_pieces(alloc, text)
}

/// The text of no units.
fn is_dot(text: &[u8]) -> bool
    ensures { IsTrue result ↔ (text.now ≡ dot ∷ []) }
{
    text == b".".as_slice()
}

#[tactic(auto, unfolding(crate::specs::UnitTexts::escape))]
fn is_escaped_dot(text: &[u8]) -> bool
    ensures { IsTrue result ↔ (text.now ≡ escape dot) }
{
    text == b"%002e".as_slice()
}

fn one_dot(alloc: Global) -> Result<Vec<u16>, UnitsFault>
    ensures found { IfOk result (λ units. units.items ≡ dot ∷ []) }
    ensures fault { IfErr result (λ fault. fault ≡ Memory) }
{
    let mut units = Vec::new(alloc);
    units.push(DOT)?;
    Ok(units)
}

/// Reads units each of which stands for itself or is escaped.
fn read_pieces(alloc: Global, text: &[u8]) -> Result<Vec<u16>, UnitsFault>
    ensures units { IfOk result (λ units. All IsNameUnit units.items) }
    ensures found { IfOk result (λ units. unit_pieces units.items ≡ text.now) }
    ensures fault { IfErr result (RefusesPieces text.now) }
{
    let mut units = Vec::new(alloc);
    let mut place = 0;
    'pieces: while place < text.len() {
        match read_piece(&text[place..]) {
            Ok(piece) => {
                units.push(piece.unit)?;
                place += piece.size;
            }
            Err(offset) => return Err(UnitsFault::Bad {
                place: place + offset,
            }),
        }
    }
    Ok(units)
}

/// A unit, and how many bytes spell it.
#[derive(Clone, Copy)]
struct Piece {
    unit: u16,
    size: usize,
}

/// The piece at the front of a text, or how far in the text it is at fault.
#[tactic(auto, unfolding(crate::specs::UnitFaults::piece_fault))]
fn read_piece(text: &[u8]) -> Result<Piece, usize>
    requires { 0 < length text.now }
    ensures found { IfOk result (λ piece. IsPieceAt text.now piece.unit piece.size) }
    ensures fault { IfErr result (λ offset. piece_fault text.now ≡ Some offset) }
    ensures within { IfErr result (λ offset. offset ≤ length text.now) }
{
    let lead = u16::from(text[0]);
    if is_plain(lead) {
        return Ok(Piece {
            unit: lead,
            size: 1,
        });
    }
    if lead != PERCENT {
        return Err(0);
    }
    let unit = read_escape(front_of(&text[1..]))?;
    Ok(Piece { unit, size: 5 })
}

/// The first four bytes, or all where there are fewer.
fn front_of(bytes: &[u8]) -> &[u8]
    ensures { result.now ≡ take 4 bytes.now }
{
    if bytes.len() < 4 {
        return bytes;
    }
    &bytes[..4]
}

/// The unit that the bytes behind a `%` spell, or how far behind the `%` they are at fault.
#[tactic(auto, unfolding(crate::specs::UnitFaults::escape_fault))]
fn read_escape(digits: &[u8]) -> Result<u16, usize>
    requires { length digits.now ≤ 4 }
    ensures unit { IfOk result IsNameUnit }
    ensures found { IfOk result (λ unit. percent ∷ digits.now ≡ unit_piece unit) }
    ensures fault { IfErr result (λ offset. escape_fault digits.now ≡ Some offset) }
    ensures whole { IfOk result (λ _. length digits.now ≡ 4) }
    ensures within { IfErr result (λ offset. offset ≤ 1 + length digits.now) }
{
    let count = leading_digits(digits);
    if count < 4 {
        return Err(1 + count);
    }
    let unit = spelled_unit(digits);
    if unit == 0 || is_plain(unit) {
        return Err(0);
    }
    Ok(unit)
}

fn leading_digits(bytes: &[u8]) -> usize
    ensures count { result ≡ leading_digits bytes.now }
    ensures within { result ≤ length bytes.now }
{
    match first_other(bytes) {
        Some(place) => place,
        None => bytes.len(),
    }
}

/// The place of the first byte that is no digit.
fn first_other(bytes: &[u8]) -> Option<usize>
    ensures first { result ≡ position is_other bytes.now }
    ensures within { IfSome result (λ place. place < length bytes.now) }
{
    bytes.iter().position(|byte| !is_hex_digit(*byte))
}

fn is_hex_digit(byte: u8) -> bool
    ensures { result ≡ is_hex_digit byte }
{
    (0x30 <= byte && byte <= 0x39) || (0x61 <= byte && byte <= 0x66)
}

fn spelled_unit(digits: &[u8]) -> u16
    requires digits { 4 ≤ leading_digits digits.now }
    requires long { 4 ≤ length digits.now }
    ensures { result ≡ spelled_unit digits.now }
{
    4096 * hex_value(digits[0])
        + 256 * hex_value(digits[1])
        + 16 * hex_value(digits[2])
        + hex_value(digits[3])
}

fn hex_value(digit: u8) -> u16
    requires { IsTrue (is_hex_digit digit) }
    ensures value { result ≡ hex_value digit }
    ensures small { result < 16 }
{
    if digit < 0x60 {
        u16::from(digit - 0x30)
    } else {
        u16::from(digit - 0x57)
    }
}
