ghost use Rattle.std.specs.Prelude.{◌≡◌, ◌<◌, ◌++◌, IfOk};
ghost use Rattle.clus_names.specs.Limits.{LacksZero};
ghost use Rattle.clus_names.specs.UnitTexts.{is_plain, hex_digit, escape, unit_piece, unit_pieces, unit_text};

use std::alloc::{AllocError, Global};

pub const PERCENT: u16 = 0x25;

pub const DOT: u16 = 0x2E;

/// The units as printable ASCII without blanks, which `read_units` reads back.
pub fn print_units(alloc: Global, units: &[u16]) -> Result<Vec<u8>, AllocError>
    requires { LacksZero units.now }
    ensures { IfOk result (λ text. text.items ≡ unit_text units.now) }
{
    let mut text = Vec::new(alloc);
    if units.is_empty() {
        text.push(DOT as u8)?;
        return Ok(text);
    }
    if units == [DOT].as_slice() {
        push_escape(&mut text, DOT)?;
        return Ok(text);
    }
    push_pieces(&mut text, units)?;
    Ok(text)
}

fn push_pieces(text: &mut Vec<u8>, units: &[u16]) -> Result<(), AllocError>
    ensures { IfOk result (λ _. text.new.items ≡ text.old.items ++ unit_pieces units.now) }
{
    'units: for unit in units {
        push_piece(text, *unit)?;
    }
    Ok(())
}

#[tactic(auto, unfolding(crate::specs::UnitTexts::unit_piece))]
fn push_piece(text: &mut Vec<u8>, unit: u16) -> Result<(), AllocError>
    ensures { IfOk result (λ _. text.new.items ≡ text.old.items ++ unit_piece unit) }
{
    if !is_plain(unit) {
        return push_escape(text, unit);
    }
    text.push(unit as u8)?;
    Ok(())
}

#[tactic(auto, unfolding(crate::specs::UnitTexts::escape))]
fn push_escape(text: &mut Vec<u8>, unit: u16) -> Result<(), AllocError>
    ensures { IfOk result (λ _. text.new.items ≡ text.old.items ++ escape unit) }
{
    text.push(PERCENT as u8)?;
    text.push(hex_digit(unit / 4096))?;
    text.push(hex_digit(unit / 256 % 16))?;
    text.push(hex_digit(unit / 16 % 16))?;
    text.push(hex_digit(unit % 16))?;
    Ok(())
}

fn hex_digit(number: u16) -> u8
    requires { number < 16 }
    ensures { result ≡ hex_digit number }
{
    if number < 10 {
        0x30 + number as u8
    } else {
        0x57 + number as u8
    }
}

/// Whether the unit stands for itself.
pub fn is_plain(unit: u16) -> bool
    ensures { result ≡ is_plain unit }
{
    0x21 <= unit && unit <= 0x7E && unit != PERCENT
}
