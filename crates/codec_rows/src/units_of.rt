//! The UTF-16 units that a word of a row tells.

ghost use Rattle.std.specs.Prelude.{IfOk};
ghost use Rattle.clus_names.specs.Limits.{LacksZero};

use crate::words::split_count;
use clus_names::lacks_zero;
use row_words::RowFault;
use std::alloc::Global;

/// Reads pieces joined by `+`, each plain or `TEXT*COUNT`. None of the units may be 0.
pub(crate) fn units_of(alloc: Global, word: &str) -> Result<Vec<u16>, RowFault>
    ensures { IfOk result (λ units. LacksZero units.items) }
{
    let units = all_units(alloc, word)?;
    if !lacks_zero(&units) {
        return Err(RowFault::Bad);
    }
    Ok(units)
}

fn all_units(alloc: Global, word: &str) -> Result<Vec<u16>, RowFault> {
    let mut units = Vec::new(alloc);
    if word == "\"\"" {
        return Ok(units);
    }
    for piece in word.split('+') {
        add_repeated(alloc, &mut units, piece)?;
    }
    Ok(units)
}

fn add_repeated(alloc: Global, units: &mut Vec<u16>, piece: &str) -> Result<(), RowFault> {
    let (text, count) = split_count(piece)?;
    let once = once(alloc, text)?;
    add_times(units, &once, count)
}

fn add_times(units: &mut Vec<u16>, once: &[u16], count: u16) -> Result<(), RowFault> {
    for _ in 0..count {
        units.extend_from_slice(once)?;
    }
    Ok(())
}

/// Plain characters, and units as `{HEX}`.
fn once(alloc: Global, text: &str) -> Result<Vec<u16>, RowFault> {
    let mut units = Vec::new(alloc);
    let mut pieces = text.split('{');
    if let Some(plain) = pieces.next() {
        add_plain(&mut units, plain)?;
    }
    for piece in pieces {
        let (digits, plain) = piece.split_once('}').ok_or(RowFault::Bad)?;
        units.push(u16::from_str_radix(digits, 16)?)?;
        add_plain(&mut units, plain)?;
    }
    Ok(units)
}

fn add_plain(units: &mut Vec<u16>, text: &str) -> Result<(), RowFault> {
    for unit in text.encode_utf16() {
        units.push(unit)?;
    }
    Ok(())
}
