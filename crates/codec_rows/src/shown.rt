//! Units and bytes as rows print them.

use row_words::RowFault;
use std::alloc::Global;

/// So many equal bytes in a row are written as `HEX*COUNT`.
const LONG_RUN: usize = 32;

/// Plain characters, any other unit as `{HEX}`, and `""` for the empty text.
pub(crate) fn shown_units(alloc: Global, units: &[u16]) -> Result<String, RowFault> {
    let mut text = String::new(alloc);
    if units.is_empty() {
        text.push_str("\"\"")?;
    }
    for unit in units {
        add_unit(alloc, &mut text, *unit)?;
    }
    Ok(text)
}

fn add_unit(alloc: Global, text: &mut String, unit: u16) -> Result<(), RowFault> {
    match u8::try_from(unit) {
        Ok(byte) if is_plain(byte) => text.push(char::from(byte))?,
        _ => text.push_str(&format!(in alloc; "{{{unit:04X}}}")?)?,
    }
    Ok(())
}

fn is_plain(byte: u8) -> bool {
    byte.is_ascii_graphic() && !matches!(byte, b'"' | b'*' | b'+' | b'{')
}

/// Hex, with long runs of one byte between spaces.
pub(crate) fn shown_bytes(alloc: Global, bytes: &[u8]) -> Result<String, RowFault> {
    let mut text = String::new(alloc);
    let mut run = Run { byte: 0, count: 0 };
    for byte in bytes {
        if *byte == run.byte {
            run.count = run.count.saturating_add(1);
        } else {
            run.add_to(alloc, &mut text)?;
            run = Run {
                byte: *byte,
                count: 1,
            };
        }
    }
    run.add_to(alloc, &mut text)?;
    Ok(text)
}

#[derive(Clone, Copy)]
struct Run {
    byte: u8,
    count: usize,
}

impl Run {
    fn add_to(self, alloc: Global, text: &mut String) -> Result<(), RowFault> {
        let byte = self.byte;
        let count = self.count;
        let digits = format!(in alloc; "{byte:02x}")?;
        if LONG_RUN <= count {
            text.push_str(&format!(in alloc; " {digits}*{count} ")?)?;
            return Ok(());
        }
        for _ in 0..count {
            text.push_str(&digits)?;
        }
        Ok(())
    }
}
