//! The rows `text`, `batches`, `updates` and `read`.

use clus_registry::{Registry, StateFault};
use hive_text::{TextFault, batches, print, read};
use row_words::{Names, RowFault, bytes_of};
use std::alloc::Global;
use update_records::{Update, encode_update};

/// The registry as text.
pub(crate) fn text_row(alloc: Global, names: &Names, text: &str) -> Result<String, RowFault> {
    let registry = registry_of(alloc, names, text)?;
    let printed = print(alloc, &registry)?;
    match str::from_utf8(&printed) {
        Ok(lines) => Ok(String::from_str(alloc, lines)?),
        Err(_) => Err(RowFault::Bad),
    }
}

/// How many changes each batch has, and how many bytes.
pub(crate) fn batches_row(alloc: Global, names: &Names, text: &str) -> Result<String, RowFault> {
    let registry = registry_of(alloc, names, text)?;
    let updates = batches(alloc, &registry)?;
    let mut out = String::new(alloc);
    'updates: for update in &updates {
        let count = count_of(update);
        let size = encode_update(alloc, update)?.len();
        out.push_str(&format!(in alloc; "batch {count} {size}\n")?)?;
    }
    Ok(out)
}

/// The bytes of each batch.
pub(crate) fn updates_row(alloc: Global, names: &Names, text: &str) -> Result<String, RowFault> {
    let registry = registry_of(alloc, names, text)?;
    let updates = batches(alloc, &registry)?;
    let mut out = String::new(alloc);
    'updates: for update in &updates {
        let bytes = hex::encode(alloc, encode_update(alloc, update)?)?;
        out.push_str(&format!(in alloc; "update {bytes}\n")?)?;
    }
    Ok(out)
}

fn count_of(update: &Update) -> usize {
    match update {
        Update::Batch { changes } => changes.as_slice().len(),
        _ => 1,
    }
}

/// The registry of a state within the cap.
fn registry_of(alloc: Global, names: &Names, text: &str) -> Result<Registry, RowFault> {
    let (cap, text) = text.split_once(' ').ok_or(RowFault::Bad)?;
    let cap = cap.parse::<u32>()?;
    if cap < 4096 || 16_777_216 < cap {
        return Err(RowFault::Bad);
    }
    let bytes = bytes_of(alloc, names, text)?;
    match Registry::from_bytes(alloc, &bytes, cap) {
        Ok(registry) => Ok(registry),
        Err(StateFault::Bad { .. }) => Err(RowFault::Bad),
        Err(StateFault::Memory) => Err(RowFault::Memory),
    }
}

/// The size of the registry of a text, or the place of the first line at fault.
pub(crate) fn read_row(alloc: Global, text: &str) -> Result<String, RowFault> {
    let (cap, text) = text.split_once(' ').ok_or(RowFault::Bad)?;
    let (count, text) = text.split_once(' ').ok_or(RowFault::Bad)?;
    let cap = cap.parse::<u32>()?;
    let count = count.parse::<u16>()?;
    if cap < 4096 || 16_777_216 < cap {
        return Err(RowFault::Bad);
    }
    match read(alloc, &lines_of(alloc, count, text.as_bytes())?, cap) {
        Ok(registry) => {
            let size = registry.size();
            Ok(format!(in alloc; "size {size}\n")?)
        }
        Err(TextFault::Bad { place }) => Ok(format!(in alloc; "bad {place}\n")?),
        Err(TextFault::Memory) => Err(RowFault::Memory),
    }
}

/// The text with its line feeds, and with so many bytes of 0 where `#` stands.
fn lines_of(alloc: Global, count: u16, text: &[u8]) -> Result<Vec<u8>, RowFault> {
    let mut lines = Vec::new(alloc);
    'bytes: for byte in text {
        match *byte {
            b'/' => lines.push(b'\n')?,
            b'#' => push_zeros(&mut lines, count)?,
            byte => lines.push(byte)?,
        }
    }
    Ok(lines)
}

fn push_zeros(lines: &mut Vec<u8>, count: u16) -> Result<(), RowFault> {
    for _ in 0..count {
        lines.extend_from_slice(b"00")?;
    }
    Ok(())
}
