//! The bytes that words of a row tell.

use crate::fault::RowFault;
use crate::names::Names;
use std::alloc::Global;

/// Reads words of hex, of `HEX*COUNT` and of `$NAME`.
pub fn bytes_of(alloc: Global, names: &Names, text: &str) -> Result<Vec<u8>, RowFault> {
    let mut bytes = Vec::new(alloc);
    for word in text.split(' ') {
        match word.strip_prefix('$') {
            Some(name) => bytes.extend_from_slice(names.get(name)?)?,
            None => add_repeated(alloc, &mut bytes, word)?,
        }
    }
    Ok(bytes)
}

fn add_repeated(alloc: Global, bytes: &mut Vec<u8>, word: &str) -> Result<(), RowFault> {
    let (unit, count) = match word.split_once('*') {
        Some((unit, count)) => (unit, count.parse::<u32>()?),
        None => (word, 1),
    };
    let unit = hex::decode(alloc, unit)?;
    for _ in 0..count {
        bytes.extend_from_slice(&unit)?;
    }
    Ok(())
}
