//! Parts of a row between bars.

use row_words::{Names, RowFault, bytes_of};
use std::alloc::Global;

/// The bytes of each part.
pub(crate) fn parts_of(alloc: Global, names: &Names, text: &str) -> Result<Vec<Vec<u8>>, RowFault> {
    let mut parts = Vec::new(alloc);
    for part in text.split('|') {
        parts.push(bytes_of(alloc, names, part)?)?;
    }
    Ok(parts)
}
