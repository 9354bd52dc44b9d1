//! Encodings that are read, copied and written again.

use crate::fault::ReadFault;
use crate::shown::shown_bytes;
use row_words::RowFault;
use std::alloc::Global;
use update_records::{decode, decode_first, decode_update, encode, encode_update};

pub(crate) fn record_again(alloc: Global, bytes: &[u8]) -> Result<Vec<u8>, ReadFault> {
    let record = decode(alloc, bytes)?.copy(alloc)?;
    Ok(encode(alloc, &record)?)
}

pub(crate) fn first_again(alloc: Global, bytes: &[u8]) -> Result<Vec<u8>, ReadFault> {
    let record = decode_first(alloc, bytes)?;
    Ok(encode(alloc, &record)?)
}

pub(crate) fn update_again(alloc: Global, bytes: &[u8]) -> Result<Vec<u8>, ReadFault> {
    let update = decode_update(alloc, bytes)?.copy(alloc)?;
    Ok(encode_update(alloc, &update)?)
}

pub(crate) fn message_again(alloc: Global, bytes: &[u8]) -> Result<Vec<u8>, ReadFault> {
    let message = gum_messages::decode(alloc, bytes)?.copy(alloc)?;
    Ok(gum_messages::encode(alloc, &message)?)
}

pub(crate) fn tell_again(
    alloc: Global,
    again: Result<Vec<u8>, ReadFault>,
) -> Result<String, RowFault> {
    match again {
        Ok(bytes) => tell_bytes(alloc, &bytes),
        Err(ReadFault::Bad { place }) => Ok(format!(in alloc; "bad {place}\n")?),
        Err(ReadFault::Memory) => Err(RowFault::Memory),
    }
}

pub(crate) fn tell_bytes(alloc: Global, bytes: &[u8]) -> Result<String, RowFault> {
    let text = shown_bytes(alloc, bytes)?;
    let text = text.trim();
    Ok(format!(in alloc; "{text}\n")?)
}
