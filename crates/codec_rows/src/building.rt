//! Values that words of a row tell, and their encodings.

use crate::recording::tell_bytes;
use crate::words::Words;
use clus_names::Path;
use gum_messages::{Body, Message};
use row_words::{Names, RowFault, bytes_of};
use std::alloc::Global;
use update_records::{Record, Update, UpdateId, encode};
use wire_fields::Octets;

const MOST_PIECE_BYTES: usize = 65_535;

const LAST_PLACE: u64 = 9_223_372_036_854_775_807;

/// A record that creates a subkey of the root.
pub(crate) fn created_row(alloc: Global, words: &mut Words<'_>) -> Result<String, RowFault> {
    let place = words.u64()?;
    let stamp = words.u64()?;
    let id = id_of(words)?;
    let subkey = words.path(alloc)?;
    if place == 0 || LAST_PLACE < place {
        return Err(RowFault::Bad);
    }
    let update = Update::Create {
        key: Path::root(alloc),
        birth: 0,
        subkey,
    };
    let record = Record {
        place,
        stamp,
        id,
        update,
    };
    tell_bytes(alloc, &encode(alloc, &record)?)
}

fn id_of(words: &mut Words<'_>) -> Result<UpdateId, RowFault> {
    let node = words.u16()?;
    let inc = words.u64()?;
    let req = words.u64()?;
    Ok(UpdateId { node, inc, req })
}

/// A message from node 1 to node 2 in view 1 that brings a piece of a state.
pub(crate) fn piece_row(
    alloc: Global,
    names: &Names,
    words: &mut Words<'_>,
) -> Result<String, RowFault> {
    let total = words.u32()?;
    let offset = words.u32()?;
    let bytes = bytes_of(alloc, names, words.rest())?;
    if MOST_PIECE_BYTES < bytes.len() {
        return Err(RowFault::Bad);
    }
    let message = Message {
        view: 1,
        from: 1,
        to: 2,
        body: Body::Piece {
            total,
            offset,
            bytes: Octets::new(bytes),
        },
    };
    tell_bytes(alloc, &gum_messages::encode(alloc, &message)?)
}
