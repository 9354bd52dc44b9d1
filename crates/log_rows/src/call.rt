//! A call that is tried.

use crate::fault::PlayFault;
use crate::log_disk::LogDisk;
use row_words::{Names, bytes_of};
use std::alloc::Global;

#[derive(Drop)]
pub(crate) enum Call {
    Format {
        claim: u32,
        cap: u32,
        state: Vec<u8>,
    },
    /// These bytes are pending where it begins.
    Open {
        claim: u32,
        place: u64,
        pending: Vec<u8>,
    },
    Append {
        record: Vec<u8>,
    },
    Checkpoint {
        state: Vec<u8>,
        last: Vec<u8>,
    },
}

impl Call {
    pub(crate) fn of(alloc: Global, names: &Names, line: &str) -> Result<Call, PlayFault> {
        let (word, text) = split(line)?;
        match word {
            "format" => format_call(alloc, names, text),
            "open" => open_call(alloc, names, text),
            "append" => Ok(Call::Append {
                record: bytes_of(alloc, names, text)?,
            }),
            "checkpoint" => checkpoint_call(alloc, names, text),
            _ => Err(PlayFault::Bad),
        }
    }

    /// Makes the disk ready for the call.
    pub(crate) fn prepare(&self, alloc: Global, logs: &mut LogDisk) -> Result<(), PlayFault> {
        match self {
            Call::Format { .. } => Ok(()),
            Call::Open { place, pending, .. } => logs.put(*place, pending),
            Call::Append { .. } | Call::Checkpoint { .. } => {
                let claim = logs.held();
                drop(logs.open(alloc, claim)?);
                Ok(())
            }
        }
    }

    pub(crate) fn make(&self, alloc: Global, logs: &mut LogDisk) -> Result<(), PlayFault> {
        match self {
            Call::Format { claim, cap, state } => logs.format(*claim, *cap, state),
            Call::Open { claim, .. } => {
                drop(logs.open(alloc, *claim)?);
                Ok(())
            }
            Call::Append { record } => logs.append(record),
            Call::Checkpoint { state, last } => logs.checkpoint(state, last),
        }
    }
}

/// The first word, and what is behind it.
pub(crate) fn split(text: &str) -> Result<(&str, &str), PlayFault> {
    text.split_once(' ').ok_or(PlayFault::Bad)
}

fn format_call(alloc: Global, names: &Names, text: &str) -> Result<Call, PlayFault> {
    let (claim, text) = split(text)?;
    let (cap, text) = split(text)?;
    Ok(Call::Format {
        claim: claim.parse()?,
        cap: cap.parse()?,
        state: bytes_of(alloc, names, text)?,
    })
}

fn open_call(alloc: Global, names: &Names, text: &str) -> Result<Call, PlayFault> {
    let (claim, text) = split(text)?;
    let (place, text) = split(text)?;
    Ok(Call::Open {
        claim: claim.parse()?,
        place: place.parse()?,
        pending: bytes_of(alloc, names, text)?,
    })
}

fn checkpoint_call(alloc: Global, names: &Names, text: &str) -> Result<Call, PlayFault> {
    let (state, last) = text.split_once(" | ").ok_or(PlayFault::Bad)?;
    Ok(Call::Checkpoint {
        state: bytes_of(alloc, names, state)?,
        last: bytes_of(alloc, names, last)?,
    })
}
