//! What rows print.

use crate::fault::PlayFault;
use quorum_log::{Found, OpenFault};
use std::alloc::Global;

/// What a call answered.
pub(crate) fn answer_text(
    alloc: Global,
    answer: Result<String, PlayFault>,
) -> Result<String, PlayFault> {
    match answer {
        Err(PlayFault::Answered(fault)) => fault_text(alloc, fault),
        answer => answer,
    }
}

fn fault_text(alloc: Global, fault: OpenFault) -> Result<String, PlayFault> {
    match fault {
        OpenFault::Failed => Ok(String::from_str(alloc, "failed")?),
        OpenFault::Fenced { held } => Ok(format!(in alloc; "fenced {held}")?),
        OpenFault::Blank => Ok(String::from_str(alloc, "blank")?),
        OpenFault::BadImage { place } => Ok(format!(in alloc; "bad {place}")?),
        OpenFault::Memory => Err(PlayFault::Memory),
    }
}

/// All that was found, in one line.
pub(crate) fn found_text(alloc: Global, found: &Found) -> Result<String, PlayFault> {
    let mut text = fields_text(alloc, found)?;
    add_part(
        alloc,
        &mut text,
        "state",
        found.state_at,
        found.state.as_slice(),
    )?;
    add_part(
        alloc,
        &mut text,
        "last",
        found.last_at,
        found.last.as_slice(),
    )?;
    for record in found.records.as_slice() {
        add_part(
            alloc,
            &mut text,
            "record",
            record.at,
            record.bytes.as_slice(),
        )?;
    }
    Ok(text)
}

fn fields_text(alloc: Global, found: &Found) -> Result<String, PlayFault> {
    let version = found.version;
    let cap = found.cap;
    let half = found.half;
    let generation = found.generation;
    let base = found.base;
    Ok(format!(in alloc;
        "log {version} cap {cap} half {half} generation {generation} base {base}"
    )?)
}

fn add_part(
    alloc: Global,
    text: &mut String,
    name: &str,
    place: u64,
    bytes: &[u8],
) -> Result<(), PlayFault> {
    let bytes = bytes_text(alloc, bytes)?;
    text.push_str(&format!(in alloc; " {name} {place} {bytes}")?)?;
    Ok(())
}

/// The bytes as rows have them.
pub(crate) fn bytes_text(alloc: Global, bytes: &[u8]) -> Result<String, PlayFault> {
    let count = bytes.len();
    match bytes.first() {
        None => Ok(String::from_str(alloc, "none")?),
        Some(first) if count > 4 && bytes.iter().all(|byte| byte == first) => {
            let unit = hex::encode(alloc, [*first])?;
            Ok(format!(in alloc; "{unit}*{count}")?)
        }
        Some(_) => Ok(hex::encode(alloc, bytes)?),
    }
}
