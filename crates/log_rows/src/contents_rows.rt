//! The rows `found` and `contents`.

use crate::call::split;
use crate::fault::PlayFault;
use crate::parts::parts_of;
use crate::stage::Stage;
use log_contents::{ContentsFault, LogContents, decode_contents};
use quorum_log::{Found, FoundRecord, FoundRecords};
use row_words::Names;
use std::alloc::Global;
use wire_fields::Octets;

/// Where the state of half 0 begins.
const STATE_AT: u64 = 89;

/// What was found, as a row has it.
pub(crate) fn found_of(alloc: Global, names: &Names, text: &str) -> Result<Found, PlayFault> {
    let (version, text) = split(text)?;
    let (cap, text) = split(text)?;
    let (base, text) = split(text)?;
    let mut found = found_with(alloc, parts_of(alloc, names, text)?)?;
    found.version = version.parse()?;
    found.cap = cap.parse()?;
    found.base = base.parse()?;
    Ok(found)
}

/// What was found in half 0 with this state, last record and records.
fn found_with(alloc: Global, parts: Vec<Vec<u8>>) -> Result<Found, PlayFault> {
    let mut parts = parts.into_iter();
    let (Some(state), Some(last)) = (parts.next(), parts.next()) else {
        return Err(PlayFault::Bad);
    };
    let last_at = STATE_AT.saturating_add(state.len() as u64);
    let mut place = last_at.saturating_add(last.len() as u64);
    let mut records = Vec::new(alloc);
    for bytes in parts {
        let at = place.saturating_add(5);
        place = at.saturating_add(bytes.len() as u64);
        records.push(FoundRecord {
            at,
            bytes: Octets::new(bytes),
        })?;
    }
    Ok(Found {
        version: 2,
        cap: 4096,
        half: 0,
        generation: 1,
        base: 0,
        state_at: STATE_AT,
        state: Octets::new(state),
        last_at,
        last: Octets::new(last),
        records: FoundRecords::new(records),
    })
}

pub(crate) fn contents_row(stage: &Stage) -> Result<String, PlayFault> {
    let alloc = stage.alloc;
    let Some(found) = &stage.found else {
        return Err(PlayFault::Bad);
    };
    match decode_contents(alloc, found) {
        Ok(contents) => contents_text(alloc, &contents),
        Err(ContentsFault::Bad { place }) => Ok(format!(in alloc; "bad {place}\n")?),
        Err(ContentsFault::Memory) => Err(PlayFault::Memory),
    }
}

/// The size of the registry, and the places of the records in the update order.
fn contents_text(alloc: Global, contents: &LogContents) -> Result<String, PlayFault> {
    let size = contents.registry.size();
    let mut text = format!(in alloc; "registry {size} last")?;
    match &contents.last {
        Some(last) => add_place(alloc, &mut text, last.place)?,
        None => text.push_str(" none")?,
    }
    text.push_str(" records")?;
    for record in contents.records.as_slice() {
        add_place(alloc, &mut text, record.place)?;
    }
    text.push_str("\n")?;
    Ok(text)
}

fn add_place(alloc: Global, text: &mut String, place: u64) -> Result<(), PlayFault> {
    text.push_str(&format!(in alloc; " {place}")?)?;
    Ok(())
}
