//! What rows print.

use client_connections::{Finished, Taken};
use cluster_rules::{CloseCause, Effect};
use row_words::RowFault;
use std::alloc::Global;
use update_records::Update;

pub(crate) fn taken_text(alloc: Global, taken: &Taken) -> Result<String, RowFault> {
    let mut text = effects_text(alloc, taken.effects.as_slice())?;
    if let Some(update) = &taken.update {
        let kind = kind_of(update);
        text.push_str(&format!(in alloc; "queued {kind}\n")?)?;
    }
    Ok(text)
}

pub(crate) fn finished_text(alloc: Global, finished: &Finished) -> Result<String, RowFault> {
    let mut text = effect_text(alloc, &finished.effect)?;
    if let Some(conn) = finished.resumes {
        text.push_str(&format!(in alloc; "resumes {conn}\n")?)?;
    }
    Ok(text)
}

/// A line for each effect.
pub(crate) fn effects_text(alloc: Global, effects: &[Effect]) -> Result<String, RowFault> {
    let mut text = String::new(alloc);
    for effect in effects {
        text.push_str(&line_of(alloc, effect)?)?;
    }
    Ok(text)
}

/// A line where there is an effect.
pub(crate) fn effect_text(alloc: Global, effect: &Option<Effect>) -> Result<String, RowFault> {
    match effect {
        Some(effect) => line_of(alloc, effect),
        None => Ok(String::new(alloc)),
    }
}

fn line_of(alloc: Global, effect: &Effect) -> Result<String, RowFault> {
    match effect {
        Effect::Reply { conn, point, bytes } => {
            let point = point_text(alloc, *point)?;
            let bytes = hex::encode(alloc, bytes.as_slice())?;
            Ok(format!(in alloc; "reply {conn}{point} {bytes}\n")?)
        }
        Effect::Closed { conn, cause } => {
            let cause = cause_text(alloc, *cause)?;
            Ok(format!(in alloc; "closed {conn} {cause}\n")?)
        }
        Effect::Batched {
            req,
            point,
            status,
            index,
        } => {
            let point = point_text(alloc, *point)?;
            Ok(format!(in alloc; "batched {req} {status} {index}{point}\n")?)
        }
        // The connections have no such effect.
        _ => Err(RowFault::Bad),
    }
}

fn point_text(alloc: Global, point: Option<u64>) -> Result<String, RowFault> {
    match point {
        Some(point) => Ok(format!(in alloc; " point {point}")?),
        None => Ok(String::new(alloc)),
    }
}

fn cause_text(alloc: Global, cause: CloseCause) -> Result<String, RowFault> {
    let word = match cause {
        CloseCause::Pdu { place } => return Ok(format!(in alloc; "Pdu {place}")?),
        CloseCause::Peer => "Peer",
        CloseCause::Interleaved => "Interleaved",
        CloseCause::StubTooLong => "StubTooLong",
        CloseCause::Backlog => "Backlog",
        CloseCause::Verifier => "Verifier",
        CloseCause::NodeStopped => "NodeStopped",
        CloseCause::Limit => "Limit",
    };
    Ok(String::from_str(alloc, word)?)
}

fn kind_of(update: &Update) -> &'static str {
    match update {
        Update::Create { .. } => "Create",
        Update::SetValue { .. } => "SetValue",
        Update::DeleteValue { .. } => "DeleteValue",
        Update::DeleteKey { .. } => "DeleteKey",
        Update::Batch { .. } => "Batch",
    }
}
