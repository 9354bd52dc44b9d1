//! What rows print.

use crate::fault::PlayFault;
use quorum_log::AppendFault;
use record_log::{AddFault, RecordFault};
use std::alloc::Global;

/// What a call answered, as a line.
pub(crate) fn answer_line(
    alloc: Global,
    answer: Result<String, PlayFault>,
) -> Result<String, PlayFault> {
    let text = match answer {
        Err(PlayFault::Refused(fault)) => refusal_text(alloc, fault)?,
        Err(PlayFault::NotAdded(fault)) => not_added_text(alloc, fault)?,
        answer => answer?,
    };
    Ok(format!(in alloc; "{text}\n")?)
}

fn refusal_text(alloc: Global, fault: RecordFault) -> Result<String, PlayFault> {
    match fault {
        RecordFault::Failed => Ok(String::from_str(alloc, "failed")?),
        RecordFault::Fenced { held } => Ok(format!(in alloc; "fenced {held}")?),
        RecordFault::Image { place } => Ok(format!(in alloc; "image {place}")?),
        RecordFault::Memory => Err(PlayFault::Memory),
    }
}

fn not_added_text(alloc: Global, fault: AddFault) -> Result<String, PlayFault> {
    match fault {
        AddFault::Checkpoint(fault) => step_text(alloc, "checkpoint", fault),
        AddFault::Append(fault) => step_text(alloc, "append", fault),
        AddFault::Memory => Err(PlayFault::Memory),
    }
}

fn step_text(alloc: Global, step: &str, fault: AppendFault) -> Result<String, PlayFault> {
    match fault {
        AppendFault::Failed => Ok(format!(in alloc; "{step} failed")?),
        AppendFault::Fenced { held } => Ok(format!(in alloc; "{step} fenced {held}")?),
    }
}
