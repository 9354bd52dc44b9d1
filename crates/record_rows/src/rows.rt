//! One row.

use crate::fault::PlayFault;
use crate::stage::Stage;
use crate::telling::answer_line;
use row_words::{RowFault, Rows, bytes_of};
use std::alloc::Global;

impl Rows for Stage {
    fn play(&mut self, line: &str) -> Result<String, RowFault> {
        Ok(play(self, line)?)
    }
}

/// Plays a row, and gives what it prints.
fn play(stage: &mut Stage, line: &str) -> Result<String, PlayFault> {
    let alloc = stage.alloc;
    match line.split_once(' ') {
        None if line == "state" => state_row(stage),
        None if line == "checkpoint" => ok_line(alloc, stage.checkpoint()),
        Some(("format", text)) => format_row(stage, text),
        Some(("recover", claim)) => answer_line(alloc, stage.recover(claim.parse()?)),
        Some(("add", text)) => add_row(stage, text),
        Some(("bytes", text)) => bytes_row(stage, text),
        Some((word, text)) => {
            prepare(stage, word, text)?;
            Ok(String::new(alloc))
        }
        None => Err(PlayFault::Bad),
    }
}

/// The first word, and what is behind it.
fn split(text: &str) -> Result<(&str, &str), PlayFault> {
    text.split_once(' ').ok_or(PlayFault::Bad)
}

fn ok_line(alloc: Global, answer: Result<(), PlayFault>) -> Result<String, PlayFault> {
    match answer {
        Ok(()) => Ok(String::from_str(alloc, "ok\n")?),
        Err(fault) => answer_line(alloc, Err(fault)),
    }
}

fn state_row(stage: &Stage) -> Result<String, PlayFault> {
    let state = hex::encode(stage.alloc, &stage.state()?)?;
    Ok(format!(in stage.alloc; "state {state}\n")?)
}

fn format_row(stage: &mut Stage, text: &str) -> Result<String, PlayFault> {
    let (claim, text) = split(text)?;
    let (cap, text) = split(text)?;
    let state = bytes_of(stage.alloc, &stage.names, text)?;
    let alloc = stage.alloc;
    ok_line(alloc, stage.format(claim.parse()?, cap.parse()?, &state))
}

fn add_row(stage: &mut Stage, text: &str) -> Result<String, PlayFault> {
    let alloc = stage.alloc;
    let record = bytes_of(alloc, &stage.names, text)?;
    ok_line(alloc, stage.add(&record))
}

fn bytes_row(stage: &mut Stage, text: &str) -> Result<String, PlayFault> {
    let alloc = stage.alloc;
    let (place, count) = split(text)?;
    let place = place.parse::<u64>()?;
    let bytes = stage.bytes(place, count.parse()?)?;
    let bytes = hex::encode(alloc, &bytes)?;
    Ok(format!(in alloc; "bytes {place} {bytes}\n")?)
}

/// Plays a row that prints nothing.
fn prepare(stage: &mut Stage, word: &str, text: &str) -> Result<(), PlayFault> {
    match word {
        "disk" => stage.begin(text.parse()?)?,
        "claim" => stage.claim(text.parse()?)?,
        "fail" => stage.fail_in(text.parse()?),
        "let" => let_row(stage, text)?,
        "put" => put_row(stage, text)?,
        "crash" => {
            let bytes = bytes_of(stage.alloc, &stage.names, text)?;
            stage.crash(&bytes);
        }
        _ => return Err(PlayFault::Bad),
    }
    Ok(())
}

fn let_row(stage: &mut Stage, text: &str) -> Result<(), PlayFault> {
    let (name, text) = split(text)?;
    let bytes = bytes_of(stage.alloc, &stage.names, text)?;
    Ok(stage.names.add(name, bytes)?)
}

fn put_row(stage: &mut Stage, text: &str) -> Result<(), PlayFault> {
    let (place, text) = split(text)?;
    let bytes = bytes_of(stage.alloc, &stage.names, text)?;
    stage.put(place.parse()?, &bytes)
}
