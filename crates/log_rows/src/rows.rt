//! One row.

use crate::call::{Call, split};
use crate::contents_rows::{contents_row, found_of};
use crate::fault::PlayFault;
use crate::log_disk::LogDisk;
use crate::stage::Stage;
use crate::sweep::{crashes_row, failures_row};
use crate::telling::{answer_text, found_text};
use quorum_log::image_size;
use row_words::{RowFault, Rows, bytes_of};
use std::alloc::Global;

impl Rows for Stage {
    fn play(&mut self, line: &str) -> Result<String, RowFault> {
        Ok(play(self, line)?)
    }
}

/// Plays a row, and gives what it prints.
fn play(stage: &mut Stage, line: &str) -> Result<String, PlayFault> {
    let alloc = stage.alloc;
    match line.split_once(' ') {
        None => play_word(stage, line),
        Some(("format" | "append" | "checkpoint", _)) => call_row(stage, line),
        Some(("open", claim)) => open_row(stage, claim),
        Some(("crashes", call)) => crashes_row(stage, call),
        Some(("failures", call)) => failures_row(stage, call),
        Some((word, rest)) => play_simple(stage, word, rest),
    }
}

fn play_word(stage: &Stage, word: &str) -> Result<String, PlayFault> {
    let alloc = stage.alloc;
    match word {
        "contents" => contents_row(stage),
        "calls" => tell_number(alloc, "calls", u64::from(stage.logs.calls())),
        "version" => tell_number(alloc, "version", u64::from(stage.logs.version()?)),
        _ => Err(PlayFault::Bad),
    }
}

fn tell_number(alloc: Global, word: &str, number: u64) -> Result<String, PlayFault> {
    Ok(format!(in alloc; "{word} {number}\n")?)
}

/// Plays a row that asks for something, or changes what the next rows find.
fn play_simple(stage: &mut Stage, word: &str, rest: &str) -> Result<String, PlayFault> {
    match word {
        "bytes" => bytes_row(stage, rest),
        "size" => tell_number(stage.alloc, word, image_size(rest.parse()?)),
        "fits" => fits_row(stage, rest.parse()?),
        _ => {
            prepare(stage, word, rest)?;
            Ok(String::new(stage.alloc))
        }
    }
}

fn bytes_row(stage: &mut Stage, text: &str) -> Result<String, PlayFault> {
    let alloc = stage.alloc;
    let (place, count) = split(text)?;
    let place = place.parse::<u64>()?;
    let bytes = stage.logs.bytes(alloc, place, count.parse()?)?;
    let bytes = hex::encode(alloc, &bytes)?;
    Ok(format!(in alloc; "bytes {place} {bytes}\n")?)
}

fn fits_row(stage: &Stage, length: usize) -> Result<String, PlayFault> {
    let answer = if stage.logs.fits(length)? {
        "yes"
    } else {
        "no"
    };
    Ok(format!(in stage.alloc; "fits {answer}\n")?)
}

/// Plays a row that prints nothing.
fn prepare(stage: &mut Stage, word: &str, rest: &str) -> Result<(), PlayFault> {
    match word {
        "disk" => stage.logs = LogDisk::new(stage.alloc, rest.parse()?)?,
        "claim" => stage.logs.claim(rest.parse()?)?,
        "fail" => stage.logs.fail_in(rest.parse()?),
        "let" => let_row(stage, rest)?,
        "put" => put_row(stage, rest)?,
        "found" => stage.found = Some(found_of(stage.alloc, &stage.names, rest)?),
        _ => return Err(PlayFault::Bad),
    }
    Ok(())
}

fn let_row(stage: &mut Stage, text: &str) -> Result<(), PlayFault> {
    let (name, text) = split(text)?;
    let bytes = bytes_of(stage.alloc, &stage.names, text)?;
    Ok(stage.names.add(name, bytes)?)
}

fn put_row(stage: &mut Stage, text: &str) -> Result<(), PlayFault> {
    let (place, text) = split(text)?;
    let bytes = bytes_of(stage.alloc, &stage.names, text)?;
    stage.logs.put(place.parse()?, &bytes)
}

fn call_row(stage: &mut Stage, line: &str) -> Result<String, PlayFault> {
    let alloc = stage.alloc;
    let call = Call::of(alloc, &stage.names, line)?;
    let answer = match call.make(alloc, &mut stage.logs) {
        Ok(()) => Ok(String::from_str(alloc, "ok")?),
        Err(fault) => Err(fault),
    };
    answer_line(alloc, answer)
}

fn open_row(stage: &mut Stage, text: &str) -> Result<String, PlayFault> {
    let alloc = stage.alloc;
    let answer = match stage.logs.open(alloc, text.parse()?) {
        Ok(found) => {
            let text = found_text(alloc, &found);
            stage.found = Some(found);
            text
        }
        Err(fault) => Err(fault),
    };
    answer_line(alloc, answer)
}

fn answer_line(alloc: Global, answer: Result<String, PlayFault>) -> Result<String, PlayFault> {
    let text = answer_text(alloc, answer)?;
    Ok(format!(in alloc; "{text}\n")?)
}
