//! One row.

use crate::fragments::add_request;
use crate::running::run_row;
use crate::stage::Stage;
use disk_core::{CrashDisk, Disk};
use row_words::{RowFault, bytes_of};

/// Plays a row, and gives what it prints.
pub(crate) fn play(stage: &mut Stage, line: &str) -> Result<String, RowFault> {
    let alloc = stage.alloc;
    if line.is_empty() || line.starts_with('#') {
        return Ok(format!(in alloc; "{line}\n")?);
    }
    match line.split_once(' ') {
        None => play_word(stage, line),
        Some(("run", words)) => run_row(stage, Some(words)),
        Some(("bytes", range)) => bytes_row(stage, range),
        Some((word, rest)) => {
            prepare(stage, word, rest)?;
            Ok(String::new(alloc))
        }
    }
}

fn play_word(stage: &mut Stage, word: &str) -> Result<String, RowFault> {
    let alloc = stage.alloc;
    match word {
        "run" => return run_row(stage, None),
        "calls" => {
            let calls = stage.disk.calls();
            return Ok(format!(in alloc; "calls {calls}\n")?);
        }
        "connection" => stage.end_connection()?,
        "disk" => stage.renew_disk()?,
        "keep" => stage.is_kept = true,
        "mark" => stage.mark()?,
        _ => return Err(RowFault::Bad),
    }
    Ok(String::new(alloc))
}

/// Plays a row that prints nothing.
fn prepare(stage: &mut Stage, word: &str, rest: &str) -> Result<(), RowFault> {
    match word {
        "input" => {
            let bytes = bytes_of(stage.alloc, &stage.names, rest)?;
            stage.input.extend_from_slice(&bytes)?;
            Ok(())
        }
        "line" => {
            stage.input.extend_from_slice(rest.as_bytes())?;
            stage.input.push(b'\n')?;
            Ok(())
        }
        "request" => request_row(stage, rest),
        "let" => {
            let (name, text) = rest.split_once(' ').ok_or(RowFault::Bad)?;
            let bytes = bytes_of(stage.alloc, &stage.names, text)?;
            stage.names.add(name, bytes)
        }
        "piece" => stage.set_piece(rest.parse()?),
        "fail" => fail_row(stage, rest),
        "put" => put_row(stage, rest),
        "claim" => claim_row(stage, rest),
        "crash" => crash_row(stage, rest),
        _ => Err(RowFault::Bad),
    }
}

fn request_row(stage: &mut Stage, text: &str) -> Result<(), RowFault> {
    let (id, rest) = text.split_once(' ').ok_or(RowFault::Bad)?;
    let (opnum, stub) = rest.split_once(' ').unwrap_or((rest, ""));
    let stub = bytes_of(stage.alloc, &stage.names, stub)?;
    add_request(&mut stage.input, id.parse()?, opnum.parse()?, &stub)
}

fn fail_row(stage: &mut Stage, text: &str) -> Result<(), RowFault> {
    let (kind, number) = text.split_once(' ').ok_or(RowFault::Bad)?;
    let number = number.parse::<u32>()?;
    match kind {
        "read" => stage.failing.reads.push(number)?,
        "write" => stage.failing.writes.push(number)?,
        "door" => stage.failing.doors.push(number)?,
        "disk" => {
            stage.disk.fail_in(number);
            stage.is_kept = true;
        }
        _ => return Err(RowFault::Bad),
    }
    Ok(())
}

fn put_row(stage: &mut Stage, text: &str) -> Result<(), RowFault> {
    let (place, text) = text.split_once(' ').ok_or(RowFault::Bad)?;
    let bytes = bytes_of(stage.alloc, &stage.names, text)?;
    stage.is_kept = true;
    stage.put(place.parse()?, &bytes)
}

fn claim_row(stage: &mut Stage, text: &str) -> Result<(), RowFault> {
    stage.is_kept = true;
    stage.disk.claim(text.parse()?).map_err(|_| RowFault::Bad)
}

fn crash_row(stage: &mut Stage, text: &str) -> Result<(), RowFault> {
    let (moment, text) = text.split_once(' ').unwrap_or((text, ""));
    let bytes = bytes_of(stage.alloc, &stage.names, text)?;
    stage.is_kept = true;
    stage.disk.crash(moment.parse()?, &bytes);
    Ok(())
}

fn bytes_row(stage: &mut Stage, text: &str) -> Result<String, RowFault> {
    let alloc = stage.alloc;
    let (place, count) = text.split_once(' ').ok_or(RowFault::Bad)?;
    let place = place.parse::<u64>()?;
    let bytes = hex::encode(alloc, &stage.bytes(place, count.parse()?)?)?;
    Ok(format!(in alloc; "bytes {place} {bytes}\n")?)
}
