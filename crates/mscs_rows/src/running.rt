//! The row `run`.

use crate::fragments::first_len;
use crate::stage::{DISK, Stage};
use clus_cli::{Status, run};
use disk_core::{CrashDisk, Disk};
use edge_io::{BytesSink, ScriptDoor};
use row_words::RowFault;
use std::alloc::Global;

/// Runs the command over what the stage has, and tells what came.
pub(crate) fn run_row(stage: &mut Stage, text: Option<&str>) -> Result<String, RowFault> {
    let alloc = stage.alloc;
    let words = words_of(alloc, text)?;
    if !stage.is_kept && is_node(&words) {
        stage.renew_disk()?;
    }
    let mut source = stage.take_source();
    let mut sink = stage.take_sink();
    let mut door = stage.take_door();
    if stage.disk.size() < DISK {
        return Err(RowFault::Bad);
    }
    let status = run(
        alloc,
        &words,
        &mut source,
        &mut sink,
        &mut stage.disk,
        &mut door,
    );
    stage.disk.fail_in(0);
    stage.is_kept = false;
    tell(alloc, &words, &status, &sink, &door)
}

/// Whether the command runs a node over the disk.
fn is_node(words: &[String]) -> bool {
    match words.first() {
        Some(word) => word.as_str() == "session" || word.as_str() == "serve",
        None => false,
    }
}

fn words_of(alloc: Global, text: Option<&str>) -> Result<Vec<String>, RowFault> {
    let mut words = Vec::new(alloc);
    let Some(text) = text else {
        return Ok(words);
    };
    for word in text.split(' ') {
        let word = match word {
            "\"\"" => "",
            _ => word,
        };
        words.push(word.replace(alloc, '_', " ")?)?;
    }
    Ok(words)
}

fn tell(
    alloc: Global,
    words: &[String],
    status: &Status,
    sink: &BytesSink,
    door: &ScriptDoor,
) -> Result<String, RowFault> {
    let mut out = status_line(alloc, status)?;
    match words.first() {
        Some(word) if is_text(word.as_str()) => add_text(&mut out, sink.written())?,
        _ if sink.written().is_empty() => {}
        _ => add_bytes(alloc, &mut out, "wrote", sink.written())?,
    }
    for visit in door.ended() {
        add_bytes(alloc, &mut out, "sent", visit.written())?;
    }
    Ok(out)
}

/// Whether the command writes text.
fn is_text(word: &str) -> bool {
    matches!(word, "showlog" | "export" | "ask" | "replay" | "drill")
}

fn status_line(alloc: Global, status: &Status) -> Result<String, RowFault> {
    let number = status.number();
    let text = status.text(alloc)?;
    if text.is_empty() {
        return Ok(format!(in alloc; "status {number}\n")?);
    }
    Ok(format!(in alloc; "status {number} {text}\n")?)
}

fn add_text(out: &mut String, written: &[u8]) -> Result<(), RowFault> {
    match str::from_utf8(written) {
        Ok(lines) => Ok(out.push_str(lines)?),
        Err(_) => Err(RowFault::Bad),
    }
}

/// A line for each fragment.
fn add_bytes(alloc: Global, out: &mut String, verb: &str, bytes: &[u8]) -> Result<(), RowFault> {
    if bytes.is_empty() {
        out.push_str(&format!(in alloc; "{verb} nothing\n")?)?;
        return Ok(());
    }
    let mut verb = verb;
    let mut rest = bytes;
    'fragments: while !rest.is_empty() {
        let (fragment, behind) = rest.split_at(first_len(rest));
        let text = hex::encode(alloc, fragment)?;
        out.push_str(&format!(in alloc; "{verb} {text}\n")?)?;
        verb = "then";
        rest = behind;
    }
    Ok(())
}
