//! One row.

use crate::stage::Stage;
use crate::telling::{effects_text, node_text};
use crate::views::view_in;
use cluster_member::Effects;
use gum_messages::{MessageFault, decode};
use row_words::{RowFault, Rows, bytes_of};
use update_records::{RecordFault, decode_update};

impl Rows for Stage {
    fn play(&mut self, line: &str) -> Result<String, RowFault> {
        play(self, line)
    }
}

/// Plays a row, and gives what it prints.
fn play(stage: &mut Stage, line: &str) -> Result<String, RowFault> {
    let alloc = stage.alloc;
    let (word, text) = line.split_once(' ').unwrap_or((line, ""));
    match word {
        "let" | "claim" | "fail" | "clock" => {
            prepare(stage, word, text)?;
            Ok(String::new(alloc))
        }
        "receive" => receive_row(stage, text),
        "connect" => connect_row(stage, text),
        "read" => read_row(stage, text),
        "show" => node_text(alloc, stage.actor.node()),
        "state" => state_row(stage),
        _ => {
            let effects = act(stage, word, text)?;
            effects_text(alloc, effects.as_slice())
        }
    }
}

/// Plays a row that prints nothing.
fn prepare(stage: &mut Stage, word: &str, text: &str) -> Result<(), RowFault> {
    match word {
        "claim" => stage.actor.claim(text.parse()?),
        "fail" => {
            stage.actor.fail_in(text.parse()?);
            Ok(())
        }
        "clock" => {
            stage.actor.clock(text.parse()?);
            Ok(())
        }
        _ => {
            let (name, text) = text.split_once(' ').ok_or(RowFault::Bad)?;
            let bytes = bytes_of(stage.alloc, &stage.names, text)?;
            stage.names.add(name, bytes)
        }
    }
}

/// Plays a row that may have effects.
fn act(stage: &mut Stage, word: &str, text: &str) -> Result<Effects, RowFault> {
    match word {
        "disk" => stage.actor.renew_disk(stage.alloc, text.parse()?),
        "format" => stage.actor.format(stage.alloc, text.parse()?),
        "put" => put_row(stage, text),
        "crash" => crash_row(stage, text),
        "start" => {
            let (number, inc) = text.split_once(' ').ok_or(RowFault::Bad)?;
            let alloc = stage.alloc;
            stage.actor.start(alloc, number.parse()?, inc.parse()?)
        }
        "install" => {
            let view = view_in(stage.alloc, text)?;
            stage.actor.install(&view)
        }
        "batch" => batch_row(stage, text),
        _ => act_simply(stage, word, text),
    }
}

fn act_simply(stage: &mut Stage, word: &str, text: &str) -> Result<Effects, RowFault> {
    match word {
        "die" => stage.actor.die(),
        "tick" => stage.actor.tick(),
        "checkpoint" => stage.actor.checkpoint(),
        "hang_up" => stage.actor.hang_up(text.parse()?),
        "hear" => {
            let (conn, text) = text.split_once(' ').ok_or(RowFault::Bad)?;
            let piece = bytes_of(stage.alloc, &stage.names, text)?;
            stage.actor.hear(conn.parse()?, &piece)
        }
        _ => Err(RowFault::Bad),
    }
}

fn put_row(stage: &mut Stage, text: &str) -> Result<Effects, RowFault> {
    let (place, text) = text.split_once(' ').ok_or(RowFault::Bad)?;
    let bytes = bytes_of(stage.alloc, &stage.names, text)?;
    stage.actor.put(place.parse()?, &bytes)
}

fn crash_row(stage: &mut Stage, text: &str) -> Result<Effects, RowFault> {
    let (calls, text) = text.split_once(' ').ok_or(RowFault::Bad)?;
    let bytes = bytes_of(stage.alloc, &stage.names, text)?;
    stage.actor.crash(calls.parse()?, &bytes)
}

fn batch_row(stage: &mut Stage, text: &str) -> Result<Effects, RowFault> {
    let bytes = bytes_of(stage.alloc, &stage.names, text)?;
    match decode_update(stage.alloc, &bytes) {
        Ok(update) => stage.actor.batch(update),
        Err(RecordFault::Bad { .. }) => Err(RowFault::Bad),
        Err(RecordFault::Memory) => Err(RowFault::Memory),
    }
}

/// Connections begin, in turn.
fn connect_row(stage: &mut Stage, text: &str) -> Result<String, RowFault> {
    let mut told = String::new(stage.alloc);
    for conn in text.split(' ') {
        let effects = stage.actor.connect(conn.parse()?)?;
        told.push_str(&effects_text(stage.alloc, effects.as_slice())?)?;
    }
    Ok(told)
}

fn receive_row(stage: &mut Stage, text: &str) -> Result<String, RowFault> {
    let alloc = stage.alloc;
    let bytes = bytes_of(alloc, &stage.names, text)?;
    match decode(alloc, &bytes) {
        Ok(message) => {
            let effects = stage.actor.receive(&message)?;
            effects_text(alloc, effects.as_slice())
        }
        Err(MessageFault::Bad { place }) => Ok(format!(in alloc; "bad {place}\n")?),
        Err(MessageFault::Memory) => Err(RowFault::Memory),
    }
}

fn read_row(stage: &mut Stage, text: &str) -> Result<String, RowFault> {
    let alloc = stage.alloc;
    let (place, count) = text.split_once(' ').ok_or(RowFault::Bad)?;
    let bytes = stage.actor.read(alloc, place.parse()?, count.parse()?)?;
    let bytes = hex::encode(alloc, &bytes)?;
    Ok(format!(in alloc; "read {place} {bytes}\n")?)
}

fn state_row(stage: &Stage) -> Result<String, RowFault> {
    let alloc = stage.alloc;
    let Some(registry) = stage.actor.node().registry() else {
        return Ok(format!(in alloc; "state none\n")?);
    };
    let state = hex::encode(alloc, &registry.to_bytes()?)?;
    Ok(format!(in alloc; "state {state}\n")?)
}
