//! One row.

use crate::stage::{CAP, Stage};
use crate::telling::{effect_text, effects_text, finished_text, taken_text};
use client_connections::Connections;
use clus_registry::{Outcome, Registry};
use row_words::{RowFault, Rows, bytes_of};

impl Rows for Stage {
    fn play(&mut self, line: &str) -> Result<String, RowFault> {
        play(self, line)
    }
}

/// Plays a row, and gives what it prints.
fn play(stage: &mut Stage, line: &str) -> Result<String, RowFault> {
    let alloc = stage.alloc;
    match line.split_once(' ') {
        None => play_word(stage, line),
        Some(("connect", conn)) => connect_row(stage, conn.parse()?),
        Some(("hear", text)) => hear_row(stage, text),
        Some(("take", conn)) => take_row(stage, conn.parse()?),
        Some(("finish", text)) => finish_row(stage, text),
        Some(("hang_up", conn)) => {
            let effect = stage.connections.hang_up(conn.parse()?);
            effect_text(alloc, &effect)
        }
        Some((word, text)) => {
            prepare(stage, word, text)?;
            Ok(String::new(alloc))
        }
    }
}

fn play_word(stage: &mut Stage, word: &str) -> Result<String, RowFault> {
    let alloc = stage.alloc;
    match word {
        "batch" => {
            let is_open = stage.registry.is_some();
            let effect = stage.connections.batch(is_open)?;
            effect_text(alloc, &effect)
        }
        "stop" => {
            let effects = stage.connections.stop()?;
            effects_text(alloc, effects.as_slice())
        }
        "shut" => {
            stage.registry = None;
            Ok(String::new(alloc))
        }
        _ => Err(RowFault::Bad),
    }
}

/// Plays a row that prints nothing.
fn prepare(stage: &mut Stage, word: &str, text: &str) -> Result<(), RowFault> {
    match word {
        "let" => {
            let (name, text) = text.split_once(' ').ok_or(RowFault::Bad)?;
            let bytes = bytes_of(stage.alloc, &stage.names, text)?;
            stage.names.add(name, bytes)
        }
        "node" => {
            stage.connections = Connections::new(stage.alloc, text.parse()?);
            stage.registry = None;
            Ok(())
        }
        "open" => {
            stage.done = text.parse()?;
            stage.registry = Some(Registry::new(stage.alloc, CAP)?);
            Ok(())
        }
        _ => Err(RowFault::Bad),
    }
}

fn connect_row(stage: &mut Stage, conn: u32) -> Result<String, RowFault> {
    if stage.connections.is_open(conn) {
        return Err(RowFault::Bad);
    }
    let effect = stage.connections.connect(conn)?;
    effect_text(stage.alloc, &effect)
}

fn hear_row(stage: &mut Stage, text: &str) -> Result<String, RowFault> {
    let (conn, text) = text.split_once(' ').ok_or(RowFault::Bad)?;
    let conn = conn.parse::<u32>()?;
    let piece = bytes_of(stage.alloc, &stage.names, text)?;
    let taken = stage
        .connections
        .hear(conn, &piece, stage.registry.as_ref(), stage.done)?;
    taken_text(stage.alloc, &taken)
}

fn take_row(stage: &mut Stage, conn: u32) -> Result<String, RowFault> {
    let taken = stage
        .connections
        .take(conn, stage.registry.as_ref(), stage.done)?;
    taken_text(stage.alloc, &taken)
}

fn finish_row(stage: &mut Stage, text: &str) -> Result<String, RowFault> {
    let (request, text) = text.split_once(' ').ok_or(RowFault::Bad)?;
    let request = request.parse::<u64>()?;
    let finished = match text.split_once(' ') {
        None => stage.connections.finish(request, text.parse()?, None)?,
        Some((place, outcome)) => {
            let outcome = outcome_of(outcome)?;
            stage
                .connections
                .finish(request, place.parse()?, Some(outcome))?
        }
    };
    finished_text(stage.alloc, &finished)
}

fn outcome_of(text: &str) -> Result<Outcome, RowFault> {
    let (status, text) = text.split_once(' ').ok_or(RowFault::Bad)?;
    let (disposition, text) = text.split_once(' ').ok_or(RowFault::Bad)?;
    let (birth, index) = text.split_once(' ').ok_or(RowFault::Bad)?;
    Ok(Outcome {
        status: status.parse()?,
        disposition: disposition.parse()?,
        birth: birth.parse()?,
        index: index.parse()?,
    })
}
