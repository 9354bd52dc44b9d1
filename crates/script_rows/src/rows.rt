//! One row.

use crate::stage::Stage;
use edge_io::BytesSink;
use row_words::{RowFault, Rows};
use script_player::{Replayed, ScriptFault, drill, replay};
use script_text::{bad_column, bad_event};
use std::alloc::{AllocError, Global};

/// The most rounds of a generated script.
const MOST_ROUNDS: u32 = 100_000;

impl Rows for Stage {
    fn play(&mut self, line: &str) -> Result<String, RowFault> {
        play(self, line)
    }
}

/// Plays a row, and gives what it prints.
fn play(stage: &mut Stage, line: &str) -> Result<String, RowFault> {
    let alloc = stage.alloc;
    match line.split_once(' ') {
        None => play_word(stage, line),
        Some(("drill", numbers)) => drill_row(stage, numbers),
        Some((word, rest)) => {
            prepare(stage, word, rest)?;
            Ok(String::new(alloc))
        }
    }
}

fn play_word(stage: &mut Stage, word: &str) -> Result<String, RowFault> {
    match word {
        "play" => replay_row(stage),
        ">" => {
            stage.add_line("")?;
            Ok(String::new(stage.alloc))
        }
        _ => Err(RowFault::Bad),
    }
}

/// Plays a row that prints nothing.
fn prepare(stage: &mut Stage, word: &str, rest: &str) -> Result<(), RowFault> {
    match word {
        ">" => stage.add_line(rest)?,
        "long" => stage.add_remark(rest.parse()?)?,
        "fail" => fail_row(stage, rest)?,
        _ => return Err(RowFault::Bad),
    }
    Ok(())
}

fn fail_row(stage: &mut Stage, text: &str) -> Result<(), RowFault> {
    let (kind, number) = text.split_once(' ').ok_or(RowFault::Bad)?;
    let number = number.parse::<u32>()?;
    match kind {
        "read" => stage.reads.push(number)?,
        "write" => stage.writes.push(number)?,
        _ => return Err(RowFault::Bad),
    }
    Ok(())
}

fn replay_row(stage: &mut Stage) -> Result<String, RowFault> {
    let mut source = stage.take_source();
    let mut sink = stage.take_sink();
    let replayed = replay(stage.alloc, &mut source, &mut sink);
    tell(stage.alloc, &replayed, &sink)
}

fn drill_row(stage: &mut Stage, text: &str) -> Result<String, RowFault> {
    let (number, count) = text.split_once(' ').ok_or(RowFault::Bad)?;
    let count = count.parse::<u32>()?;
    if MOST_ROUNDS < count {
        return Err(RowFault::Bad);
    }
    let mut sink = stage.take_sink();
    let replayed = drill(stage.alloc, number.parse()?, count, &mut sink);
    tell(stage.alloc, &replayed, &sink)
}

/// What was written, and how the run ended.
fn tell(alloc: Global, replayed: &Replayed, sink: &BytesSink) -> Result<String, RowFault> {
    let mut out = match str::from_utf8(sink.written()) {
        Ok(lines) => String::from_str(alloc, lines)?,
        Err(_) => return Err(RowFault::Bad),
    };
    out.push_str(&ending(alloc, replayed)?)?;
    Ok(out)
}

fn ending(alloc: Global, replayed: &Replayed) -> Result<String, RowFault> {
    let text = match replayed {
        Replayed::Done => String::from_str(alloc, "done")?,
        Replayed::BadScript { line, fault } => bad_script(alloc, *line, fault)?,
        Replayed::ReadFault => String::from_str(alloc, "read fault")?,
        Replayed::WriteFault => String::from_str(alloc, "write fault")?,
        Replayed::NoMemory => return Err(RowFault::Memory),
        Replayed::TooLong => String::from_str(alloc, "too long")?,
    };
    Ok(format!(in alloc; "{text}\n")?)
}

fn bad_script(alloc: Global, line: u32, fault: &ScriptFault) -> Result<String, AllocError> {
    match fault {
        ScriptFault::Column(column) => bad_column(alloc, line, *column),
        ScriptFault::Event(cause) => bad_event(alloc, line, cause),
    }
}
