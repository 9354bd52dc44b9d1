//! One row.

use crate::building::{created_row, piece_row};
use crate::naming::{join_row, name_row, path_row, same_row, units_row};
use crate::recording::{first_again, message_again, record_again, tell_again, update_again};
use crate::viewing::{incarnation_row, view_row};
use crate::words::Words;
use row_words::{Names, RowFault, Rows, bytes_of};
use std::alloc::Global;

/// What rows have named so far.
#[derive(Drop)]
pub(crate) struct Stage {
    alloc: Global,
    names: Names,
}

impl Stage {
    pub(crate) fn new(alloc: Global) -> Stage {
        Stage {
            alloc,
            names: Names::new(alloc),
        }
    }
}

impl Rows for Stage {
    fn play(&mut self, line: &str) -> Result<String, RowFault> {
        play(self.alloc, &mut self.names, line)
    }
}

fn play(alloc: Global, names: &mut Names, line: &str) -> Result<String, RowFault> {
    let (row, text) = line.split_once(' ').unwrap_or((line, ""));
    match row {
        "let" => let_row(alloc, names, text),
        "piece" => piece_row(alloc, names, &mut Words::new(text)),
        "record" | "first" | "update" | "message" => bytes_row(alloc, names, row, text),
        _ => words_row(alloc, row, text),
    }
}

fn let_row(alloc: Global, names: &mut Names, text: &str) -> Result<String, RowFault> {
    let (name, text) = text.split_once(' ').ok_or(RowFault::Bad)?;
    let bytes = bytes_of(alloc, names, text)?;
    names.add(name, bytes)?;
    Ok(String::new(alloc))
}

fn bytes_row(alloc: Global, names: &Names, row: &str, text: &str) -> Result<String, RowFault> {
    let bytes = bytes_of(alloc, names, text)?;
    let again = match row {
        "record" => record_again(alloc, &bytes),
        "first" => first_again(alloc, &bytes),
        "update" => update_again(alloc, &bytes),
        _ => message_again(alloc, &bytes),
    };
    tell_again(alloc, again)
}

fn words_row(alloc: Global, row: &str, text: &str) -> Result<String, RowFault> {
    let mut words = Words::new(text);
    let told = match row {
        "created" => created_row(alloc, &mut words)?,
        "path" => path_row(alloc, &mut words)?,
        "join" => join_row(alloc, &mut words)?,
        "name" => name_row(alloc, &mut words)?,
        "units" => units_row(alloc, &mut words)?,
        "same" => same_row(alloc, &mut words)?,
        "view" => view_row(alloc, &mut words)?,
        "incarnation" => incarnation_row(alloc, &mut words)?,
        _ => return Err(RowFault::Bad),
    };
    words.end()?;
    Ok(told)
}
