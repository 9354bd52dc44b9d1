//! One row.

ghost use Rattle.std.specs.Prelude.{◌<◌, ◌≤◌};
ghost use Rattle.registry_defs.specs.Contents.{IsCap};

use crate::texts::{batches_row, read_row, text_row, updates_row};
use clus_registry::{Registry, StateBuild, StateFault};
use row_words::{Names, RowFault, Rows, bytes_of};
use std::alloc::Global;

/// What rows have named so far.
#[derive(Drop)]
pub(crate) struct Stage {
    alloc: Global,
    names: Names,
}

impl Stage {
    pub(crate) fn new(alloc: Global) -> Stage {
        Stage {
            alloc,
            names: Names::new(alloc),
        }
    }
}

impl Rows for Stage {
    fn play(&mut self, line: &str) -> Result<String, RowFault> {
        play(self.alloc, &mut self.names, line)
    }
}

fn play(alloc: Global, names: &mut Names, line: &str) -> Result<String, RowFault> {
    match line.split_once(' ') {
        Some(("let", text)) => let_row(alloc, names, text),
        Some(("state", text)) => state_row(alloc, names, text),
        Some(("text", text)) => text_row(alloc, names, text),
        Some(("batches", text)) => batches_row(alloc, names, text),
        Some(("updates", text)) => updates_row(alloc, names, text),
        Some(("read", text)) => read_row(alloc, text),
        _ => Err(RowFault::Bad),
    }
}

fn let_row(alloc: Global, names: &mut Names, text: &str) -> Result<String, RowFault> {
    let (name, text) = text.split_once(' ').ok_or(RowFault::Bad)?;
    let bytes = bytes_of(alloc, names, text)?;
    names.add(name, bytes)?;
    Ok(String::new(alloc))
}

fn state_row(alloc: Global, names: &Names, text: &str) -> Result<String, RowFault> {
    let (cap, text) = text.split_once(' ').ok_or(RowFault::Bad)?;
    let (piece, text) = text.split_once(' ').ok_or(RowFault::Bad)?;
    let cap = cap.parse::<u32>()?;
    let piece = piece.parse::<u16>()?;
    if cap < 4096 || 16_777_216 < cap {
        return Err(RowFault::Bad);
    }
    let bytes = bytes_of(alloc, names, text)?;
    if piece == 0 {
        return tell(alloc, Registry::from_bytes(alloc, &bytes, cap));
    }
    tell(alloc, in_pieces(alloc, &bytes, cap, usize::from(piece)))
}

fn in_pieces(alloc: Global, bytes: &[u8], cap: u32, count: usize) -> Result<Registry, StateFault>
    requires range { IsCap cap }
    requires some { 0 < count }
{
    let mut build = StateBuild::new(alloc, cap);
    for piece in bytes.chunks(count) {
        build.feed(piece)?;
    }
    build.finish()
}

fn tell(alloc: Global, told: Result<Registry, StateFault>) -> Result<String, RowFault> {
    match told {
        Ok(registry) => {
            let size = registry.size();
            Ok(format!(in alloc; "size {size}\n")?)
        }
        Err(StateFault::Bad { place }) => Ok(format!(in alloc; "bad {place}\n")?),
        Err(StateFault::Memory) => Err(RowFault::Memory),
    }
}
