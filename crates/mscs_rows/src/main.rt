//! Plays rows of text: each `run` is a command of `clus_cli` over an input, an output, a door and a disk in
//! memory, and what came of it is printed.
//!
//! | Line | What it does |
//! |---|---|
//! | `# TEXT`, or nothing | is printed as it is |
//! | `let NAME BYTES` | names these bytes |
//! | `input BYTES` | appends to the input |
//! | `request ID OPNUM BYTES` | appends a request to the input: one fragment of that call id and operation number, on context 0, with these bytes as stub, or none |
//! | `line TEXT` | appends this text and a line feed to the input |
//! | `connection` | what was appended so far is the input of the next connection of the door |
//! | `piece N` | inputs come in pieces of N bytes from here on |
//! | `fail read N`, `write`, `door`, `disk` | this call fails in the next run, counted from 1; of the disk, from this line on |
//! | `run WORD ..` | runs the command; afterwards input, connections and failures are forgotten |
//! | `disk` | the disk is a new one, which holds zeros |
//! | `keep` | the next run is over the disk as it is |
//! | `put PLACE BYTES` | writes to the disk |
//! | `claim N` | makes N the fencing token of the disk |
//! | `bytes PLACE COUNT` | prints bytes of the disk |
//! | `mark` | syncs the disk and counts its calls from here on |
//! | `calls` | prints how many writes, syncs and claims the disk had since then |
//! | `crash N BYTES` | leaves the disk as a crash behind the first N calls does; these bytes, or none, take the place of the first that were pending |
//!
//! A `session` or a `serve` has a new disk, unless one of the lines on the disk stands before it. BYTES are words: hex, `HEX*COUNT` for the same COUNT times, or `$NAME`. In the words of `run` an underscore stands
//! for a space, and `""` for the empty word. A run prints its status with its text; what was written, in hex behind
//! `wrote` or, where the command writes text (`showlog`, `export`, `ask`, `replay`, `drill`), as it is; and what each ended connection was sent, in hex
//! behind `sent`. Each fragment has a line, behind `then` where it isn't the first; what is no whole fragment has one
//! too. Nothing is cut. Any other line ends the program, with its number.
#![tactic(auto)]

mod fragments;
mod rows;
mod running;
mod stage;

use row_words::RowFault;
use rows::play;
use stage::Stage;
use std::io;
use std::process::ExitCode;

fn main(rt: HostRuntime) -> ExitCode {
    match play_all(&rt) {
        Ok(true) => ExitCode::from(0),
        Ok(false) => ExitCode::from(1),
        Err(_) => ExitCode::from(2),
    }
}

/// Whether each line of the input was a row.
fn play_all(rt: &HostRuntime) -> io::Result<bool> {
    let mut stage = Stage::new(rt.alloc())?;
    let mut number = 0u64;
    for line in rt.lines(rt.alloc()) {
        number = number.saturating_add(1);
        match play(&mut stage, line?.as_str()) {
            Ok(text) => print!(rt; "{text}")?,
            Err(RowFault::Memory) => return Err(io::Error::from(io::ErrorKind::OutOfMemory)),
            Err(RowFault::Bad) => {
                println!(rt; "bad line {number}")?;
                return Ok(false);
            }
        }
    }
    Ok(true)
}
