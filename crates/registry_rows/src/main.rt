//! Plays rows of text: states are read as registries, whole or in pieces, and what came is printed.
//!
//! | Line | What it does |
//! |---|---|
//! | `# TEXT`, or nothing | is printed as it is |
//! | `let NAME BYTES` | names these bytes |
//! | `state CAP PIECE BYTES` | reads a state in pieces of so many bytes, whole where PIECE is 0 |
//! | `text CAP BYTES` | prints the registry of a state as text |
//! | `batches CAP BYTES` | prints `batch COUNT SIZE` for each batch of updates that the registry comes to: its changes and its bytes |
//! | `updates CAP BYTES` | prints `update HEX` for each of them |
//! | `read CAP COUNT TEXT` | reads a text, in which `/` stands for a line feed and `#` for COUNT bytes of 0 as hex |
//!
//! BYTES are words: hex, `HEX*COUNT` for the same COUNT times, or `$NAME`. A state and a text that is read print the size of
//! the registry, or `bad` with the place of the first field or line at fault. Any other line ends the program, with its
//! number.
#![tactic(auto)]

mod rows;
mod texts;

use row_words::play_lines;
use rows::Stage;
use std::process::ExitCode;

fn main(rt: HostRuntime) -> ExitCode {
    play_lines(&rt, &mut Stage::new(rt.alloc()))
}
