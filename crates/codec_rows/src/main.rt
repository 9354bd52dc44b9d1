//! Plays rows of text: names, updates, records, messages and views are read and built, and what came is printed.
//!
//! | Line | What it does |
//! |---|---|
//! | `# TEXT`, or nothing | is printed as it is |
//! | `let NAME BYTES` | names these bytes |
//! | `path TEXT`, `join TEXT TEXT` | prints how many parts the path has, and its parts |
//! | `name TEXT`, `units TEXT` | prints the name, or the units, again |
//! | `same path TEXT TEXT`, `same name ..` | prints `same` or `different` |
//! | `update BYTES`, `record`, `first`, `message` | reads, copies and encodes again; `first` is a record of version 1 |
//! | `created PLACE STAMP NODE INC REQ TEXT` | prints the encoding of a record that creates this subkey of the root |
//! | `piece TOTAL OFFSET BYTES` | the same of a message, a piece of a state from node 1 to node 2 in view 1 |
//! | `view NUMBER NODE.INC ..` | prints the view with its locker, or `refused` |
//! | `incarnation NODE NUMBER NODE.INC ..` | prints the node's incarnation in this view |
//!
//! BYTES are words: hex, `HEX*COUNT` for the same COUNT times, or `$NAME`. TEXT is one word: pieces joined by `+`, each
//! of them characters or `CHARACTERS*COUNT`, with `{HEX}` for any other unit, and `""` for the empty text.
//!
//! Bytes are printed as hex, a run of 32 equal bytes or more as `HEX*COUNT`; what is at fault as `bad` with its place,
//! or with its cause. Any other line ends the program, with its number.
#![tactic(auto)]

mod building;
mod fault;
mod naming;
mod recording;
mod rows;
mod shown;
mod units_of;
mod viewing;
mod words;

use row_words::play_lines;
use rows::Stage;
use std::process::ExitCode;

fn main(rt: HostRuntime) -> ExitCode {
    play_lines(&rt, &mut Stage::new(rt.alloc()))
}
