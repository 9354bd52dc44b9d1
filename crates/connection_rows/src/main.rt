//! Plays rows of text: each is an event of the connections of a node, and the effects that it has are printed.
//!
//! | Line | What it does |
//! |---|---|
//! | `# TEXT`, or nothing | is printed as it is |
//! | `let NAME BYTES` | names these bytes |
//! | `node NUMBER` | begins a node with this number, which has no connection and isn't open; the first row begins one with number 1 |
//! | `open DONE` | the node is open from here on, with an empty registry of so many records |
//! | `shut` | it isn't open from here on |
//! | `connect CONN` | a connection begins |
//! | `hear CONN BYTES` | a piece of its stream comes |
//! | `take CONN` | it takes items of its stream |
//! | `finish REQUEST PLACE STATUS DISPOSITION BIRTH INDEX` | the first update that waits came to this outcome; it wasn't applied where the line ends behind PLACE |
//! | `batch` | a batch comes |
//! | `hang_up CONN` | the client hangs up |
//! | `stop` | the node stops |
//!
//! BYTES are words: hex, `HEX*COUNT` for the same COUNT times, or `$NAME`. An event prints a line for each effect:
//! `reply CONN BYTES` and `batched REQUEST STATUS INDEX`, with `point N` before BYTES or behind INDEX where there is one,
//! and `closed CONN CAUSE`; behind them `queued` with the kind of an update that is queued, and `resumes CONN` where a
//! connection may take items again. Any other line ends the program, with its number.
#![tactic(auto)]

mod rows;
mod stage;
mod telling;

use row_words::play_lines;
use stage::Stage;
use std::process::ExitCode;

fn main(rt: HostRuntime) -> ExitCode {
    play_lines(&rt, &mut Stage::new(rt.alloc()))
}
