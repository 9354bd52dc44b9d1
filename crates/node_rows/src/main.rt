//! Plays rows of text: each is an event of one node over a disk in memory, and the effects that it has are printed.
//!
//! | Line | What it does |
//! |---|---|
//! | `# TEXT`, or nothing | is printed as it is |
//! | `let NAME BYTES` | names these bytes |
//! | `disk SIZE` | begins with a new disk of so many zeros, without a claim; the node dies before |
//! | `put PLACE BYTES` | writes to the disk under its own claim; the node dies before |
//! | `format CAP` | begins with a new disk that has an empty log of this cap; the node dies before |
//! | `crash CALLS BYTES` | the node dies, and the disk is left as a crash behind so many calls of the last event would have left it, with these bytes in what was pending |
//! | `claim N` | makes N the fencing token of the disk, as another node would |
//! | `fail N` | this call of the disk from here on fails, counted from 1 on |
//! | `read PLACE COUNT` | prints bytes of the disk |
//! | `start NODE INC` | the node dies, and this one begins |
//! | `die` | the node dies |
//! | `install VIEW MEMBERS` | a view with these members was declared, each a word NODE.INC |
//! | `receive MESSAGE` | a message comes; bytes that are no message print `bad PLACE`, with the first field at fault |
//! | `tick`, `checkpoint`, `clock STAMP` | the events of these names |
//! | `connect CONN ..`, `hear CONN BYTES`, `hang_up CONN` | connections begin, one brings a piece of its stream, or ends |
//! | `batch UPDATE` | a batch is handed in |
//! | `show` | prints what the node tells of itself |
//! | `state` | prints the encoding of its registry, where it has one |
//!
//! BYTES, MESSAGE and UPDATE are words: hex, `HEX*COUNT` for the same COUNT times, or `$NAME`; `00*0` is no byte. An
//! event prints a line for each effect: `send KIND NODE MESSAGE`, `opened VIEW`, `acked VIEW PLACE`, `reply CONN BYTES`
//! and `batched REQUEST STATUS INDEX`, with `point N` before BYTES or behind INDEX where there is one, `closed CONN
//! CAUSE`, and `halted CAUSE`. Any other line ends the program, with its number.
#![tactic(auto)]

mod actor;
mod rows;
mod stage;
mod telling;
mod views;

use row_words::play_lines;
use stage::Stage;
use std::process::ExitCode;

fn main(rt: HostRuntime) -> ExitCode {
    match Stage::new(rt.alloc()) {
        Ok(mut stage) => play_lines(&rt, &mut stage),
        Err(_) => ExitCode::from(2),
    }
}
