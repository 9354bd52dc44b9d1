//! Plays rows of text: each makes a disk in memory, changes it, or recovers the update order from it and adds to it,
//! and what came of the call is printed.
//!
//! | Line | What it does |
//! |---|---|
//! | `# TEXT`, or nothing | is printed as it is |
//! | `let NAME BYTES` | names these bytes |
//! | `disk SIZE` | begins with a new disk of so many zeros, without a claim |
//! | `put PLACE BYTES` | writes to the disk; an order that was recovered is let go |
//! | `claim N` | makes N the fencing token of the disk |
//! | `fail N` | this call of the disk fails, counted from 1 on |
//! | `crash BYTES` | the disk crashes, and what was pending is filled by these bytes; the order is let go |
//! | `bytes PLACE COUNT` | prints bytes of the disk |
//! | `format CLAIM CAP STATE` | makes an empty log |
//! | `recover CLAIM` | recovers the order, and prints `order COUNT cap CAP last PLACE registry SIZE` |
//! | `state` | prints the encoding of the registry behind the last record |
//! | `add RECORD` | adds a record to the order, and its update to the registry |
//! | `checkpoint` | writes a checkpoint |
//!
//! BYTES, STATE and RECORD are words: hex, `HEX*COUNT` for the same COUNT times, or `$NAME`; `00*0` is no byte. A call
//! that is made prints `ok`, or why it is refused; `add` and `checkpoint` name the step that failed, and the order is
//! let go. Any other line ends the program, with its number.
#![tactic(auto)]

mod fault;
mod order;
mod rows;
mod stage;
mod telling;

use row_words::play_lines;
use stage::Stage;
use std::process::ExitCode;

fn main(rt: HostRuntime) -> ExitCode {
    match Stage::new(rt.alloc()) {
        Ok(mut stage) => play_lines(&rt, &mut stage),
        Err(_) => ExitCode::from(2),
    }
}
