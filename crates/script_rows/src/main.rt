//! Plays rows of text: each `play` is a run of a script, and what it printed is printed.
//!
//! | Line | What it does |
//! |---|---|
//! | `# TEXT`, or nothing | is printed as it is |
//! | `> TEXT`, or `>` | appends this line to the script |
//! | `long COUNT` | appends a line of so many `#` to the script |
//! | `fail read N`, `write` | this call fails in the next run, counted from 1 |
//! | `play` | runs the script; afterwards script and failures are forgotten |
//! | `drill NUMBER EVENTS` | runs the script that is generated of these |
//!
//! A run prints what was written, as it is, and how it ended: `done`, `bad script: ..` as the program tells it, `too long`,
//! `read fault`, `write fault` or `no memory`. Any other line ends the program, with its number.
#![tactic(auto)]

mod rows;
mod stage;

use row_words::play_lines;
use stage::Stage;
use std::process::ExitCode;

fn main(rt: HostRuntime) -> ExitCode {
    play_lines(&rt, &mut Stage::new(rt.alloc()))
}
