//! Plays rows of text: each makes a disk in memory, changes it, or makes a call of the quorum log on it, and what came
//! of the call is printed.
//!
//! | Line | What it does |
//! |---|---|
//! | `# TEXT`, or nothing | is printed as it is |
//! | `let NAME BYTES` | names these bytes |
//! | `disk SIZE` | begins with a new disk of so many zeros, without a claim |
//! | `put PLACE BYTES` | writes to the disk; an open log is let go, and the bytes are pending |
//! | `claim N` | makes N the fencing token of the disk |
//! | `fail N` | this call of the disk fails, counted from 1 on |
//! | `bytes PLACE COUNT` | prints bytes of the disk |
//! | `calls` | prints how many writes, syncs and claims the disk had |
//! | `size CAP` | prints the size of the image of a log with that cap |
//! | `format CLAIM CAP STATE` | makes an empty log |
//! | `open CLAIM` | opens the log, and prints all that is found |
//! | `version`, `fits LENGTH` | asks the open log for its version, and whether a record of that length fits |
//! | `append RECORD` | adds a record to the open log |
//! | `checkpoint STATE \| LAST` | begins the other half of the open log with this state and last record |
//! | `crashes CALL` | tries a crash at each moment of the call, with what was pending kept, all 00 and all ff |
//! | `failures CALL` | tries the call with each of its disk calls failing, and a crash behind it, as above |
//! | `found VERSION CAP BASE STATE \| LAST \| RECORD ..` | what was found is this, in half 0 and of generation 1 |
//! | `contents` | prints what is decoded of that which was found last |
//!
//! BYTES, STATE, LAST and RECORD are words: hex, `HEX*COUNT` for the same COUNT times, or `$NAME`; `00*0` is no byte.
//! CALL is a row `format`, `append` or `checkpoint`, whose log is opened first under the token of the disk, or
//! `open CLAIM PLACE BYTES`, before which these bytes are written and not synced. A call that is made prints `ok`,
//! or why it is refused.
//!
//! `crashes` and `failures` leave the disk as it was. They print what is found where the call isn't made and where it
//! is, and in the three tables what is found behind each crash: behind no call of the disk, behind one, and so on, or
//! behind the failure of the first one, the second one, and so on.
//!
//! Nothing is cut. Any other line ends the program, with its number.
#![tactic(auto)]

mod call;
mod contents_rows;
mod fault;
mod log_disk;
mod parts;
mod rows;
mod stage;
mod sweep;
mod telling;

use row_words::play_lines;
use stage::Stage;
use std::process::ExitCode;

fn main(rt: HostRuntime) -> ExitCode {
    match Stage::new(rt.alloc()) {
        Ok(mut stage) => play_lines(&rt, &mut stage),
        Err(_) => ExitCode::from(2),
    }
}
