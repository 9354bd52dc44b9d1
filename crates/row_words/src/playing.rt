//! The lines of a program's input, one by one.

use crate::fault::RowFault;
use std::alloc::Global;
use std::io;
use std::process::ExitCode;

/// What plays rows.
pub trait Rows {
    /// Plays a row, and gives what it prints.
    fn play(&mut self, line: &str) -> Result<String, RowFault>;
}

/// Plays each line of standard input, and prints what it gives. An empty line, and one that begins with `#`, is printed as it is.
///
/// The process is to end with 0 behind the last line; with 1 at one that is no row, whose number is printed; and with 2 where
/// the input can't be read, the output not be written, or memory runs out.
pub fn play_lines<R: Rows>(rt: &HostRuntime, rows: &mut R) -> ExitCode {
    match play_all(rt, rows) {
        Ok(true) => ExitCode::from(0),
        Ok(false) => ExitCode::from(1),
        Err(_) => ExitCode::from(2),
    }
}

/// Whether each line of the input was a row.
fn play_all<R: Rows>(rt: &HostRuntime, rows: &mut R) -> io::Result<bool> {
    let mut number = 0u64;
    for line in rt.lines(rt.alloc()) {
        number = number.saturating_add(1);
        match play_line(rt.alloc(), rows, line?.as_str()) {
            Ok(text) => print!(rt; "{text}")?,
            Err(RowFault::Memory) => return Err(io::Error::from(io::ErrorKind::OutOfMemory)),
            Err(RowFault::Bad) => {
                println!(rt; "bad line {number}")?;
                return Ok(false);
            }
        }
    }
    Ok(true)
}

fn play_line<R: Rows>(alloc: Global, rows: &mut R, line: &str) -> Result<String, RowFault> {
    if line.is_empty() || line.starts_with('#') {
        return Ok(format!(in alloc; "{line}\n")?);
    }
    rows.play(line)
}
