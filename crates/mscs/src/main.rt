//! The program `mscs`: the commands of `clus_cli` over the standard streams, a file and a TCP address.
#![tactic(auto)]

use clus_cli::{Status, run};
use command_words::{Command, command_of};
use disk_core::FileDisk;
use edge_io::{StandardStreams, StdSink, StdSource, TcpDoor};
use std::alloc::AllocError;
use std::process::ExitCode;
use std::{env, io};

/// The file that holds the log, in the folder where the program runs.
const LOG: &str = "quorum.log";

fn main(rt: HostRuntime) -> ExitCode {
    let status = match StandardStreams::keep(&rt) {
        Ok(_streams) => run_command(&rt),
        Err(_) => Status::DiskFault,
    };
    if status != Status::Done {
        tell(&rt, &status);
    }
    ExitCode::from(status.number())
}

/// Runs the command that the program was called with.
fn run_command(rt: &HostRuntime) -> Status {
    match command_words(rt) {
        Ok(words) => run_words(rt, &words),
        Err(status) => status,
    }
}

/// Runs the command over the standard streams, the file of the log and the address that it names.
fn run_words(rt: &HostRuntime, words: &[String]) -> Status {
    let path = match String::from_str(rt.alloc(), LOG) {
        Ok(path) => path,
        Err(AllocError) => return Status::NoMemory,
    };
    let mut input = StdSource::new(rt.stdin());
    let mut output = StdSink::new(rt.stdout());
    let mut disk = FileDisk::at(rt, path);
    let mut door = match door_for(rt, words) {
        Ok(door) => door,
        Err(AllocError) => return Status::NoMemory,
    };
    run(
        rt.alloc(),
        words,
        &mut input,
        &mut output,
        &mut disk,
        &mut door,
    )
}

/// The connections that come to the address of `serve`, or the one to that of `ask`; none where the words
/// are another command.
fn door_for<'a>(
    rt: &'a HostRuntime,
    words: &[String],
) -> Result<TcpDoor<'a, HostRuntime>, AllocError> {
    match command_of(rt.alloc(), words)? {
        Some(Command::Serve { address, count, .. }) => Ok(TcpDoor::at(
            rt,
            String::from_str(rt.alloc(), address)?,
            count.into(),
        )),
        Some(Command::Ask { address }) => {
            Ok(TcpDoor::dial(rt, String::from_str(rt.alloc(), address)?))
        }
        _ => Ok(TcpDoor::at(rt, String::new(rt.alloc()), 0)),
    }
}

/// The words behind the program's name. One that isn't UTF-8 makes them no command.
fn command_words(rt: &HostRuntime) -> Result<Vec<String>, Status> {
    let args = match env::args(rt) {
        Ok(args) => args,
        Err(error) if error.kind() == io::ErrorKind::OutOfMemory => return Err(Status::NoMemory),
        Err(_) => return Err(Status::Usage),
    };
    let mut words = Vec::new(rt.alloc());
    for word in args.skip(1) {
        if words.push(word).is_err() {
            return Err(Status::NoMemory);
        }
    }
    Ok(words)
}

/// Tells the user how the run ended. Where there is no memory for the text, or it can't be written,
/// the exit status tells it alone.
fn tell(rt: &HostRuntime, status: &Status) {
    if let Ok(text) = status.text(rt.alloc()) {
        let _ = eprintln!(rt; "{text}");
    }
}
