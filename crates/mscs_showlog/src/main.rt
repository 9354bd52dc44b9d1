//! A stored run of `mscs` on a real file: it makes an empty log in the folder where it runs, and prints it.
#![tactic(auto)]

use clus_cli::{Status, run};
use disk_core::FileDisk;
use edge_io::{ScriptDoor, StandardStreams, StdSink, StdSource};
use std::alloc::AllocError;
use std::process::ExitCode;

/// The file that holds the log.
const LOG: &str = "stored_run.log";

fn main(rt: HostRuntime) -> ExitCode {
    let Ok(_streams) = StandardStreams::keep(&rt) else {
        return ExitCode::from(Status::DiskFault.number());
    };
    let status = match words_of(&rt, &["format", "4096"]) {
        Ok(words) => run_words(&rt, &words),
        Err(AllocError) => Status::NoMemory,
    };
    if status != Status::Done {
        return ExitCode::from(status.number());
    }
    let status = match words_of(&rt, &["showlog"]) {
        Ok(words) => run_words(&rt, &words),
        Err(AllocError) => Status::NoMemory,
    };
    ExitCode::from(status.number())
}

fn words_of(rt: &HostRuntime, texts: &[&str]) -> Result<Vec<String>, AllocError> {
    let mut words = Vec::new(rt.alloc());
    for text in texts {
        words.push(String::from_str(rt.alloc(), text)?)?;
    }
    Ok(words)
}

/// Runs the command over the standard streams, the file and a door without connections.
fn run_words(rt: &HostRuntime, words: &[String]) -> Status {
    let path = match String::from_str(rt.alloc(), LOG) {
        Ok(path) => path,
        Err(AllocError) => return Status::NoMemory,
    };
    let mut input = StdSource::new(rt.stdin());
    let mut output = StdSink::new(rt.stdout());
    let mut disk = FileDisk::at(rt, path);
    let mut door = ScriptDoor::new(rt.alloc(), Vec::new(rt.alloc()), Vec::new(rt.alloc()));
    run(
        rt.alloc(),
        words,
        &mut input,
        &mut output,
        &mut disk,
        &mut door,
    )
}
