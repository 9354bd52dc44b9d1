//! A call is tried with a crash at each moment, or with each of its disk calls failing.

use crate::call::Call;
use crate::fault::PlayFault;
use crate::log_disk::LogDisk;
use crate::stage::Stage;
use crate::telling::{answer_text, found_text};
use quorum_log::OpenFault;
use std::alloc::Global;

/// No call makes so many calls of the disk.
const MANY: u32 = 64;

/// No call of a row that is tried leaves so many bytes pending.
const MOST_PENDING: usize = 65_536;

/// What a crash leaves of pending bytes.
#[derive(Clone, Copy)]
enum Fill {
    Kept,
    Zeros,
    Ones,
}

/// The disk before a call, the call, and what is found where it isn't made and where it is.
#[derive(Drop)]
struct Sweep {
    alloc: Global,
    image: Vec<u8>,
    held: u32,
    call: Call,
    before: String,
    after: String,
}

pub(crate) fn crashes_row(stage: &mut Stage, text: &str) -> Result<String, PlayFault> {
    let sweep = sweep_of(stage, text)?;
    let calls = sweep.calls()?;
    let mut out = sweep.head()?;
    for fill in [Fill::Kept, Fill::Zeros, Fill::Ones] {
        out.push_str(&sweep.crash_line(fill, calls)?)?;
    }
    Ok(out)
}

pub(crate) fn failures_row(stage: &mut Stage, text: &str) -> Result<String, PlayFault> {
    let sweep = sweep_of(stage, text)?;
    let mut out = sweep.head()?;
    for fill in [Fill::Kept, Fill::Zeros, Fill::Ones] {
        out.push_str(&sweep.failure_line(fill)?)?;
    }
    Ok(out)
}

fn sweep_of(stage: &mut Stage, text: &str) -> Result<Sweep, PlayFault> {
    let alloc = stage.alloc;
    let call = Call::of(alloc, &stage.names, text)?;
    let image = stage.logs.image(alloc)?;
    let held = stage.logs.held();
    let mut untouched = LogDisk::with(alloc, &image, held)?;
    let mut sweep = Sweep {
        alloc,
        image,
        held,
        call,
        before: found_on(alloc, &mut untouched)?,
        after: String::new(alloc),
    };
    if let Some(found) = sweep.left(0, MANY, Fill::Kept)? {
        sweep.after = found;
    }
    Ok(sweep)
}

/// What is found on the disk under the fencing token that it holds.
fn found_on(alloc: Global, logs: &mut LogDisk) -> Result<String, PlayFault> {
    let claim = logs.held();
    let answer = match logs.open(alloc, claim) {
        Ok(found) => found_text(alloc, &found),
        Err(fault) => Err(fault),
    };
    answer_text(alloc, answer)
}

impl Sweep {
    fn head(&self) -> Result<String, PlayFault> {
        let before = self.before.as_str();
        let after = self.after.as_str();
        Ok(format!(in self.alloc; "before: {before}\nafter: {after}\n")?)
    }

    /// The disk at moment 0 of the call.
    fn begin(&self) -> Result<LogDisk, PlayFault> {
        let mut logs = LogDisk::with(self.alloc, &self.image, self.held)?;
        self.call.prepare(self.alloc, &mut logs)?;
        logs.mark();
        Ok(logs)
    }

    /// How many moments the call makes.
    fn calls(&self) -> Result<u32, PlayFault> {
        let mut logs = self.begin()?;
        self.call.make(self.alloc, &mut logs)?;
        Ok(logs.calls())
    }

    /// What is found where the disk call of that number fails, or none for 0, and a crash comes behind so many
    /// moments; None where the call makes fewer.
    fn left(&self, failing: u32, moment: u32, fill: Fill) -> Result<Option<String>, PlayFault> {
        let mut logs = self.begin()?;
        logs.fail_in(failing);
        match self.call.make(self.alloc, &mut logs) {
            Ok(()) if failing == 0 => {}
            Ok(()) => return Ok(None),
            Err(PlayFault::Answered(OpenFault::Failed)) if failing != 0 => {}
            Err(fault) => return Err(fault),
        }
        crash(&mut logs, moment, fill);
        Ok(Some(found_on(self.alloc, &mut logs)?))
    }

    fn crash_line(&self, fill: Fill, calls: u32) -> Result<String, PlayFault> {
        let mut line = String::from_str(self.alloc, fill_name(fill))?;
        for moment in 0..MANY {
            if moment > calls {
                break;
            }
            self.add_cell(&mut line, self.left(0, moment, fill)?)?;
        }
        line.push_str("\n")?;
        Ok(line)
    }

    fn failure_line(&self, fill: Fill) -> Result<String, PlayFault> {
        let mut line = String::from_str(self.alloc, fill_name(fill))?;
        for failing in 1..MANY {
            if !self.add_cell(&mut line, self.left(failing, MANY, fill)?)? {
                break;
            }
        }
        line.push_str("\n")?;
        Ok(line)
    }

    /// Adds what was found, if the call went so far, and tells whether it did.
    fn add_cell(&self, line: &mut String, found: Option<String>) -> Result<bool, PlayFault> {
        let Some(found) = found else {
            return Ok(false);
        };
        line.push_str(" | ")?;
        line.push_str(self.name_of(found.as_str()))?;
        Ok(true)
    }

    fn name_of<'a>(&self, found: &'a str) -> &'a str {
        if found == self.before.as_str() {
            return "before";
        }
        if found == self.after.as_str() {
            return "after";
        }
        found
    }
}

fn crash(logs: &mut LogDisk, moment: u32, fill: Fill) {
    match fill {
        Fill::Kept => logs.crash(moment, &[]),
        Fill::Zeros => logs.crash(moment, &[0; MOST_PENDING]),
        Fill::Ones => logs.crash(moment, &[255; MOST_PENDING]),
    }
}

fn fill_name(fill: Fill) -> &'static str {
    match fill {
        Fill::Kept => "kept",
        Fill::Zeros => "00",
        Fill::Ones => "ff",
    }
}
