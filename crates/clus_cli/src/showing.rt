//! The command `showlog`: the log of the disk as text.

ghost use Rattle.std.specs.Prelude.{◌≡◌, ◌+◌, ◌≤◌, ℕ, length, IfOk, IfErr, string_bytes};
ghost use Rattle.causes.specs.Counts.{Rose};
ghost use Rattle.quorum_log.specs.Layout.{most_records};
ghost use Rattle.clus_cli.specs.Showlog.{IsPrinted, ShowRuns, count_text, form_text, lines_of, log_line, record_line, record_lines};

use crate::opening::open_log;
use crate::status::Status;
use disk_core::Disk;
use edge_io::{Failed, Sink, write_whole};
use quorum_log::{Found, FoundRecord};
use std::alloc::{AllocError, Global};

/// Opens the log of the disk and prints it, once all of it is decoded.
pub(crate) fn show_log<K: Sink, D: Disk>(alloc: Global, output: &mut K, disk: &mut D) -> Status
    requires disk_size { 64 ≤ (D.view disk.old).size }
    ensures runs { ShowRuns (D.view disk.old) (K.written output.old) result (D.view disk.new) (K.written output.new) }
    ensures cause { result ≡ Status.WriteFault → Rose (K.faults output.old) (K.faults output.new) }
{
    let opened = match open_log(alloc, disk) {
        Ok(opened) => opened,
        Err(status) => return status,
    };
    match print_log(alloc, output, &opened.found) {
        Ok(()) => Status::Done,
        Err(status) => status,
    }
}

/// Prints the log, line by line.
fn print_log<K: Sink>(alloc: Global, output: &mut K, found: &Found) -> Result<(), Status>
    requires count { found.now.base + length found.now.records ≤ most_records }
    ensures prints { IsPrinted (K.written output.old) (lines_of found.now) result (K.written output.new) }
    ensures cause { IfErr result (λ status. status ≡ Status.WriteFault → Rose (K.faults output.old) (K.faults output.new)) }
{
    write_whole(output, first_line(alloc, found)?.as_bytes())?;
    print_records(alloc, output, found.base, found.records.as_slice())
}

/// Prints these records, which stand behind so many others.
fn print_records<K: Sink>(
    alloc: Global,
    output: &mut K,
    base: u64,
    records: &[FoundRecord],
) -> Result<(), Status>
    requires count { base + length records.now ≤ most_records }
    ensures prints { IsPrinted (K.written output.old) (record_lines base records.now) result (K.written output.new) }
    ensures later { K.faults output.old ≤ K.faults output.new }
    ensures cause { IfErr result (λ status. status ≡ Status.WriteFault → Rose (K.faults output.old) (K.faults output.new)) }
{
    let mut place = base;
    'records: for record in records {
        place += 1;
        let line = line_of(alloc, place, record.bytes.as_slice())?;
        write_whole(output, line.as_bytes())?;
    }
    Ok(())
}

fn first_line(alloc: Global, found: &Found) -> Result<String, AllocError>
    ensures { IfOk result (λ line. string_bytes line ≡ log_line found.now) }
{
    let mut line = form_of(alloc, found)?;
    line.push_str(counts_of(alloc, found)?.as_str())?;
    Ok(line)
}

#[tactic(auto, unfolding(crate::specs::Showlog::form_text))]
fn form_of(alloc: Global, found: &Found) -> Result<String, AllocError>
    ensures { IfOk result (λ text. string_bytes text ≡ form_text found.now) }
{
    let Found {
        version,
        cap,
        half,
        ..
    } = found;
    format!(in alloc; "log {version} cap {cap} half {half} ")
}

#[tactic(auto, unfolding(crate::specs::Showlog::count_text))]
fn counts_of(alloc: Global, found: &Found) -> Result<String, AllocError>
    ensures { IfOk result (λ text. string_bytes text ≡ count_text found.now) }
{
    let Found {
        generation,
        base,
        records,
        ..
    } = found;
    let count = records.as_slice().len();
    format!(in alloc; "generation {generation} base {base} records {count}\n")
}

#[tactic(auto, unfolding(crate::specs::Showlog::record_line))]
fn line_of(alloc: Global, place: u64, bytes: &[u8]) -> Result<String, AllocError>
    ensures { IfOk result (λ line. string_bytes line ≡ record_line place bytes.now) }
{
    let text = hex::encode(alloc, bytes)?;
    format!(in alloc; "record {place} {text}\n")
}

impl From<AllocError> for Status {
    ghost use Rattle.clus_cli.specs.declared.status.Status.TheVariants.{NoMemory};

    ghost from_gives = { λ _ gives. gives ≡ NoMemory };

    fn from(_: AllocError) -> Status {
        Status::NoMemory
    }
}

impl From<Failed> for Status {
    ghost use Rattle.clus_cli.specs.declared.status.Status.TheVariants.{WriteFault};

    ghost from_gives = { λ _ gives. gives ≡ WriteFault };

    fn from(_: Failed) -> Status {
        Status::WriteFault
    }
}
