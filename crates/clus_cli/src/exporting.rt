//! The command `export`: the registry of the disk's log as text.

ghost use Rattle.std.specs.Prelude.{◌≡◌, ◌≤◌, IfOk, IfErr};
ghost use Rattle.causes.specs.Counts.{Rose};
ghost use Rattle.hive_text.specs.HiveText.{hive_text};
ghost use Rattle.log_contents.specs.Contents.{IsContents};
ghost use Rattle.registry_defs.specs.Contents.{keys_in};
ghost use Rattle.clus_cli.specs.Export.{ExportRuns, export_text, logged_keys};
ghost use Rattle.clus_cli.specs.Showlog.{IsPrinted};

use crate::opening::{Opened, open_log};
use crate::status::Status;
use clus_registry::Registry;
use disk_core::Disk;
use edge_io::{Sink, write_whole};
use hive_text::print;
use log_contents::LogContents;
use std::alloc::{AllocError, Global};

/// Opens the log of the disk and prints its registry, once all of the log is decoded.
pub(crate) fn export_log<K: Sink, D: Disk>(alloc: Global, output: &mut K, disk: &mut D) -> Status
    requires disk_size { 64 ≤ (D.view disk.old).size }
    ensures runs { ExportRuns (D.view disk.old) (K.written output.old) result (D.view disk.new) (K.written output.new) }
    ensures cause { result ≡ Status.WriteFault → Rose (K.faults output.old) (K.faults output.new) }
{
    let opened = match open_log(alloc, disk) {
        Ok(opened) => opened,
        Err(status) => return status,
    };
    match print_registry(alloc, output, opened) {
        Ok(()) => Status::Done,
        Err(status) => status,
    }
}

/// Prints the registry behind all records of the log.
fn print_registry<K: Sink>(alloc: Global, output: &mut K, opened: Opened) -> Result<(), Status>
    requires { IsContents opened.found opened.contents }
    ensures prints { IsPrinted (K.written output.old) (export_text opened.found opened.contents) result (K.written output.new) }
    ensures cause { IfErr result (λ status. status ≡ Status.WriteFault → Rose (K.faults output.old) (K.faults output.new)) }
{
    let registry = logged_registry(opened)?;
    let text = print(alloc, &registry)?;
    write_whole(output, &text)?;
    Ok(())
}

/// The registry behind all records of the log.
fn logged_registry(opened: Opened) -> Result<Registry, AllocError>
    requires { IsContents opened.found opened.contents }
    ensures { IfOk result (λ registry. keys_in registry ≡ logged_keys opened.found opened.contents) }
{
    let Opened {
        found: _found,
        contents,
    } = opened;
    let LogContents {
        mut registry,
        last: _last,
        records,
    } = contents;
    'records: for entry in records.as_slice() {
        registry.apply(entry.place, entry.stamp, &entry.update)?;
    }
    Ok(registry)
}
