//! A disk over a file.
ghost use Rattle.std.specs.Prelude.{◌≡◌, ◌+◌, ◌-◌, ◌<◌, ◌≤◌, ◌^◌, length, min};
ghost use Rattle.std.specs.Io.{ReadsAtMost, WritesAtMost};

use crate::disk::Disk;
use crate::fault::DiskFault;
use std::fs::{Files, OpenFile, OpenOptions};
use std::io;
use std::io::ErrorKind;
use std::marker::Model;
use std::os::unix::fs::FileExt;
use std::path::Path;

/// How often a call is tried that signals interrupt.
const MOST_TRIES: u32 = 1024;

/// The size of every disk over a file.
const SIZE: u64 = 1_099_511_627_776;

/// A disk over a file, which is opened at the first call and made at the first write.
///
/// Each write is one write of the system, and each sync one `fdatasync`. The first sync of the file syncs
/// its folder too, also where an earlier process made the file: that one may have ended before its own.
/// A file that may not be written is opened to be read, and the first write fails. The fencing token is
/// kept in this value alone, so another process isn't fenced.
#[derive(Drop)]
pub struct FileDisk<'a, R: Files> {
    runtime: &'a R,
    path: String,
    file: Option<R::File>,
    folder_synced: bool,
    held: u32,
    faults: u64,
}

impl<'a, R: Files> Model for FileDisk<'a, R> {
    ghost use Rattle.disk_core.specs.Files.{FileState};

    ghost Value = { FileState };

    ghost view = { λ d. record { held = d.held; faults = d.faults } };
}

impl<'a, R: Files> FileDisk<'a, R>
where
    R::File: FileExt,
{
    ghost use Rattle.disk_core.specs.declared.fault.DiskFault.TheVariants.{Failed};
    ghost use Rattle.disk_core.specs.Files.{FileState, FailsAs};

    /// The disk over the file at that path, with no claim. It makes no call of the system.
    pub fn at(runtime: &'a R, path: String) -> FileDisk<'a, R>
        ensures { result ≡ record { held = 0; faults = 0 } }
    {
        FileDisk {
            runtime,
            path,
            file: None,
            folder_synced: false,
            held: 0,
            faults: 0,
        }
    }

    /// The answer to what the system answered, whose failure is counted.
    fn answer(&mut self, done: io::Result<()>) -> Result<(), DiskFault>
        ensures { FailsAs self.old result self.new }
    {
        match done {
            Ok(()) => Ok(()),
            Err(_) => {
                self.faults = self.faults.saturating_add(1);
                Err(DiskFault::Failed)
            }
        }
    }

    /// Opens the file where it is there and isn't open.
    fn open(&mut self) -> Result<(), DiskFault>
        ensures { FailsAs self.old result self.new }
    {
        if self.file.is_some() {
            return Ok(());
        }
        match open_present(self.runtime, self.path.as_str()) {
            Ok(file) => {
                self.file = Some(file);
                Ok(())
            }
            Err(error) if error.kind() == ErrorKind::NotFound => Ok(()),
            Err(error) => self.answer(Err(error)),
        }
    }

    /// Makes the file where it isn't there, and opens it.
    fn make(&mut self) -> Result<(), DiskFault>
        ensures { FailsAs self.old result self.new }
    {
        self.open()?;
        if self.file.is_some() {
            return Ok(());
        }
        match open_file(self.runtime, self.path.as_str(), Access::Make) {
            Ok(file) => {
                self.file = Some(file);
                Ok(())
            }
            Err(error) => self.answer(Err(error)),
        }
    }

    /// Syncs the folder of the file, once.
    fn sync_folder(&mut self) -> Result<(), DiskFault>
        ensures { FailsAs self.old result self.new }
    {
        if self.folder_synced || self.file.is_none() {
            return Ok(());
        }
        match sync_parent(self.runtime, self.path.as_str()) {
            Ok(()) => {
                self.folder_synced = true;
                Ok(())
            }
            Err(error) => self.answer(Err(error)),
        }
    }
}

impl<'a, R: Files> Disk for FileDisk<'a, R>
where
    R::File: FileExt,
{
    ghost use Rattle.disk_core.specs.Files.{file_view};

    ghost view = { file_view };

    ghost use Rattle.std.proofs.Common.{rules};

    ghost whole = { Prim.search rules };

    fn size(&self) -> u64 {
        SIZE
    }

    fn read(&mut self, at: u64, into: &mut [u8]) -> Result<(), DiskFault> {
        self.open()?;
        let done = match &self.file {
            Some(file) => read_all(file, at, into),
            None => {
                into.fill(0);
                Ok(())
            }
        };
        self.answer(done)
    }

    fn write(&mut self, claim: u32, at: u64, bytes: &[u8]) -> Result<(), DiskFault> {
        if claim < self.held {
            return Err(DiskFault::Fenced { held: self.held });
        }
        self.make()?;
        let done = match &self.file {
            Some(file) => write_all(file, at, bytes),
            None => Err(io::Error::from(ErrorKind::NotFound)),
        };
        self.answer(done)
    }

    fn sync(&mut self, claim: u32) -> Result<(), DiskFault> {
        if claim < self.held {
            return Err(DiskFault::Fenced { held: self.held });
        }
        self.open()?;
        let done = match &self.file {
            Some(file) => sync_again(file),
            None => Ok(()),
        };
        self.answer(done)?;
        self.sync_folder()
    }

    fn claim(&mut self, number: u32) -> Result<(), DiskFault> {
        if number < self.held {
            return Err(DiskFault::Fenced { held: self.held });
        }
        self.open()?;
        self.held = number;
        Ok(())
    }
}

/// What a file is opened for.
#[derive(Clone, Copy, PartialEq, Eq)]
enum Access {
    Read,
    Write,
    Make,
}

/// Opens a file that is there, to read alone where it may not be written.
fn open_present<R: Files>(runtime: &R, path: &str) -> io::Result<R::File> {
    match open_file(runtime, path, Access::Write) {
        Err(error) if is_refused(error.kind()) => open_file(runtime, path, Access::Read),
        opened => opened,
    }
}

/// Whether it tells that a file may not be written.
fn is_refused(kind: ErrorKind) -> bool {
    kind == ErrorKind::PermissionDenied || kind == ErrorKind::ReadOnlyFilesystem
}

fn open_file<R: Files>(runtime: &R, path: &str, access: Access) -> io::Result<R::File> {
    let mut options = OpenOptions::new();
    options.read(true).write(access != Access::Read);
    options.create(access == Access::Make);
    options.open(runtime, path)
}

fn sync_parent<R: Files>(runtime: &R, path: &str) -> io::Result<()> {
    let folder = match Path::new(path).parent() {
        Some(parent) if !parent.as_str().is_empty() => parent.as_str(),
        _ => ".",
    };
    let mut options = OpenOptions::new();
    options.read(true);
    options.open(runtime, folder)?.sync_all()
}

/// Reads all bytes; those behind the file's end are 0.
fn read_all<F: FileExt>(file: &F, at: u64, into: &mut [u8]) -> io::Result<()>
    requires { at + length into.old < 2 ^ 64 }
{
    let mut done = 0;
    while done < into.len() {
        let got = read_again(file, &mut into[done..], at + done as u64)?;
        if got == 0 {
            into[done..].fill(0);
            return Ok(());
        }
        done += got;
    }
    Ok(())
}

fn write_all<F: FileExt>(file: &F, at: u64, bytes: &[u8]) -> io::Result<()>
    requires { at + length bytes.now < 2 ^ 64 }
{
    let mut done = 0;
    while done < bytes.len() {
        let put = write_again(file, &bytes[done..], at + done as u64)?;
        if put == 0 {
            return Err(io::Error::from(ErrorKind::WriteZero));
        }
        done += put;
    }
    Ok(())
}

/// Reads, and where a signal interrupts the call reads again.
fn read_again<F: FileExt>(file: &F, into: &mut [u8], at: u64) -> io::Result<usize>
    ensures { ReadsAtMost result into.new }
{
    'tries: for _ in 1..MOST_TRIES {
        match file.read_at(into, at) {
            Err(error) if error.kind() == ErrorKind::Interrupted => {}
            done => return done,
        }
    }
    file.read_at(into, at)
}

/// Writes, and where a signal interrupts the call writes again.
fn write_again<F: FileExt>(file: &F, bytes: &[u8], at: u64) -> io::Result<usize>
    ensures { WritesAtMost result bytes.now }
{
    'tries: for _ in 1..MOST_TRIES {
        match file.write_at(bytes, at) {
            Err(error) if error.kind() == ErrorKind::Interrupted => {}
            done => return done,
        }
    }
    file.write_at(bytes, at)
}

/// Syncs, and where a signal interrupts the call syncs again.
fn sync_again<F: OpenFile>(file: &F) -> io::Result<()> {
    'tries: for _ in 1..MOST_TRIES {
        match file.sync_data() {
            Err(error) if error.kind() == ErrorKind::Interrupted => {}
            done => return done,
        }
    }
    file.sync_data()
}
