//! The log of the disk with its contents, for the commands that print of it.

ghost use Rattle.std.specs.Prelude.{◌≡◌, ◌≤◌, IfOk, IfErr, IsTrue};
ghost use Rattle.clus_cli.specs.Export.{IsOpened};
ghost use Rattle.clus_cli.specs.Showlog.{Refuses};

use crate::status::Status;
use disk_core::Disk;
use log_contents::{ContentsFault, LogContents, decode_contents};
use quorum_log::{Found, Log, OpenFault};
use std::alloc::Global;

/// The fencing token of a command that runs alone.
const CLAIM: u32 = 1;

/// A log with its contents.
#[derive(Drop)]
pub(crate) struct Opened {
    pub(crate) found: Found,
    pub(crate) contents: LogContents,
}

/// The log of the disk, whose contents decode.
pub(crate) fn open_log<D: Disk>(alloc: Global, disk: &mut D) -> Result<Opened, Status>
    requires disk_size { 64 ≤ (D.view disk.old).size }
    ensures found { IfOk result (λ opened. IsOpened (D.view disk.old) opened (D.view disk.new)) }
    ensures refused { IfErr result (λ status. Refuses (D.view disk.old) status (D.view disk.new)) }
    ensures unchanged { IsTrue (D.view disk.old).tells → (D.view disk.new).current.seen ≡ (D.view disk.old).current.seen }
{
    let (_, found) = Log::open(alloc, disk, CLAIM)?;
    let contents = decode_contents(alloc, &found)?;
    Ok(Opened { found, contents })
}

impl From<OpenFault> for Status {
    ghost use Rattle.clus_cli.specs.Showlog.{open_status};

    ghost from_gives = { λ fault gives. gives ≡ open_status fault };

    fn from(fault: OpenFault) -> Status {
        match fault {
            OpenFault::Failed => Status::DiskFault,
            OpenFault::Fenced { held } => Status::Fenced { held },
            OpenFault::Blank => Status::BadLog { place: 0 },
            OpenFault::BadImage { place } => Status::BadLog { place },
            OpenFault::Memory => Status::NoMemory,
        }
    }
}

impl From<ContentsFault> for Status {
    ghost use Rattle.clus_cli.specs.Showlog.{contents_status};

    ghost from_gives = { λ fault gives. gives ≡ contents_status fault };

    fn from(fault: ContentsFault) -> Status {
        match fault {
            ContentsFault::Bad { place } => Status::BadLog { place },
            ContentsFault::Memory => Status::NoMemory,
        }
    }
}
