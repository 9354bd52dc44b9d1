//! A log is opened.
ghost use Rattle.std.specs.Prelude.{◌≡◌, ◌≢◌, ◌+◌, ◌≤◌, ◌<◌, ◌++◌, ℕ, Bool, List, length, Err, IfOk, IfErr, IsOk, IsTrue, MatchResult};
ghost use Rattle.disk_core.specs.Images.{Has};
ghost use Rattle.disk_core.specs.Views.{Passes};
ghost use Rattle.disk_core.specs.Calls.{ReadStep, SameDisk};
ghost use Rattle.quorum_log.specs.Layout as layout;
ghost use Rattle.quorum_log.specs.Logs.{IsWithinLimits, StandsFor, log_of};
ghost use Rattle.quorum_log.specs.Opening.{OpenFails, OpenCalls, WasRead, IsInOpen, OnlyRead, IsRead, ReadsWhole, ReadFails, ReadsImage, open_answer};

use crate::checking::{check_header, is_valid, read_current};
use crate::fault::OpenFault;
use crate::found::Found;
use crate::layout::{HEADER, image_size};
use crate::log::Log;
use crate::writing::{add, take_over};
use disk_core::{Disk, DiskFault};
use std::alloc::Global;

impl Log {
    /// Opens the log that the disk holds, under the fencing token `claim`, and tells what is in it.
    pub fn open<D: Disk>(alloc: Global, disk: &mut D, claim: u32) -> Result<(Log, Found), OpenFault>
        requires { 64 ≤ (D.view disk.old).size }
        ensures found { IsTrue (D.view disk.old).tells → IfOk result (λ opened. StandsFor opened.0 (D.view disk.new) opened.1) }
        ensures limits { IfOk result (λ opened. IsWithinLimits opened.1) }
        ensures claimed { IfOk result (λ opened. (opened.0.claim ≡ claim) × ((D.view disk.new).current.held ≡ claim)) }
        ensures value { IfOk result (λ opened. (valid : Bool) × (opened.0 ≡ log_of claim opened.1 valid)) }
        ensures read { IfOk result (λ opened. WasRead (D.view disk.old) opened.1) }
        ensures same { SameDisk (D.view disk.old) (D.view disk.new) }
        ensures fault { IfErr result (OpenFails claim (D.view disk.old) (D.view disk.new)) }
        ensures calls { OpenCalls claim (D.view disk.old) (open_answer result) (D.view disk.new) }
        ensures any_moment { IsTrue (D.view disk.old).tells → Passes (IsInOpen (D.view disk.old).current claim) (D.view disk.old) (D.view disk.new) }
    {
        take_over(disk, claim)?;
        let (image, cap) = read_image(alloc, disk)?;
        let found = read_current(alloc, &image, cap)?;
        let other_valid = is_valid(&image, cap, 1 - found.half);
        let log = Log::of(alloc, claim, &found, other_valid)?;
        Ok((log, found))
    }
}

/// Reads the image in two reads, of the header and of what is behind it, and tells the cap.
fn read_image<D: Disk>(alloc: Global, disk: &mut D) -> Result<(Vec<u8>, u32), OpenFault>
    requires { 64 ≤ (D.view disk.old).size }
    ensures calls { MatchResult result (λ read. ReadsWhole read.0.items (D.view disk.old) (D.view disk.new))
        (λ fault. ReadsImage (D.view disk.old) (Err fault) (D.view disk.new)) }
    ensures only_read { OnlyRead (D.view disk.old) (D.view disk.new) }
    ensures image { MatchResult result (λ read. IsRead (D.view disk.old) read.0.items read.1) (ReadFails (D.view disk.old) (D.view disk.new)) }
{
    let mut header = [0u8; HEADER];
    disk.read(0, &mut header)?;
    let cap = check_header(&header, disk.size())?;
    let mut image = vec![in alloc; 0; image_size(cap) as usize]?;
    read_rest(disk, &header, &mut image)?;
    Ok((image, cap))
}

/// Puts the header into the image, and reads what is behind it.
fn read_rest<D: Disk>(disk: &mut D, header: &[u8], image: &mut Vec<u8>) -> Result<(), DiskFault>
    requires header { length header.now ≡ 64 }
    requires room { 64 ≤ length image.old.items }
    requires size { length image.old.items ≤ (D.view disk.old).size }
    ensures { (rest : List ℕ) × (64 + length rest ≡ length image.old.items) × ReadStep (D.view disk.old) 64 rest result (D.view disk.new)
        × (IsOk result → image.new.items ≡ header.now ++ rest) }
{
    add(image, 0, header);
    disk.read(64, &mut image[HEADER..])
}
