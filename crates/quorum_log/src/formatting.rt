//! An empty log is made.
ghost use Rattle.std.specs.Prelude.{◌≡◌, ◌+◌, ◌≤◌, [], ◌∷◌, ◌++◌, length, take, Ok, IsOk, IsTrue};
ghost use Rattle.disk_core.specs.Images.{EachImage};
ghost use Rattle.disk_core.specs.Views.{Passes};
ghost use Rattle.disk_core.specs.Calls.{Made, SameDisk, write};
ghost use Rattle.registry_defs.specs.Contents.{IsCap};
ghost use Rattle.quorum_log.specs.Layout as layout;
ghost use Rattle.quorum_log.specs.Faults.{AnsweredBy};
ghost use Rattle.quorum_log.specs.Formats.{front_text, body_calls, renewing, ReadsByte, FormatCalls, IsInFormat, IsFormatted};

use crate::checkpointing::close;
use crate::layout::{SECOND_VERSION, half_at};
use crate::writing::{take_over, write_then_commit};
use disk_core::{Disk, DiskFault};

/// How many bytes of a body are written at once.
const BUFFER: usize = 4096;

/// The bytes of a body before its state.
const FRONT: usize = 88;

/// Makes an empty log with the state `first`, under the fencing token `claim` and whatever the disk
/// holds. It takes no memory.
///
/// Meanwhile a crash leaves no log, the new one, or what it could have left before.
pub fn format<D: Disk>(disk: &mut D, claim: u32, cap: u32, first: &[u8]) -> Result<(), DiskFault>
    requires cap { IsCap cap }
    requires first { length first.now ≤ cap }
    requires disk_size { layout.image_size cap ≤ (D.view disk.old).size }
    ensures any_moment { IsTrue (D.view disk.old).tells → Passes (EachImage (IsInFormat (D.view disk.old).current cap first.now))
        (D.view disk.old) (D.view disk.new) }
    ensures formatted { IsTrue (D.view disk.old).tells → IsOk result → IsFormatted cap first.now (D.view disk.new) }
    ensures claimed { IsOk result → (D.view disk.new).current.held ≡ claim }
    ensures answer { AnsweredBy claim (D.view disk.old) result (D.view disk.new) }
    ensures same { SameDisk (D.view disk.old) (D.view disk.new) }
    ensures calls { FormatCalls claim cap first.now (D.view disk.old) result (D.view disk.new) }
{
    make_log(disk, claim, cap, first)
}

/// The calls of [`format`], from which all of its contract follows.
fn make_log<D: Disk>(disk: &mut D, claim: u32, cap: u32, first: &[u8]) -> Result<(), DiskFault>
    requires cap_most { cap ≤ 16_777_216 }
    requires first { length first.now ≤ cap }
    requires disk_size { layout.image_size cap ≤ (D.view disk.old).size }
    ensures { FormatCalls claim cap first.now (D.view disk.old) result (D.view disk.new) }
{
    take_over(disk, claim)?;
    let byte = read_byte(disk)?;
    renew(disk, claim, cap, first, byte != 0)
}

/// Reads byte 0.
fn read_byte<D: Disk>(disk: &mut D) -> Result<u8, DiskFault>
    requires { 1 ≤ (D.view disk.old).size }
    ensures { ReadsByte (D.view disk.old) result (D.view disk.new) }
{
    let mut byte = [0u8; 1];
    disk.read(0, &mut byte)?;
    Ok(byte[0])
}

/// Closes byte 0 where it is open, and writes the log behind it; opens it once that is synced.
fn renew<D: Disk>(
    disk: &mut D,
    claim: u32,
    cap: u32,
    first: &[u8],
    is_open: bool,
) -> Result<(), DiskFault>
    requires cap_most { cap ≤ 16_777_216 }
    requires first { length first.now ≤ cap }
    requires disk_size { layout.image_size cap ≤ (D.view disk.old).size }
    ensures { Made (renewing is_open claim cap first.now) (D.view disk.old) result (D.view disk.new) }
{
    close(disk, claim, 0, is_open)?;
    write_body(disk, claim, cap, first)?;
    write_then_commit(disk, claim, half_at(cap, 1), &[0], 0)
}

/// Writes the header and half 0: at once where the buffer holds it, else the state by itself.
fn write_body<D: Disk>(disk: &mut D, claim: u32, cap: u32, first: &[u8]) -> Result<(), DiskFault>
    requires cap_most { cap ≤ 16_777_216 }
    requires first { length first.now ≤ cap }
    requires disk_size { layout.image_size cap ≤ (D.view disk.old).size }
    ensures { Made (body_calls claim cap first.now) (D.view disk.old) result (D.view disk.new) }
{
    let mut text = [0u8; BUFFER];
    put_front(&mut text, cap, first.len());
    if first.len() > BUFFER - FRONT - 1 {
        return write_parts(disk, claim, &text, first);
    }
    let done = put(&mut text, FRONT, first);
    let done = put(&mut text, done, &[0]);
    disk.write(claim, 1, &text[..done])
}

/// Writes the front of the text, the state and the closed list, each by itself.
#[tactic(auto, unfolding(disk_core::specs::Calls::Made))]
fn write_parts<D: Disk>(
    disk: &mut D,
    claim: u32,
    text: &[u8],
    first: &[u8],
) -> Result<(), DiskFault>
    requires front { 88 ≤ length text.now }
    requires size { 90 + length first.now ≤ (D.view disk.old).size }
    ensures { Made (write claim 1 (take 88 text.now) ∷ write claim 89 first.now ∷ write claim (89 + length first.now) (0 ∷ []) ∷ [])
        (D.view disk.old) result (D.view disk.new) }
{
    disk.write(claim, 1, &text[..FRONT])?;
    disk.write(claim, 89, first)?;
    disk.write(claim, 89 + first.len() as u64, &[0])?;
    Ok(())
}

/// Puts the header behind its commit byte, and the fields of half 0, at the front of the text.
#[tactic(auto, unfolding(crate::specs::Formats::front_text, wire_fields::specs::Numbers::num))]
fn put_front(text: &mut [u8], cap: u32, size: usize)
    requires size { size ≤ 16_777_216 }
    requires room { 88 ≤ length text.old }
    ensures text { take 88 text.new ≡ front_text cap size }
{
    let done = put(text, 0, b"MSCSLOG");
    let done = put(text, done, &2u32.to_le_bytes());
    let done = put(text, done, &cap.to_le_bytes());
    let done = put(text, done, &[0; 48]);
    let done = put(text, done, &[1]);
    let done = put(text, done, &1u64.to_le_bytes());
    let done = put(text, done, &SECOND_VERSION.to_le_bytes());
    let done = put(text, done, &(size as u32).to_le_bytes());
    put(text, done, &[0; 4]);
}

/// Puts the bytes behind the first `done` bytes of the text, and tells how many are there then.
fn put(text: &mut [u8], done: usize, bytes: &[u8]) -> usize
    requires { done + length bytes.now ≤ length text.old }
    ensures count { result ≡ done + length bytes.now }
    ensures text { take (done + length bytes.now) text.new ≡ take done text.old ++ bytes.now }
{
    let end = done + bytes.len();
    text[done..end].copy_from_slice(bytes);
    end
}
