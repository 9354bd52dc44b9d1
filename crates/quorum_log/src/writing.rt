//! Calls on the disk that several changes of a log share, each list of them a function of its own.
ghost use Rattle.std.specs.Prelude.{◌≡◌, ◌+◌, ◌≤◌, [], ◌∷◌, ◌++◌, length, take};
ghost use Rattle.disk_core.specs.Calls.{Made, write, sync, claim};

use disk_core::{Disk, DiskFault};

/// Claims the disk, and makes sure of what was written before.
#[tactic(auto, unfolding(disk_core::specs::Calls::Made))]
pub(crate) fn take_over<D: Disk>(disk: &mut D, number: u32) -> Result<(), DiskFault>
    ensures { Made (claim number ∷ sync number ∷ []) (D.view disk.old) result (D.view disk.new) }
{
    disk.claim(number)?;
    disk.sync(number)?;
    Ok(())
}

/// Writes the one byte there, and syncs.
#[tactic(auto, unfolding(disk_core::specs::Calls::Made))]
pub(crate) fn put_byte<D: Disk>(
    disk: &mut D,
    number: u32,
    at: u64,
    byte: u8,
) -> Result<(), DiskFault>
    requires { at + 1 ≤ (D.view disk.old).size }
    ensures { Made (write number at (byte ∷ []) ∷ sync number ∷ []) (D.view disk.old) result (D.view disk.new) }
{
    disk.write(number, at, &[byte])?;
    disk.sync(number)?;
    Ok(())
}

/// Writes the bytes and makes sure of them; then the byte 1 at `commit`, and makes sure of it.
#[tactic(auto, unfolding(disk_core::specs::Calls::Made))]
pub(crate) fn write_then_commit<D: Disk>(
    disk: &mut D,
    number: u32,
    at: u64,
    bytes: &[u8],
    commit: u64,
) -> Result<(), DiskFault>
    requires body { at + length bytes.now ≤ (D.view disk.old).size }
    requires commit { commit + 1 ≤ (D.view disk.old).size }
    ensures { Made (write number at bytes.now ∷ sync number ∷ write number commit (1 ∷ []) ∷ sync number ∷ []) (D.view disk.old) result (D.view disk.new) }
{
    disk.write(number, at, bytes)?;
    disk.sync(number)?;
    disk.write(number, commit, &[1])?;
    disk.sync(number)?;
    Ok(())
}

/// Puts the bytes behind the first `done` bytes of the buffer, and tells how many are there then.
pub(crate) fn add(buffer: &mut Vec<u8>, done: usize, bytes: &[u8]) -> usize
    requires { done + length bytes.now ≤ length buffer.old.items }
    ensures count { result ≡ done + length bytes.now }
    ensures text { take (done + length bytes.now) buffer.new.items ≡ take done buffer.old.items ++ bytes.now }
    ensures size { length buffer.new.items ≡ length buffer.old.items }
{
    let end = done + bytes.len();
    buffer[done..end].copy_from_slice(bytes);
    end
}
