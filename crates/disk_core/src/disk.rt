//! The disk as a trait.
ghost use Rattle.std.specs.Prelude.{◌≡◌, ◌+◌, ◌≤◌, length, IsTrue};
ghost use Rattle.disk_core.specs.Views.{DiskView};
ghost use Rattle.disk_core.specs.Calls.{Step, ReadStep, write, sync, claim};

use crate::fault::DiskFault;

/// A disk of a fixed size. What was written survives a crash once it was synced.
///
/// Each writer carries a fencing token. The disk holds the last one that was claimed, and refuses
/// every write, sync and claim under a smaller one with `Fenced`.
pub trait Disk {
    ghost view: { Self → DiskView };

    /// The size in bytes.
    fn size(&self) -> u64
        ensures { result ≡ (view self.now).size };

    /// Reads from `at` on; a place that was never written reads as 0.
    fn read(&mut self, at: u64, into: &mut [u8]) -> Result<(), DiskFault>
        requires { at + length into.old ≤ (view self.old).size }
        ensures { ReadStep (view self.old) at into.new result (view self.new) };

    /// Writes under the fencing token `claim`.
    fn write(&mut self, claim: u32, at: u64, bytes: &[u8]) -> Result<(), DiskFault>
        requires { at + length bytes.now ≤ (view self.old).size }
        ensures { Step (write claim at bytes.now) (view self.old) result (view self.new) };

    /// Makes sure, under the fencing token `claim`, of all that was written.
    fn sync(&mut self, claim: u32) -> Result<(), DiskFault>
        ensures { Step (sync claim) (view self.old) result (view self.new) };

    /// Makes `number` the fencing token that the disk holds.
    fn claim(&mut self, number: u32) -> Result<(), DiskFault>
        ensures { Step (claim number) (view self.old) result (view self.new) };

    ghost whole: { (d : Self) → IsTrue (view d).tells → length (view d).current.seen ≡ (view d).size };
}
