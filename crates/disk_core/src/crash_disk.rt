//! Disks that crash, as a trait.
ghost use Rattle.std.specs.Prelude.{◌≡◌, length, IsTrue};
ghost use Rattle.disk_core.specs.Crashes.{Marked, Crashed, awaiting};

use crate::disk::Disk;

/// A disk that can be put back to what a crash would have left, and whose calls can be made to fail.
pub trait CrashDisk: Disk {
    /// Makes the present moment 0.
    fn mark(&mut self)
        ensures { Marked (Self.view self.old) (Self.view self.new) };

    /// How many of write, sync and claim were called since the mark.
    fn calls(&self) -> u32
        ensures { IsTrue (Self.view self.now).tells → result ≡ length (Self.view self.now).past };

    /// Leaves the disk as a crash would have left it after the first `moment` calls since the mark,
    /// or after all where there were fewer. What was pending then is filled by `bytes` in the order
    /// of the writes. Afterwards nothing is pending, and that is moment 0.
    fn crash(&mut self, moment: u32, bytes: &[u8])
        ensures { Crashed (Self.view self.old) moment bytes.now (Self.view self.new) };

    /// Makes the call of that number from now answer `Failed`, counted from 1 over read, write, sync
    /// and claim; 0 makes none.
    fn fail_in(&mut self, call: u32)
        ensures { Self.view self.new ≡ record (Self.view self.old) { plan = awaiting call (Self.view self.old).plan } };
}
