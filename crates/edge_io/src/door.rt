ghost use Rattle.std.specs.Prelude.{◌≡◌, ℕ, Option};
ghost use Rattle.std.specs.Io.{ReadsAtMost, WritesAtMost};
ghost use Rattle.causes.specs.Counts.{HasCause};
ghost use Rattle.causes.specs.Writing.{TakesSome};
ghost use Rattle.edge_io.specs.Visits.{Accepts, Faults, NeedsPresent, ReadsFront, Tells, Visits, at_present, hung_up, with_read, with_write};

use crate::Failed;

/// Connections that come one after another. At most one of them is present.
pub trait Door {
    // The connections still to come, the present one and those that were ended, where they are told.
    ghost visits: { Self → Option Visits };

    // How many calls of each kind failed so far.
    ghost faults: { Self → Faults };

    /// Ends the present connection, waits for the next one and answers true; false where no more will
    /// come.
    fn accept(&mut self) -> Result<bool, Failed>
        ensures told { Tells (visits self.old) (visits self.new) (Accepts result) }
        ensures cause { HasCause (faults self.old).accept (faults self.new).accept result }
        ensures reads { (faults self.new).read ≡ (faults self.old).read }
        ensures writes { (faults self.new).write ≡ (faults self.old).write };

    /// Puts bytes of the present connection at the front of `into` and answers how many. 0 for a
    /// non-empty `into` is the end.
    fn read(&mut self, into: &mut [u8]) -> Result<usize, Failed>
        ensures bound { ReadsAtMost result into.new }
        ensures given { Tells (visits self.old) (visits self.new) (λ old now. ReadsFront old.present into.new result) }
        ensures told { Tells (visits self.old) (visits self.new) (λ old now. now ≡ at_present (with_read result) old) }
        ensures accepts { (faults self.new).accept ≡ (faults self.old).accept }
        ensures cause { HasCause (faults self.old).read (faults self.new).read result }
        ensures writes { (faults self.new).write ≡ (faults self.old).write };

    /// Sends the present connection bytes from the front of `bytes` and answers how many.
    fn write(&mut self, bytes: &[u8]) -> Result<usize, Failed>
        ensures bound { WritesAtMost result bytes.now }
        ensures some { TakesSome result bytes.now }
        ensures needs { Tells (visits self.old) (visits self.new) (λ old now. NeedsPresent old.present result) }
        ensures told { Tells (visits self.old) (visits self.new) (λ old now. now ≡ at_present (with_write bytes.now result) old) }
        ensures accepts { (faults self.new).accept ≡ (faults self.old).accept }
        ensures reads { (faults self.new).read ≡ (faults self.old).read }
        ensures cause { HasCause (faults self.old).write (faults self.new).write result };

    /// Ends the present connection.
    fn hang_up(&mut self)
        ensures told { Tells (visits self.old) (visits self.new) (λ old now. now ≡ hung_up old) }
        ensures same { faults self.new ≡ faults self.old };
}
