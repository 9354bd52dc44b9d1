ghost use Rattle.std.specs.Prelude.{◌≡◌, ◌≤◌, ◌++◌, length, take, drop, min, Ok, OnOk, OnErr};

use std::alloc::{AllocError, Global};
use std::marker::Model;

/// A connection of a [`ScriptDoor`](crate::ScriptDoor).
#[derive(Debug, Drop)]
pub struct ScriptVisit {
    input: Vec<u8>,
    place: usize,
    written: Vec<u8>,
    failed_reads: u64,
    failed_writes: u64,
}

impl Model for ScriptVisit {
    ghost use Rattle.std.specs.Prelude.{◌≤◌, length, take, drop};
    ghost use Rattle.edge_io.specs.Visits.{Visit};

    ghost Value = { Visit };

    ghost view = { λ v. record {
      taken = take v.place v.input.items;
      left = drop v.place v.input.items;
      written = v.written.items;
      failed_reads = v.failed_reads;
      failed_writes = v.failed_writes;
    } };

    ghost invariant = { λ v. v.place ≤ length v.input.items };
}

impl ScriptVisit {
    ghost use Rattle.edge_io.specs.Visits.{begun, failed_read, failed_write, with_read, with_write};

    pub(crate) fn new(alloc: Global, input: Vec<u8>) -> ScriptVisit
        ensures { result ≡ begun input.items }
    {
        ScriptVisit {
            input,
            place: 0,
            written: Vec::new(alloc),
            failed_reads: 0,
            failed_writes: 0,
        }
    }

    /// All that the client was sent.
    pub fn written(&self) -> &[u8]
        ensures { result.now ≡ self.now.written }
    {
        self.written.as_slice()
    }

    /// Puts the front of what is left at the front of `into`.
    pub(crate) fn read(&mut self, into: &mut [u8]) -> usize
        ensures count { result ≡ min (length into.old) (length self.old.left) }
        ensures given { into.new ≡ take result self.old.left ++ drop result into.old }
        ensures taken { self.new ≡ with_read (Ok result) self.old }
    {
        let rest = &self.input.as_slice()[self.place..];
        let count = into.len().min(rest.len());
        into[..count].copy_from_slice(&rest[..count]);
        self.place += count;
        count
    }

    pub(crate) fn count_failed_read(&mut self)
        ensures { self.new ≡ failed_read self.old }
    {
        self.failed_reads = self.failed_reads.saturating_add(1);
    }

    pub(crate) fn write(&mut self, bytes: &[u8]) -> Result<(), AllocError>
        ensures ok { OnOk result (self.new ≡ with_write bytes.now (Ok (length bytes.now)) self.old) }
        ensures err { OnErr result (self.new ≡ self.old) }
    {
        self.written.extend_from_slice(bytes)
    }

    pub(crate) fn count_failed_write(&mut self)
        ensures { self.new ≡ failed_write self.old }
    {
        self.failed_writes = self.failed_writes.saturating_add(1);
    }
}
