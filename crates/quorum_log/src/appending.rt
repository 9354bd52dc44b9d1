//! A record is added to a log.
ghost use Rattle.std.specs.Prelude.{◌≡◌, ◌+◌, ◌≤◌, ◌<◌, [], ◌∷◌, length, take, Ok, IfOk, IsTrue};
ghost use Rattle.disk_core.specs.Calls.{Made, SameDisk, write, sync};
ghost use Rattle.disk_core.specs.Views.{Passes};
ghost use Rattle.quorum_log.specs.declared.found.Found.{Found};
ghost use Rattle.quorum_log.specs.Layout.{image_size, most_record, most_records};
ghost use Rattle.quorum_log.specs.Faults.{AnsweredBy, disk_answer};
ghost use Rattle.quorum_log.specs.Logs.{Fits, StandsFor, appended};
ghost use Rattle.quorum_log.specs.Changes.{framed_record, with_record, IsInChange};

use crate::fault::AppendFault;
use crate::log::Log;
use crate::writing::{add, write_then_commit};
use disk_core::Disk;

impl Log {
    /// Adds a record. It takes no memory.
    ///
    /// A fault hands nothing back: the log must be opened again, and holds the record or doesn't.
    pub fn append<D: Disk>(mut self, disk: &mut D, bytes: &[u8]) -> Result<Log, AppendFault>
        requires version { self.version ≡ 2 }
        requires some { 1 ≤ length bytes.now }
        requires most { length bytes.now ≤ most_record }
        requires fits { Fits self (length bytes.now) }
        requires few { self.base + self.records < most_records }
        requires disk_size { image_size self.cap ≤ (D.view disk.old).size }
        ensures any_moment { (x : Found) → StandsFor self (D.view disk.old) x → Passes (IsInChange (D.view disk.old).current.held x (with_record x bytes.now))
            (D.view disk.old) (D.view disk.new) }
        ensures appended { (x : Found) → StandsFor self (D.view disk.old) x → IfOk result (λ log. StandsFor log (D.view disk.new) (with_record x bytes.now)) }
        ensures answer { AnsweredBy self.claim (D.view disk.old) (disk_answer result) (D.view disk.new) }
        ensures calls { Made
            (write self.claim (self.tail + 1) (framed_record bytes.now) ∷ sync self.claim ∷ write self.claim self.tail (1 ∷ []) ∷ sync self.claim ∷ [])
            (D.view disk.old) (disk_answer result) (D.view disk.new) }
        ensures value { IfOk result (λ log. log ≡ appended self (length bytes.now)) }
        ensures held { (D.view disk.new).current.held ≡ (D.view disk.old).current.held }
        ensures same { SameDisk (D.view disk.old) (D.view disk.new) }
        ensures token { IfOk result (λ log. log.claim ≡ self.claim) }
    {
        let count = bytes.len();
        put_record(&mut self.buffer, bytes);
        write_then_commit(
            disk,
            self.claim,
            self.tail + 1,
            &self.buffer[..count + 5],
            self.tail,
        )?;
        self.records += 1;
        self.tail += 5 + count as u64;
        Ok(self)
    }
}

/// Puts the text of the record at the front of the buffer.
#[tactic(auto, unfolding(wire_fields::specs::Numbers::num))]
fn put_record(buffer: &mut Vec<u8>, bytes: &[u8])
    requires most { length bytes.now ≤ most_record }
    requires room { length bytes.now + 5 ≤ length buffer.old.items }
    ensures text { take (length bytes.now + 5) buffer.new.items ≡ framed_record bytes.now }
    ensures size { length buffer.new.items ≡ length buffer.old.items }
{
    let done = add(buffer, 0, &(bytes.len() as u32).to_le_bytes());
    let done = add(buffer, done, bytes);
    add(buffer, done, &[0]);
}
