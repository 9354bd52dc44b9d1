//! A log begins its other half with a new state.
ghost use Rattle.std.specs.Prelude.{◌≡◌, ◌+◌, ◌-◌, ◌≤◌, ◌<◌, ◌^◌, ◌↔◌, [], ◌∷◌, ◌++◌, length, take, Ok, IfOk, IsTrue};
ghost use Rattle.disk_core.specs.Calls.{Made, SameDisk, write, sync};
ghost use Rattle.disk_core.specs.Views.{Passes};
ghost use Rattle.quorum_log.specs.declared.found.Found.{Found};
ghost use Rattle.quorum_log.specs.Layout.{image_size, half_at, most_record, most_records, next_generation};
ghost use Rattle.quorum_log.specs.Faults.{AnsweredBy, disk_answer};
ghost use Rattle.quorum_log.specs.Logs.{StandsFor, begun};
ghost use Rattle.quorum_log.specs.Changes.{half_text, with_checkpoint, closing, IsInChange};

use crate::fault::AppendFault;
use crate::layout::{SECOND_VERSION, half_at};
use crate::log::Log;
use crate::writing::{add, put_byte, write_then_commit};
use disk_core::{Disk, DiskFault};

impl Log {
    /// Begins the other half with this state and last record, and no records. It takes no memory.
    ///
    /// A fault hands nothing back: the log must be opened again, and has the one half or the other.
    pub fn checkpoint<D: Disk>(
        mut self,
        disk: &mut D,
        state: &[u8],
        last: &[u8],
    ) -> Result<Log, AppendFault>
        requires state { length state.now ≤ self.cap }
        requires last { length last.now ≤ most_record }
        requires none { (last.now ≡ []) ↔ (self.base + self.records ≡ 0) }
        requires disk_size { image_size self.cap ≤ (D.view disk.old).size }
        ensures any_moment { (x : Found) → StandsFor self (D.view disk.old) x →
            Passes (IsInChange (D.view disk.old).current.held x (with_checkpoint x state.now last.now)) (D.view disk.old) (D.view disk.new) }
        ensures begun { (x : Found) → StandsFor self (D.view disk.old) x → IfOk result
            (λ log. StandsFor log (D.view disk.new) (with_checkpoint x state.now last.now)) }
        ensures answer { AnsweredBy self.claim (D.view disk.old) (disk_answer result) (D.view disk.new) }
        ensures calls { let other = half_at self.cap (1 - self.half) in
            Made (closing self.other_valid self.claim other
            ++ write self.claim (other + 1) (half_text (next_generation self.generation) (self.base + self.records) state.now last.now)
            ∷ sync self.claim ∷ write self.claim other (1 ∷ []) ∷ sync self.claim ∷ []) (D.view disk.old) (disk_answer result) (D.view disk.new) }
        ensures value { IfOk result (λ log. log ≡ begun self (length state.now) (length last.now)) }
        ensures held { (D.view disk.new).current.held ≡ (D.view disk.old).current.held }
        ensures same { SameDisk (D.view disk.old) (D.view disk.new) }
        ensures begins { IfOk result (λ log. (log.claim ≡ self.claim) × (log.version ≡ 2)) }
    {
        let half = 1 - self.half;
        let other = half_at(self.cap, half);
        let generation = self.generation.wrapping_add(1);
        let base = self.base + self.records;
        let count = put_half(&mut self.buffer, generation, base, state, last);
        replace(
            disk,
            self.claim,
            other,
            self.other_valid,
            &self.buffer[..count],
        )?;
        self.half = half;
        self.version = 2;
        self.generation = generation;
        self.base = base;
        self.records = 0;
        self.tail = other + 25 + state.len() as u64 + last.len() as u64;
        self.other_valid = true;
        Ok(self)
    }
}

/// Closes the half that begins there, where it is valid.
#[tactic(auto, unfolding(disk_core::specs::Calls::Made))]
pub(crate) fn close<D: Disk>(
    disk: &mut D,
    claim: u32,
    at: u64,
    is_valid: bool,
) -> Result<(), DiskFault>
    requires { at + 1 ≤ (D.view disk.old).size }
    ensures { Made (closing is_valid claim at) (D.view disk.old) result (D.view disk.new) }
{
    if is_valid {
        return put_byte(disk, claim, at, 0);
    }
    Ok(())
}

/// Closes the half that begins there where it is valid, writes its text, and makes it valid.
fn replace<D: Disk>(
    disk: &mut D,
    claim: u32,
    at: u64,
    is_valid: bool,
    text: &[u8],
) -> Result<(), DiskFault>
    requires room { at + 1 + length text.now ≤ (D.view disk.old).size }
    requires small { at < 2 ^ 63 }
    ensures { Made (closing is_valid claim at ++ write claim (at + 1) text.now ∷ sync claim ∷ write claim at (1 ∷ []) ∷ sync claim ∷ [])
        (D.view disk.old) result (D.view disk.new) }
{
    close(disk, claim, at, is_valid)?;
    write_then_commit(disk, claim, at + 1, text, at)
}

/// Puts the text of the half at the front of the buffer, and tells how long it is.
#[tactic(auto, unfolding(wire_fields::specs::Numbers::num))]
fn put_half(buffer: &mut Vec<u8>, generation: u64, base: u64, state: &[u8], last: &[u8]) -> usize
    requires base { base ≤ most_records }
    requires state { length state.now ≤ 16_777_216 }
    requires last { length last.now ≤ most_record }
    requires room { 25 + length state.now + length last.now ≤ length buffer.old.items }
    ensures count { result ≡ 25 + length state.now + length last.now }
    ensures text { take (25 + length state.now + length last.now) buffer.new.items ≡ half_text generation base state.now last.now }
    ensures size { length buffer.new.items ≡ length buffer.old.items }
{
    let done = add(buffer, 0, &generation.to_le_bytes());
    let done = add(buffer, done, &(base + SECOND_VERSION).to_le_bytes());
    let done = add(buffer, done, &(state.len() as u32).to_le_bytes());
    let done = add(buffer, done, &(last.len() as u32).to_le_bytes());
    let done = add(buffer, done, state);
    let done = add(buffer, done, last);
    add(buffer, done, &[0])
}
