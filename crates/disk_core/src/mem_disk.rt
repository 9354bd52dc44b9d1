//! A disk in memory.
ghost use Rattle.std.specs.Prelude.{◌≡◌, ◌+◌, ◌<◌, ◌≤◌, ◌^◌, ◌==◌, ◌||◌, not, nat_lt, [], ◌∷◌, ◌++◌, length, replicate, vec_capacity, IfOk};

use crate::crash_disk::CrashDisk;
use crate::disk::Disk;
use crate::fault::DiskFault;
use crate::note::Note;
use crate::snapshot::{MOST_CALLS, Snapshot};
use std::alloc::{AllocError, Global};
use std::marker::Model;

/// A disk in memory, which can crash.
///
/// It notes up to 4,096 calls and as many bytes of writes as it has since the mark, where the ranges
/// that were pending at the mark count first. A call past this room fails and does nothing.
#[derive(Drop)]
pub struct MemDisk {
    marked: Snapshot,
    present: Snapshot,
    notes: Vec<Note>,
    store: Vec<u8>,
    bytes_left: u64,
    faults: u64,
    awaits: u32,
}

impl Model for MemDisk {
    ghost use Rattle.std.specs.Prelude.{◌+◌, ◌-◌, length, vec_capacity};
    ghost use Rattle.disk_core.specs.Notes.{Memory, IsSound, HasCapacity, befores};

    ghost Value = { Memory };

    ghost view = { λ d. record {
      current = d.present;
      past = befores d.store.items d.notes.items d.marked;
      faults = d.faults;
      awaits = d.awaits;
      calls_left = 4096 - (length d.marked.pending + length d.notes.items);
      bytes_left = d.bytes_left;
    } };

    ghost invariant = { λ d.
        IsSound d.marked d.present d.notes.items d.store.items d.bytes_left
        × HasCapacity (vec_capacity d.notes) (vec_capacity d.store) (length d.present.seen) };
}

impl MemDisk {
    ghost use Rattle.std.specs.Prelude.{min, ◌-◌, take, drop};
    ghost use Rattle.disk_core.specs.declared.fault.DiskFault.TheVariants.{Failed, Fenced};
    ghost use Rattle.disk_core.specs.Notes.{after, noted, written, fenced, IsPlain};

    /// A disk of zeros without a claim. All the memory that it will need is taken here.
    pub fn new(alloc: Global, size: u64) -> Result<MemDisk, AllocError>
        ensures { IfOk result (λ d. d ≡ record {
          current = record { seen = replicate size 0; pending = []; held = 0 };
          past = [];
          faults = 0;
          awaits = 0;
          calls_left = 4096;
          bytes_left = size;
        }) }
    {
        let marked = Snapshot::new(alloc, size as usize)?;
        let present = Snapshot::new(alloc, size as usize)?;
        let notes = Vec::with_capacity(alloc, MOST_CALLS)?;
        let store = Vec::with_capacity(alloc, size as usize)?;
        Ok(MemDisk {
            marked,
            present,
            notes,
            store,
            bytes_left: size,
            faults: 0,
            awaits: 0,
        })
    }

    /// The fencing token that the disk holds.
    pub fn held(&self) -> u32
        ensures { result ≡ self.now.current.held }
    {
        self.present.held()
    }

    /// How many calls failed.
    pub fn faults(&self) -> u64
        ensures { result ≡ self.now.faults }
    {
        self.faults
    }

    /// Counts a call, and tells whether it is the one that was to fail.
    fn count_call(&mut self) -> bool
        ensures awaited { result ≡ (self.old.awaits == 1) }
        ensures counted { self.new ≡ record self.old { awaits = self.old.awaits - 1 } }
    {
        let awaits = self.awaits;
        self.awaits = awaits.saturating_sub(1);
        awaits == 1
    }

    fn has_room(&self, bytes: usize) -> bool
        ensures { result ≡ not ((self.now.calls_left == 0) || nat_lt self.now.bytes_left bytes) }
    {
        self.marked.pending_calls() + self.notes.len() != MOST_CALLS
            && bytes as u64 <= self.bytes_left
    }

    fn fail(&mut self) -> DiskFault
        ensures fault { result ≡ Failed }
        ensures counted { self.new ≡ record self.old { faults = min (self.old.faults + 1) (2 ^ 64 - 1) } }
        ensures later { self.old.faults ≤ self.new.faults }
    {
        self.faults = self.faults.saturating_add(1);
        DiskFault::Failed
    }

    fn fence(&mut self) -> DiskFault
        ensures fault { result ≡ Fenced self.old.current.held }
        ensures noted { self.new ≡ fenced self.old }
    {
        let held = self.held();
        if self.has_room(0) {
            self.note(Note::Nothing);
        }
        DiskFault::Fenced { held }
    }

    /// Does what the note says, which isn't a write, and keeps it.
    fn note(&mut self, note: Note)
        requires plain { IsPlain note }
        requires calls { 0 < self.old.calls_left }
        ensures { self.new ≡ noted (after [] note self.old.current) 0 self.old }
    {
        self.present.apply(&self.store, note);
        push_note(&mut self.notes, note);
    }

    /// Writes the bytes, and notes a write of that length.
    fn put(&mut self, at: u64, bytes: &[u8], len: u64)
        requires within { at + len ≤ length self.old.current.seen }
        requires part { length bytes.now ≤ len }
        requires calls { 0 < self.old.calls_left }
        requires room { len ≤ self.old.bytes_left }
        ensures { self.new ≡ noted (written at bytes.now len self.old.current) len self.old }
    {
        let from = append(&mut self.store, bytes);
        let count = bytes.len();
        let note = Note::Wrote {
            at,
            len,
            from,
            count,
        };
        self.present.apply(&self.store, note);
        push_note(&mut self.notes, note);
        self.bytes_left -= len;
    }
}

impl Disk for MemDisk {
    ghost use Rattle.disk_core.specs.Notes.{view_of};
    ghost use Rattle.std.specs.Prelude.{refl};

    ghost view = { view_of };

    ghost whole = { λ d tells. refl };

    fn size(&self) -> u64 {
        self.present.size()
    }

    fn read(&mut self, at: u64, into: &mut [u8]) -> Result<(), DiskFault> {
        if self.count_call() {
            return Err(self.fail());
        }
        self.present.read(at, into);
        Ok(())
    }

    fn write(&mut self, claim: u32, at: u64, bytes: &[u8]) -> Result<(), DiskFault> {
        let is_awaited = self.count_call();
        if claim < self.held() {
            return Err(self.fence());
        }
        if !self.has_room(bytes.len()) {
            return Err(self.fail());
        }
        let len = bytes.len() as u64;
        if is_awaited {
            self.put(at, &bytes[..bytes.len() / 2], len);
            return Err(self.fail());
        }
        self.put(at, bytes, len);
        Ok(())
    }

    fn sync(&mut self, claim: u32) -> Result<(), DiskFault> {
        let is_awaited = self.count_call();
        if self.held() > claim {
            return Err(self.fence());
        }
        if !self.has_room(0) {
            return Err(self.fail());
        }
        if is_awaited {
            self.note(Note::Nothing);
            return Err(self.fail());
        }
        self.note(Note::Synced);
        Ok(())
    }

    fn claim(&mut self, number: u32) -> Result<(), DiskFault> {
        let is_awaited = self.count_call();
        if number < self.held() {
            return Err(self.fence());
        }
        if !self.has_room(0) {
            return Err(self.fail());
        }
        if is_awaited {
            self.note(Note::Nothing);
            return Err(self.fail());
        }
        self.note(Note::Claimed { number });
        Ok(())
    }
}

impl CrashDisk for MemDisk {
    fn mark(&mut self) {
        self.marked.replay(&self.store, &self.notes);
        self.notes.clear();
        self.store.clear();
        self.bytes_left = self.present.size() - self.present.pending_bytes();
    }

    fn calls(&self) -> u32 {
        self.notes.len() as u32
    }

    fn crash(&mut self, moment: u32, bytes: &[u8]) {
        let calls = self.notes.len().min(moment as usize);
        self.marked.replay(&self.store, &self.notes[..calls]);
        self.marked.settle(bytes);
        self.present.copy_from(&self.marked);
        self.notes.clear();
        self.store.clear();
        self.bytes_left = self.present.size();
    }

    fn fail_in(&mut self, call: u32) {
        self.awaits = call;
    }
}

fn push_note(notes: &mut Vec<Note>, note: Note)
    requires { length notes.old.items < vec_capacity notes.old }
    ensures items { notes.new.items ≡ notes.old.items ++ note ∷ [] }
    ensures room_kept { vec_capacity notes.old ≤ vec_capacity notes.new }
{
    match notes.push(note) {
        Ok(()) => {}
        Err(_) => unreachable!(),
    }
}

/// Adds the bytes, and tells where they begin.
fn append(store: &mut Vec<u8>, bytes: &[u8]) -> usize
    requires { length store.old.items + length bytes.now ≤ vec_capacity store.old }
    ensures from { result ≡ length store.old.items }
    ensures items { store.new.items ≡ store.old.items ++ bytes.now }
    ensures room_kept { vec_capacity store.old ≤ vec_capacity store.new }
{
    let from = store.len();
    match store.extend_from_slice(bytes) {
        Ok(()) => from,
        Err(_) => unreachable!(),
    }
}
