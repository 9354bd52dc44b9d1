//! What a disk in memory holds at one moment.
ghost use Rattle.std.specs.Prelude.{◌≡◌, ◌+◌, ◌<◌, ◌≤◌, ◌^◌, [], ◌∷◌, ◌++◌, length, take, drop, replicate, vec_capacity, IfOk};

use crate::note::Note;
use crate::span::Span;
use std::alloc::{AllocError, Global};
use std::marker::Model;

/// How many calls a disk in memory notes.
pub const MOST_CALLS: usize = 4096;

#[derive(Drop)]
pub struct Snapshot {
    image: Vec<u8>,
    pending: Vec<Span>,
    held: u32,
}

impl Model for Snapshot {
    ghost use Rattle.std.specs.Prelude.{◌≤◌, vec_capacity};
    ghost use Rattle.disk_core.specs.Images.{Moment};

    ghost Value = { Moment };

    ghost view = { λ s. record { seen = s.image.items; pending = s.pending.items; held = s.held } };

    ghost invariant = { λ s. 4096 ≤ vec_capacity s.pending };
}

impl Snapshot {
    ghost use Rattle.disk_core.specs.Images.{total};
    ghost use Rattle.disk_core.specs.Crashes.{after_crash};
    ghost use Rattle.disk_core.specs.Notes.{after, replay, IsNoteWithin, AreNotesWithin, AreWithin};

    pub fn new(alloc: Global, size: usize) -> Result<Snapshot, AllocError>
        ensures { IfOk result (λ s. s ≡ record { seen = replicate size 0; pending = []; held = 0 }) }
    {
        let image = vec![in alloc; 0; size]?;
        let pending = Vec::with_capacity(alloc, MOST_CALLS)?;
        Ok(Snapshot {
            image,
            pending,
            held: 0,
        })
    }

    pub fn size(&self) -> u64
        ensures { result ≡ length self.now.seen }
    {
        self.image.len() as u64
    }

    pub fn held(&self) -> u32
        ensures { result ≡ self.now.held }
    {
        self.held
    }

    pub fn pending_calls(&self) -> usize
        ensures { result ≡ length self.now.pending }
    {
        self.pending.len()
    }

    pub fn pending_bytes(&self) -> u64
        requires { total self.now.pending < 2 ^ 64 }
        ensures { result ≡ total self.now.pending }
    {
        self.pending.iter().map(|span| span.len).sum()
    }

    pub fn read(&self, at: u64, into: &mut [u8])
        requires { at + length into.old ≤ length self.now.seen }
        ensures { into.new ≡ take (length into.old) (drop at self.now.seen) }
    {
        let start = at as usize;
        into.copy_from_slice(&self.image[start..start + into.len()]);
    }

    /// Does what the note says.
    pub fn apply(&mut self, store: &Vec<u8>, note: Note)
        requires within { IsNoteWithin (length self.old.seen) (length store.now.items) note }
        requires room { length self.old.pending < 4096 }
        ensures { self.new ≡ after store.now.items note self.old }
    {
        match note {
            Note::Wrote {
                at,
                len,
                from,
                count,
            } => {
                put(&mut self.image, at as usize, &store[from..from + count]);
                push_span(&mut self.pending, Span { at, len });
            }
            Note::Synced => self.pending.clear(),
            Note::Claimed { number } => self.held = number,
            Note::Nothing => {}
        }
    }

    /// Does what the notes say, in turn.
    pub fn replay(&mut self, store: &Vec<u8>, notes: &[Note])
        requires within { AreNotesWithin (length self.old.seen) (length store.now.items) notes.now }
        requires room { length self.old.pending + length notes.now ≤ 4096 }
        ensures { self.new ≡ replay store.now.items notes.now self.old }
    {
        for note in notes {
            self.apply(store, *note);
        }
    }

    /// Fills the pending ranges with the bytes, and leaves nothing pending.
    pub fn settle(&mut self, bytes: &[u8])
        requires { AreWithin (length self.old.seen) self.old.pending }
        ensures { self.new ≡ after_crash self.old bytes.now }
    {
        fill(&mut self.image, &self.pending, bytes);
        self.pending.clear();
    }

    pub fn copy_from(&mut self, other: &Snapshot)
        requires size { length other.now.seen ≡ length self.old.seen }
        requires settled { other.now.pending ≡ [] }
        ensures { self.new ≡ other.now }
    {
        copy(&mut self.image, &other.image);
        self.pending.clear();
        self.held = other.held;
    }
}

ghost use Rattle.disk_core.specs.Images.{overlay};
ghost use Rattle.disk_core.specs.Crashes.{filled};
ghost use Rattle.disk_core.specs.Notes.{AreWithin};

/// Puts the bytes in the place of as many that stood there.
fn put(image: &mut Vec<u8>, at: usize, bytes: &[u8])
    requires { at + length bytes.now ≤ length image.old.items }
    ensures { image.new.items ≡ overlay image.old.items at bytes.now }
{
    image[at..at + bytes.len()].copy_from_slice(bytes);
}

fn copy(image: &mut Vec<u8>, other: &Vec<u8>)
    requires { length other.now.items ≡ length image.old.items }
    ensures { image.new.items ≡ other.now.items }
{
    image.copy_from_slice(other);
}

fn push_span(pending: &mut Vec<Span>, span: Span)
    requires { length pending.old.items < vec_capacity pending.old }
    ensures items { pending.new.items ≡ pending.old.items ++ span ∷ [] }
    ensures room_kept { vec_capacity pending.old ≤ vec_capacity pending.new }
{
    match pending.push(span) {
        Ok(()) => {}
        Err(_) => unreachable!(),
    }
}

fn fill(image: &mut Vec<u8>, pending: &[Span], bytes: &[u8])
    requires { AreWithin (length image.old.items) pending.now }
    ensures { image.new.items ≡ filled pending.now bytes.now image.old.items }
{
    let mut rest = bytes;
    for span in pending {
        let count = (span.len as usize).min(rest.len());
        let (front, back) = rest.split_at(count);
        put(image, span.at as usize, front);
        rest = back;
    }
}
