//! A window onto a text that is written from its beginning on.

ghost use Rattle.std.specs.Prelude.{◌≡◌, ◌≤◌, List, ℕ, true, false, length};
ghost use Rattle.wire_fields.specs.declared.endian.Endian.TheVariants.{Little};
ghost use Rattle.wire_fields.specs.Numbers.{num};
ghost use Rattle.registry_tree.specs.Windows.{Fills};

use std::cmp::min;

/// How far a text is written of which a slice takes the bytes from some offset on.
#[derive(Clone, Copy)]
pub(crate) struct Window {
    /// How many bytes are still to be passed over.
    pub(crate) before: usize,
    /// How many bytes of the slice are filled.
    pub(crate) filled: usize,
}

impl Window {
    /// Whether nothing that follows falls into the slice.
    pub(crate) fn is_full(&self, into: &[u8]) -> bool
        requires within { self.now.filled ≤ length into.now }
        ensures { result ≡ true → (text : List ℕ) → Fills text self.now into.now self.now into.now }
    {
        self.before == 0 && self.filled == into.len()
    }

    /// Passes over so many bytes of the text, where they end before the slice begins.
    pub(crate) fn passes(&mut self, count: usize) -> bool
        ensures passed { result ≡ true → (text into : List ℕ) → length text ≡ count → self.old.filled ≤ length into → Fills text self.old into self.new into }
        ensures kept { result ≡ false → self.new ≡ self.old }
    {
        if self.before < count {
            return false;
        }
        self.before -= count;
        true
    }

    /// Writes a piece of the text.
    pub(crate) fn put(&mut self, text: &[u8], into: &mut [u8])
        requires within { self.old.filled ≤ length into.old }
        ensures { Fills text.now self.old into.old self.new into.new }
    {
        if text.len() <= self.before {
            self.before -= text.len();
            return;
        }
        let seen = &text[self.before..];
        let count = min(seen.len(), into.len() - self.filled);
        let end = self.filled + count;
        into[self.filled..end].copy_from_slice(&seen[..count]);
        self.before = 0;
        self.filled = end;
    }

    #[tactic(auto, unfolding(wire_fields::specs::Numbers::num))]
    pub(crate) fn put_u16(&mut self, value: u16, into: &mut [u8])
        requires within { self.old.filled ≤ length into.old }
        ensures { Fills (num Little 2 value) self.old into.old self.new into.new }
    {
        self.put(&value.to_le_bytes(), into);
    }

    #[tactic(auto, unfolding(wire_fields::specs::Numbers::num))]
    pub(crate) fn put_u32(&mut self, value: u32, into: &mut [u8])
        requires within { self.old.filled ≤ length into.old }
        ensures { Fills (num Little 4 value) self.old into.old self.new into.new }
    {
        self.put(&value.to_le_bytes(), into);
    }

    #[tactic(auto, unfolding(wire_fields::specs::Numbers::num))]
    pub(crate) fn put_u64(&mut self, value: u64, into: &mut [u8])
        requires within { self.old.filled ≤ length into.old }
        ensures { Fills (num Little 8 value) self.old into.old self.new into.new }
    {
        self.put(&value.to_le_bytes(), into);
    }
}
