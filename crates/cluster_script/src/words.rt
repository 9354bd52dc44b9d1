//! A line, word by word.

ghost use Rattle.std.specs.Prelude.{◌≡◌, ◌≤◌, ◌<◌, ◌+◌, Option, Some, None, IfOk, IsTrue, ◌↔◌, [], length};
ghost use Rattle.cluster_script.specs.declared.line_fault.LineFault.TheVariants.{Column};
ghost use Rattle.gum_messages.specs.Messages.{IsNode};
ghost use Rattle.cluster_worlds.specs.Conditions.{IsBatch};
ghost use Rattle.cluster_script.specs.Reading.{start};
ghost use Rattle.cluster_script.specs.Values.{batch_of, member_of, number_of, octets_of};
ghost use Rattle.cluster_script.specs.Words.{Takes, end_at, most, read_at, word_at};

use crate::cutting::cut;
use crate::line_fault::LineFault;
use crate::numbers::read_number;
use crate::values::{read_batch, read_member, read_octets};
use gum_messages::Member;
use std::alloc::Global;
use std::marker::Model;
use update_records::Update;
use wire_fields::Octets;

/// No line tells more bytes.
pub(crate) const MOST_BYTES: usize = 262_144;

/// No request of one fragment has a longer stub.
pub(crate) const MOST_STUB: usize = 5816;

/// What is left of a line: its words to come.
pub(crate) struct Words<'a> {
    /// The next word and all behind it, where there is one.
    rest: Option<&'a [u8]>,
    /// The column of the word that was taken last.
    last: u32,
    /// The column of the next word; where there is none, two past the line's end.
    next: u32,
}

impl<'a> Model for Words<'a> {
    ghost use Rattle.cluster_script.specs.Words.{IsWithinLine, Words, words_in};

    ghost Value = { Words };

    ghost view = { λ words. record { last = words.last; next = words.next; left = words_in words.rest } };

    ghost invariant = { λ words. IsWithinLine words.next words.rest };
}

impl Drop for Words<'_> {
    fn drop(self) {
        let Words {
            rest: _,
            last: _,
            next: _,
        } = self;
    }
}

impl<'a> Words<'a> {
    pub(crate) fn new(text: &'a [u8]) -> Words<'a>
        requires { length text.now ≤ most }
        ensures { result ≡ start text.now }
    {
        Words {
            rest: Some(text),
            last: 1,
            next: 1,
        }
    }

    /// Whether no word is left.
    pub(crate) fn is_at_end(&self) -> bool
        ensures { IsTrue result ↔ (self.now.left ≡ []) }
    {
        self.rest.is_none()
    }

    /// The next word.
    #[tactic(auto, unfolding(crate::specs::Words::word_at))]
    pub(crate) fn word(&mut self) -> Result<&'a [u8], LineFault>
        ensures { Takes (λ word. word.now) result (word_at self.old) self.new }
    {
        let Some(rest) = self.rest else {
            return Err(LineFault::Column(self.next - 1));
        };
        let (word, rest) = cut(rest, b' ');
        self.last = self.next;
        self.next += word.len() as u32 + 1;
        self.rest = rest;
        Ok(word)
    }

    /// The fault of the word that was taken last.
    pub(crate) fn misfit(&self) -> LineFault
        ensures { result ≡ Column self.now.last }
    {
        LineFault::Column(self.last)
    }

    /// Refuses the word that is one too many.
    pub(crate) fn end(&self) -> Result<(), LineFault>
        ensures { result ≡ end_at self.now.next self.now.left }
    {
        match self.rest {
            Some(_) => Err(LineFault::Column(self.next)),
            None => Ok(()),
        }
    }

    /// The next word, as a number between two bounds.
    pub(crate) fn number(&mut self, low: u64, high: u64) -> Result<u64, LineFault>
        ensures number { Takes (λ number. number) result (read_at (number_of low high) self.old) self.new }
        ensures range { IfOk result (λ number. (low ≤ number) × (number ≤ high)) }
    {
        let word = self.word()?;
        match read_number(word, low, high) {
            Some(number) => Ok(number),
            None => Err(self.misfit()),
        }
    }

    /// The number of a node.
    pub(crate) fn node(&mut self) -> Result<u16, LineFault>
        ensures number { Takes (λ number. number) result (read_at (number_of 1 16) self.old) self.new }
        ensures range { IfOk result IsNode }
    {
        let number = self.number(1, 16)?;
        Ok(number as u16)
    }

    /// The number of a view, an incarnation, a connection or a message.
    pub(crate) fn serial(&mut self) -> Result<u32, LineFault>
        ensures { Takes (λ number. number) result (read_at (number_of 1 4_294_967_295) self.old) self.new }
    {
        let number = self.number(1, 4_294_967_295)?;
        Ok(number as u32)
    }

    /// The number of an operation.
    pub(crate) fn opnum(&mut self) -> Result<u16, LineFault>
        ensures { Takes (λ number. number) result (read_at (number_of 0 65_535) self.old) self.new }
    {
        let number = self.number(0, 65_535)?;
        Ok(number as u16)
    }

    /// The bytes of the next word, at most so many.
    pub(crate) fn octets(&mut self, alloc: Global, limit: usize) -> Result<Octets, LineFault>
        ensures bytes { Takes (λ bytes. bytes) result (read_at (octets_of limit) self.old) self.new }
        ensures few { IfOk result (λ bytes. length bytes ≤ limit) }
    {
        let word = self.word()?;
        match read_octets(alloc, word, limit)? {
            Some(bytes) => Ok(bytes),
            None => Err(self.misfit()),
        }
    }

    /// The batch whose encoding the next word tells.
    pub(crate) fn batch(&mut self, alloc: Global) -> Result<Update, LineFault>
        ensures batch { Takes (λ update. update) result (read_at batch_of self.old) self.new }
        ensures valid { IfOk result IsBatch }
    {
        let word = self.word()?;
        match read_batch(alloc, word)? {
            Some(update) => Ok(update),
            None => Err(self.misfit()),
        }
    }

    /// The next member of a view, above this node.
    pub(crate) fn member(&mut self, floor: u16) -> Result<Member, LineFault>
        requires { floor ≤ 16 }
        ensures member { Takes (λ member. member) result (read_at (member_of floor) self.old) self.new }
        ensures above { IfOk result (λ member. (floor < member.node) × (member.node ≤ 16) × (1 ≤ member.inc)) }
    {
        let word = self.word()?;
        match read_member(word, floor) {
            Some(member) => Ok(member),
            None => Err(self.misfit()),
        }
    }
}
