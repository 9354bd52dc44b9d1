//! A line, word by word.

ghost use Rattle.std.specs.Prelude.{◌≡◌, ◌+◌, ◌<◌, ◌≤◌, IfOk, IfSome, length, position};
ghost use Rattle.client_commands.specs.Lines.{Line, Takes, end_at, first_word, is_space, most, word_at, word_length};

use crate::command_fault::CommandFault;
use std::marker::Model;

/// What is left of a line: its words to come, each behind its space.
pub(crate) struct Line<'a> {
    rest: &'a [u8],
    column: u32,
}

impl<'a> Model for Line<'a> {
    ghost use Rattle.client_commands.specs.Lines.{IsWithinLine, Line};

    ghost Value = { Line };

    ghost view = { λ line. record { column = line.column; left = line.rest.now } };

    ghost invariant = { λ line. IsWithinLine line.column line.rest.now };
}

impl Drop for Line<'_> {
    fn drop(self) {
        let Line { rest: _, column: _ } = self;
    }
}

impl<'a> Line<'a> {
    pub(crate) fn new(text: &'a [u8]) -> Line<'a>
        requires { length text.now ≤ 131_072 }
        ensures { result ≡ record { column = 1; left = text.now } }
    {
        Line {
            rest: text,
            column: 1,
        }
    }

    /// Where the next word stands.
    pub(crate) fn next_column(&self) -> u32
        ensures { result ≡ self.now.column + 1 }
    {
        self.column + 1
    }

    /// The word at the front.
    #[tactic(auto, unfolding(crate::specs::Lines::first_word))]
    pub(crate) fn first(&mut self) -> &'a [u8]
        ensures word { (result.now, self.new) ≡ first_word self.old }
        ensures within { length result.now ≤ length self.old.left }
    {
        let size = word_length(self.rest);
        let (word, rest) = self.rest.split_at(size);
        self.rest = rest;
        self.column += size as u32;
        word
    }

    /// The next word, behind its space.
    #[tactic(auto, unfolding(crate::specs::Lines::word_at))]
    pub(crate) fn word(&mut self) -> Result<&'a [u8], CommandFault>
        ensures word { Takes (λ word. word.now) result (word_at self.old) self.new }
        ensures within { IfOk result (λ word. length word.now ≤ most) }
    {
        if self.rest.is_empty() {
            return Err(CommandFault::Column(self.column));
        }
        self.rest = &self.rest[1..];
        self.column += 1;
        Ok(self.first())
    }

    /// Refuses the word that is one too many.
    pub(crate) fn end(&self) -> Result<(), CommandFault>
        ensures { result ≡ end_at self.now }
    {
        if self.rest.is_empty() {
            return Ok(());
        }
        Err(CommandFault::Column(self.column + 1))
    }
}

fn word_length(text: &[u8]) -> usize
    ensures length { result ≡ word_length text.now }
    ensures within { result ≤ length text.now }
{
    match first_space(text) {
        Some(place) => place,
        None => text.len(),
    }
}

fn first_space(text: &[u8]) -> Option<usize>
    ensures first { result ≡ position is_space text.now }
    ensures within { IfSome result (λ place. place < length text.now) }
{
    text.iter().position(|byte| *byte == b' ')
}
