ghost use Rattle.std.specs.Prelude.{◌≡◌, ◌<◌, ◌≤◌, ◌∷◌, ◌++◌, [], length, position, IfNone, IfSome};
ghost use Rattle.std.specs.List.{position_or_len};
ghost use Rattle.text_lines.specs.Lines.{is_line_feed, lines_of};

use std::marker::Model;

/// The lines of a text that are to come.
pub struct TextLines<'a> {
    rest: Option<&'a [u8]>,
}

impl<'a> Model for TextLines<'a> {
    ghost use Rattle.std.specs.Prelude.{List, ℕ};
    ghost use Rattle.text_lines.specs.Lines.{lines_in};

    ghost Value = { List (List ℕ) };

    ghost view = { λ lines. lines_in lines.rest };
}

impl Drop for TextLines<'_> {
    fn drop(self) {
        let TextLines { rest: _ } = self;
    }
}

impl<'a> TextLines<'a> {
    pub fn new(text: &'a [u8]) -> TextLines<'a>
        ensures { result ≡ lines_of text.now }
    {
        TextLines { rest: Some(text) }
    }

    /// Takes the first line.
    pub fn next(&mut self) -> Option<&'a [u8]>
        ensures line { IfSome result (λ line. self.old ≡ line.now ∷ self.new) }
        ensures none { IfNone result (self.old ≡ []) }
    {
        let text = self.rest?;
        let size = line_length(text);
        if size == text.len() {
            self.rest = None;
            return Some(text);
        }
        let (line, rest) = text.split_at(size);
        self.rest = Some(&rest[1..]);
        Some(line)
    }
}

/// How many bytes stand before the first line feed.
fn line_length(text: &[u8]) -> usize
    ensures length { result ≡ position_or_len is_line_feed text.now }
    ensures within { result ≤ length text.now }
{
    match first_feed(text) {
        Some(place) => place,
        None => text.len(),
    }
}

fn first_feed(text: &[u8]) -> Option<usize>
    ensures first { result ≡ position is_line_feed text.now }
    ensures within { IfSome result (λ place. place < length text.now) }
{
    text.iter().position(|byte| *byte == b'\n')
}
