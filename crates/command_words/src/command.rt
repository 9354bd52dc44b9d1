//! A command with its numbers.

ghost use Rattle.std.specs.Prelude.{◌≡◌, ◌≤◌, ◌<◌, ℕ, IfOk, IfSome, Some, map, option_map, string_bytes};
ghost use Rattle.std.specs.Fmt.{decimal};
ghost use Rattle.command_words.specs.Commands.{Asked, Asks, IsBetween, Says, asked_by};
ghost use Rattle.command_words.specs.Forms.{text_in, texts_of};
ghost use Rattle.command_words.specs.Forms as forms;

use crate::form::{Form, form_of};
use crate::number::number;
use std::alloc::{AllocError, Global};

/// What the words ask for. A stamp that isn't given is 0.
#[derive(Clone, Copy, Debug, PartialEq, Eq)]
pub enum Command<'a> {
    /// `session [STAMP]`
    Session {
        stamp: Option<u64>,
    },
    /// `serve ADDR COUNT [STAMP]`
    Serve {
        address: &'a str,
        count: u16,
        stamp: Option<u64>,
    },
    /// `replay`
    Replay,
    /// `drill NUMBER EVENTS`
    Drill {
        number: u64,
        events: u32,
    },
    /// `format CAP`
    Format {
        cap: u32,
    },
    /// `showlog`
    Showlog,
    /// `export`
    Export,
    /// `ask ADDR`
    Ask {
        address: &'a str,
    },
}

/// The command that the words ask for; none where they are the words of no command.
pub fn command_of<'a>(alloc: Global, words: &'a [String]) -> Result<Option<Command<'a>>, AllocError>
    ensures found { IfOk result (λ found. IfSome found (λ command. Asks (map string_bytes words.now) (asked_by command))) }
    ensures only { (asked : Asked) → Asks (map string_bytes words.now) asked → IfOk result (λ found. option_map asked_by found ≡ Some asked) }
{
    match form_of(alloc, words)? {
        Some(form) => Ok(read(form)),
        None => Ok(None),
    }
}

/// The command of that form, where its numbers are in their ranges.
fn read<'a>(form: Form<'a>) -> Option<Command<'a>>
    ensures found { IfSome result (λ command. Says (texts_of form.entry) (asked_by command)) }
    ensures only { (asked : Asked) → Says (texts_of form.entry) asked → option_map asked_by result ≡ Some asked }
{
    match form {
        Form::Session { stamp } => read_session(stamp),
        Form::Serve {
            address,
            count,
            stamp,
        } => read_serve(address, count, stamp),
        Form::Replay => Some(Command::Replay),
        Form::Drill { number, events } => read_drill(number, events),
        Form::Format { cap } => read_format(cap),
        Form::Showlog => Some(Command::Showlog),
        Form::Export => Some(Command::Export),
        Form::Ask { address } => Some(Command::Ask { address }),
    }
}

fn read_session<'a>(stamp: Option<&'a str>) -> Option<Command<'a>>
    ensures found { IfSome result (λ command. Says (forms.session (text_in stamp.entry)) (asked_by command)) }
    ensures only { (asked : Asked) → Says (forms.session (text_in stamp.entry)) asked → option_map asked_by result ≡ Some asked }
{
    match stamp {
        None => Some(Command::Session { stamp: None }),
        Some(stamp) => Some(Command::Session {
            stamp: Some(number(stamp)?),
        }),
    }
}

fn read_serve<'a>(address: &'a str, count: &'a str, stamp: Option<&'a str>) -> Option<Command<'a>>
    ensures found { IfSome result (λ command. Says (forms.serve address.entry.now count.entry.now (text_in stamp.entry)) (asked_by command)) }
    ensures only { (asked : Asked) → Says (forms.serve address.entry.now count.entry.now (text_in stamp.entry)) asked
        → option_map asked_by result ≡ Some asked }
{
    let count = between(count, 1, 65_535)? as u16;
    match stamp {
        None => Some(Command::Serve {
            address,
            count,
            stamp: None,
        }),
        Some(stamp) => Some(Command::Serve {
            address,
            count,
            stamp: Some(number(stamp)?),
        }),
    }
}

fn read_drill<'a>(number_word: &'a str, events_word: &'a str) -> Option<Command<'a>>
    ensures found { IfSome result (λ command. Says (forms.drill number_word.entry.now events_word.entry.now) (asked_by command)) }
    ensures only { (asked : Asked) → Says (forms.drill number_word.entry.now events_word.entry.now) asked → option_map asked_by result ≡ Some asked }
{
    let number = number(number_word)?;
    let events = between(events_word, 1, 100_000)?;
    Some(Command::Drill { number, events })
}

fn read_format<'a>(cap: &'a str) -> Option<Command<'a>>
    ensures found { IfSome result (λ command. Says (forms.format cap.entry.now) (asked_by command)) }
    ensures only { (asked : Asked) → Says (forms.format cap.entry.now) asked → option_map asked_by result ≡ Some asked }
{
    let cap = between(cap, 4096, 16_777_216)?;
    Some(Command::Format { cap })
}

/// The number that the word writes, where it is neither below `least` nor above `most`.
fn between(word: &str, least: u32, most: u32) -> Option<u32>
    ensures found { IfSome result (λ number. (word.now ≡ decimal number) × IsBetween least most number) }
    ensures only { (number : ℕ) → word.now ≡ decimal number → IsBetween least most number → result ≡ Some number }
{
    match number(word) {
        Some(number) if number >= least as u64 && number <= most as u64 => Some(number as u32),
        _ => None,
    }
}
