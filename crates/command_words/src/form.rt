//! The forms of a command.

ghost use Rattle.std.specs.Prelude.{◌≡◌, ◌↔◌, IfOk, IfSome, IsTrue, Some, map, option_map, slice_index, string_bytes};
ghost use Rattle.std.specs.List.{All};
ghost use Rattle.clap.specs.Words.{first_of, found_of, rows_of, subcommand_rows_of};
ghost use Rattle.command_words.specs.Forms.{HasForm, IsPlain, Texts, ask, format, text_in, texts_of};
ghost use Rattle.command_words.specs.Grammar.{drill_texts, serve_texts, session_texts, texts_by, texts_in};

use crate::grammar::matches_of;
use clap::ArgMatches;
use std::alloc::{AllocError, Global};

/// A form with its words.
#[derive(Clone, Copy, Debug, PartialEq, Eq)]
pub(crate) enum Form<'a> {
    Session {
        stamp: Option<&'a str>,
    },
    Serve {
        address: &'a str,
        count: &'a str,
        stamp: Option<&'a str>,
    },
    Replay,
    Drill {
        number: &'a str,
        events: &'a str,
    },
    Format {
        cap: &'a str,
    },
    Showlog,
    Export,
    Ask {
        address: &'a str,
    },
}

/// The form that the words have. clap would take `-` and what begins with it in other ways, so no such
/// word reaches it.
pub(crate) fn form_of<'a>(
    alloc: Global,
    words: &'a [String],
) -> Result<Option<Form<'a>>, AllocError>
    ensures found { IfOk result (λ found. IfSome found (λ form. HasForm (map string_bytes words.now) (texts_of form))) }
    ensures only { (texts : Texts) → HasForm (map string_bytes words.now) texts → IfOk result (λ found. option_map texts_of found ≡ Some texts) }
{
    if !are_plain(words) {
        return Ok(None);
    }
    match matches_of(alloc, words)? {
        Some(matches) => Ok(form_in(&matches)),
        None => Ok(None),
    }
}

/// Whether no word begins with `-`.
fn are_plain(words: &[String]) -> bool
    ensures { IsTrue result ↔ All IsPlain (map string_bytes words.now) }
{
    for word in words {
        if !is_plain(word.as_str()) {
            return false;
        }
    }
    true
}

fn is_plain(word: &str) -> bool
    ensures { IsTrue result ↔ IsPlain word.now }
{
    match word.as_bytes() {
        [first, ..] => *first != b'-',
        [] => true,
    }
}

fn form_in<'a>(matches: &ArgMatches<'a>) -> Option<Form<'a>>
    ensures { option_map texts_of result ≡ texts_in (subcommand_rows_of matches.now) }
{
    match matches.subcommand() {
        Some((name, given)) => form_by(name, given),
        None => None,
    }
}

fn form_by<'a>(name: &str, given: &ArgMatches<'a>) -> Option<Form<'a>>
    ensures { option_map texts_of result ≡ texts_by name.now (rows_of (found_of given.now)) }
{
    match name {
        "session" => session_form(word_for(given, "stamp")),
        "serve" => serve_form(
            word_for(given, "address"),
            word_for(given, "count"),
            word_for(given, "stamp"),
        ),
        "replay" => Some(Form::Replay),
        "drill" => drill_form(word_for(given, "number"), word_for(given, "events")),
        "format" => format_form(word_for(given, "cap")),
        "showlog" => Some(Form::Showlog),
        "export" => Some(Form::Export),
        "ask" => ask_form(word_for(given, "address")),
        _ => None,
    }
}

#[tactic(auto, using(crate::proofs::Rows::first_value_rows))]
fn word_for<'a>(given: &ArgMatches<'a>, id: &str) -> Option<&'a str>
    ensures { text_in result ≡ first_of id.now (rows_of (found_of given.now)) }
{
    given.get_str(id)
}

fn session_form<'a>(stamp: Option<&'a str>) -> Option<Form<'a>>
    ensures { option_map texts_of result ≡ session_texts (text_in stamp.entry) }
{
    Some(Form::Session { stamp })
}

fn serve_form<'a>(
    address: Option<&'a str>,
    count: Option<&'a str>,
    stamp: Option<&'a str>,
) -> Option<Form<'a>>
    ensures { option_map texts_of result ≡ serve_texts (text_in address.entry) (text_in count.entry) (text_in stamp.entry) }
{
    match (address, count) {
        (Some(address), Some(count)) => Some(Form::Serve {
            address,
            count,
            stamp,
        }),
        _ => None,
    }
}

fn drill_form<'a>(number: Option<&'a str>, events: Option<&'a str>) -> Option<Form<'a>>
    ensures { option_map texts_of result ≡ drill_texts (text_in number.entry) (text_in events.entry) }
{
    match (number, events) {
        (Some(number), Some(events)) => Some(Form::Drill { number, events }),
        _ => None,
    }
}

fn format_form<'a>(cap: Option<&'a str>) -> Option<Form<'a>>
    ensures { option_map texts_of result ≡ option_map format (text_in cap.entry) }
{
    match cap {
        Some(cap) => Some(Form::Format { cap }),
        None => None,
    }
}

fn ask_form<'a>(address: Option<&'a str>) -> Option<Form<'a>>
    ensures { option_map texts_of result ≡ option_map ask (text_in address.entry) }
{
    match address {
        Some(address) => Some(Form::Ask { address }),
        None => None,
    }
}
