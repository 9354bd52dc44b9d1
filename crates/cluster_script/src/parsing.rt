//! Lines of a script.

ghost use Rattle.std.specs.Prelude.{◌≡◌, ◌≤◌, length, IfErr, IfOk, Ok};
ghost use Rattle.cluster_script.specs.declared.line.Line.{Line};
ghost use Rattle.cluster_script.specs.Fitting.{LineFits};
ghost use Rattle.cluster_script.specs.Grammar.{event_behind, line_behind, player_behind, verb};
ghost use Rattle.cluster_script.specs.Lines.{IsFault, IsLine};
ghost use Rattle.cluster_script.specs.Reading.{is_remark, line_at, line_of, reads, start};
ghost use Rattle.cluster_script.specs.Words.{Gives, Takes, most};

use crate::crashes::crash_line;
use crate::events::{
    batch_line, bytes_line, checkpoint_line, clock_line, connect_line, deliver_line, die_line,
    fail_line, hangup_line, install_line, start_line, tick_line,
};
use crate::line::Line;
use crate::line_fault::LineFault;
use crate::players::{
    bind_line, cap_line, pick_line, pump_line, request_line, show_line, skip_line, unknown,
};
use crate::views::view_line;
use crate::words::{MOST_BYTES, Words};
use std::alloc::Global;

/// What a line says. The text is without its line feed.
pub fn parse_line(alloc: Global, text: &[u8]) -> Result<Line, LineFault>
    // What is read is a line, and says that.
    ensures found { IfOk result (λ line. IsLine text.now line) }
    // What is a line is read, unless memory runs out.
    ensures only { (line : Line) → IsLine text.now line → Gives (λ line. line) result (Ok line) }
    // Where a text that is no line is at fault.
    ensures fault { IfErr result (λ fault. IsFault text.now fault) }
    ensures fits { IfOk result LineFits }
{
    read_text(alloc, text)
}

#[tactic(auto, unfolding(crate::specs::Reading::line_of))]
fn read_text(alloc: Global, text: &[u8]) -> Result<Line, LineFault>
    ensures line { Gives (λ line. line) result (line_of text.now) }
    ensures fits { IfOk result LineFits }
{
    if text.len() > MOST_BYTES {
        return Err(LineFault::Column(MOST_BYTES as u32 + 1));
    }
    if is_remark(text) {
        return Ok(Line::Empty);
    }
    read_line(alloc, text)
}

/// Whether the line says nothing.
fn is_remark(text: &[u8]) -> bool
    ensures { result ≡ is_remark text.now }
{
    match text {
        [] => true,
        [first, ..] => *first == b'#',
    }
}

#[tactic(auto, unfolding(crate::specs::Reading::line_at))]
fn read_line(alloc: Global, text: &[u8]) -> Result<Line, LineFault>
    requires { length text.now ≤ most }
    ensures line { Gives (λ line. line) result (line_at (start text.now)) }
    ensures fits { IfOk result LineFits }
{
    let mut words = Words::new(text);
    let line = whole_line(alloc, &mut words)?;
    words.end()?;
    Ok(line)
}

#[tactic(auto, unfolding(crate::specs::Reading::reads))]
fn whole_line(alloc: Global, words: &mut Words<'_>) -> Result<Line, LineFault>
    ensures line { Takes (λ line. line) result (reads (verb line_behind) words.old) words.new }
    ensures fits { IfOk result LineFits }
{
    let verb = words.word()?;
    line_by(alloc, verb, words)
}

/// The line that begins with this word.
#[tactic(auto, unfolding(crate::specs::Grammar::line_behind))]
fn line_by(alloc: Global, verb: &[u8], words: &mut Words<'_>) -> Result<Line, LineFault>
    ensures line { Takes (λ line. line) result (reads (line_behind verb.now) words.old) words.new }
    ensures fits { IfOk result LineFits }
{
    if verb == b"start".as_slice() {
        return start_line(words);
    }
    if verb == b"die".as_slice() {
        return die_line(words);
    }
    if verb == b"tick".as_slice() {
        return tick_line(words);
    }
    if verb == b"checkpoint".as_slice() {
        return checkpoint_line(words);
    }
    if verb == b"install".as_slice() {
        return install_line(words);
    }
    if verb == b"clock".as_slice() {
        return clock_line(words);
    }
    if verb == b"batch".as_slice() {
        return batch_line(alloc, words);
    }
    event_by(alloc, verb, words)
}

/// An event that is none of one node, or what a player does.
#[tactic(auto, unfolding(crate::specs::Grammar::event_behind))]
fn event_by(alloc: Global, verb: &[u8], words: &mut Words<'_>) -> Result<Line, LineFault>
    ensures line { Takes (λ line. line) result (reads (event_behind verb.now) words.old) words.new }
    ensures fits { IfOk result LineFits }
{
    if verb == b"view".as_slice() {
        return view_line(alloc, words);
    }
    if verb == b"connect".as_slice() {
        return connect_line(words);
    }
    if verb == b"bytes".as_slice() {
        return bytes_line(alloc, words);
    }
    if verb == b"hangup".as_slice() {
        return hangup_line(words);
    }
    if verb == b"deliver".as_slice() {
        return deliver_line(words);
    }
    if verb == b"fail".as_slice() {
        return fail_line(words);
    }
    if verb == b"crash".as_slice() {
        return crash_line(alloc, words);
    }
    player_by(alloc, verb, words)
}

/// What a player of the script does.
#[tactic(auto, unfolding(crate::specs::Grammar::player_behind))]
fn player_by(alloc: Global, verb: &[u8], words: &mut Words<'_>) -> Result<Line, LineFault>
    ensures line { Takes (λ line. line) result (reads (player_behind verb.now) words.old) words.new }
    ensures fits { IfOk result LineFits }
{
    if verb == b"cap".as_slice() {
        return cap_line(words);
    }
    if verb == b"bind".as_slice() {
        return bind_line(words);
    }
    if verb == b"request".as_slice() {
        return request_line(alloc, words);
    }
    if verb == b"pump".as_slice() {
        return pump_line(words);
    }
    if verb == b"skip".as_slice() {
        return skip_line(words);
    }
    if verb == b"pick".as_slice() {
        return pick_line(words);
    }
    if verb == b"show".as_slice() {
        return show_line(words);
    }
    unknown(words)
}
