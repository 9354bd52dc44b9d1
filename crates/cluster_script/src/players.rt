//! The lines that say what a player of the script does.

ghost use Rattle.std.specs.Prelude.{◌≡◌, ◌≤◌, ◌++◌, [], length, IfOk};
ghost use Rattle.cluster_script.specs.Fitting.{LineFits};
ghost use Rattle.cluster_script.specs.Grammar.{bind_line, cap_line, pick_line, pump_line, request_line, misfit, show_line, skip_line};
ghost use Rattle.cluster_script.specs.Reading.{reads};
ghost use Rattle.cluster_script.specs.Words.{Takes};

use crate::line::Line;
use crate::line_fault::LineFault;
use crate::words::{MOST_STUB, Words};
use std::alloc::Global;

#[tactic(auto, unfolding(crate::specs::Reading::reads, crate::specs::Grammar::cap_line))]
pub(crate) fn cap_line(words: &mut Words<'_>) -> Result<Line, LineFault>
    ensures line { Takes (λ line. line) result (reads cap_line words.old) words.new }
    ensures fits { IfOk result LineFits }
{
    let cap = words.number(4_096, 16_777_216)?;
    Ok(Line::Cap(cap as u32))
}

#[tactic(auto, unfolding(crate::specs::Reading::reads, crate::specs::Grammar::pump_line))]
pub(crate) fn pump_line(words: &mut Words<'_>) -> Result<Line, LineFault>
    ensures line { Takes (λ line. line) result (reads pump_line words.old) words.new }
    ensures fits { IfOk result LineFits }
{
    let count = words.number(1, 65_536)?;
    Ok(Line::Pump(count as u32))
}

#[tactic(auto, unfolding(crate::specs::Reading::reads, crate::specs::Grammar::skip_line))]
pub(crate) fn skip_line(words: &mut Words<'_>) -> Result<Line, LineFault>
    ensures line { Takes (λ line. line) result (reads skip_line words.old) words.new }
    ensures fits { IfOk result LineFits }
{
    let count = words.number(1, 65_536)?;
    Ok(Line::Skip(count as u32))
}

#[tactic(auto, unfolding(crate::specs::Reading::reads, crate::specs::Grammar::pick_line))]
pub(crate) fn pick_line(words: &mut Words<'_>) -> Result<Line, LineFault>
    ensures line { Takes (λ line. line) result (reads pick_line words.old) words.new }
    ensures fits { IfOk result LineFits }
{
    let pick = words.number(0, 4_294_967_295)?;
    Ok(Line::Pick(pick as u32))
}

#[tactic(auto, unfolding(crate::specs::Reading::reads, crate::specs::Grammar::bind_line))]
pub(crate) fn bind_line(words: &mut Words<'_>) -> Result<Line, LineFault>
    ensures line { Takes (λ line. line) result (reads bind_line words.old) words.new }
    ensures fits { IfOk result LineFits }
{
    let conn = words.serial()?;
    Ok(Line::Bind(conn))
}

#[tactic(auto, unfolding(crate::specs::Reading::reads, crate::specs::Grammar::request_line))]
pub(crate) fn request_line(alloc: Global, words: &mut Words<'_>) -> Result<Line, LineFault>
    ensures line { Takes (λ line. line) result (reads request_line words.old) words.new }
    ensures fits { IfOk result LineFits }
{
    let conn = words.serial()?;
    let opnum = words.opnum()?;
    let stub = words.octets(alloc, MOST_STUB)?;
    Ok(Line::Request { conn, opnum, stub })
}

#[tactic(auto, unfolding(crate::specs::Reading::reads, crate::specs::Grammar::show_line))]
pub(crate) fn show_line(words: &mut Words<'_>) -> Result<Line, LineFault>
    ensures line { Takes (λ line. line) result (reads show_line words.old) words.new }
    ensures fits { IfOk result LineFits }
{
    let node = words.node()?;
    Ok(Line::Show(node))
}

/// A word with which no line begins.
#[tactic(auto, unfolding(crate::specs::Reading::reads))]
pub(crate) fn unknown(words: &mut Words<'_>) -> Result<Line, LineFault>
    ensures line { Takes (λ line. line) result (reads misfit words.old) words.new }
    ensures fits { IfOk result LineFits }
{
    Err(words.misfit())
}
