//! The lines that are events of a world.

ghost use Rattle.std.specs.Prelude.{◌≡◌, ◌≤◌, ◌++◌, [], length, IfOk};
ghost use Rattle.cluster_script.specs.Fitting.{LineFits};
ghost use Rattle.cluster_script.specs.Grammar.{batch_line, bytes_line, checkpoint_line, clock_line, connect_line, deliver_line, die_line, fail_line, hangup_line, install_line, start_line, tick_line};
ghost use Rattle.cluster_script.specs.Reading.{reads};
ghost use Rattle.cluster_script.specs.Words.{Takes};

use crate::line::Line;
use crate::line_fault::LineFault;
use crate::words::{MOST_BYTES, Words};
use cluster_worlds::Event;
use std::alloc::Global;

#[tactic(auto, unfolding(crate::specs::Reading::reads, crate::specs::Grammar::start_line))]
pub(crate) fn start_line(words: &mut Words<'_>) -> Result<Line, LineFault>
    ensures line { Takes (λ line. line) result (reads start_line words.old) words.new }
    ensures fits { IfOk result LineFits }
{
    let node = words.node()?;
    Ok(Line::Step(Event::Start(node)))
}

#[tactic(auto, unfolding(crate::specs::Reading::reads, crate::specs::Grammar::die_line))]
pub(crate) fn die_line(words: &mut Words<'_>) -> Result<Line, LineFault>
    ensures line { Takes (λ line. line) result (reads die_line words.old) words.new }
    ensures fits { IfOk result LineFits }
{
    let node = words.node()?;
    Ok(Line::Step(Event::Die(node)))
}

#[tactic(auto, unfolding(crate::specs::Reading::reads, crate::specs::Grammar::tick_line))]
pub(crate) fn tick_line(words: &mut Words<'_>) -> Result<Line, LineFault>
    ensures line { Takes (λ line. line) result (reads tick_line words.old) words.new }
    ensures fits { IfOk result LineFits }
{
    let node = words.node()?;
    Ok(Line::Step(Event::Tick(node)))
}

#[tactic(auto, unfolding(crate::specs::Reading::reads, crate::specs::Grammar::checkpoint_line))]
pub(crate) fn checkpoint_line(words: &mut Words<'_>) -> Result<Line, LineFault>
    ensures line { Takes (λ line. line) result (reads checkpoint_line words.old) words.new }
    ensures fits { IfOk result LineFits }
{
    let node = words.node()?;
    Ok(Line::Step(Event::Checkpoint(node)))
}

#[tactic(auto, unfolding(crate::specs::Reading::reads, crate::specs::Grammar::install_line))]
pub(crate) fn install_line(words: &mut Words<'_>) -> Result<Line, LineFault>
    ensures line { Takes (λ line. line) result (reads install_line words.old) words.new }
    ensures fits { IfOk result LineFits }
{
    let node = words.node()?;
    let view = words.serial()?;
    Ok(Line::Step(Event::Install { node, view }))
}

#[tactic(auto, unfolding(crate::specs::Reading::reads, crate::specs::Grammar::connect_line))]
pub(crate) fn connect_line(words: &mut Words<'_>) -> Result<Line, LineFault>
    ensures line { Takes (λ line. line) result (reads connect_line words.old) words.new }
    ensures fits { IfOk result LineFits }
{
    let conn = words.serial()?;
    let node = words.node()?;
    Ok(Line::Step(Event::Connect { conn, node }))
}

#[tactic(auto, unfolding(crate::specs::Reading::reads, crate::specs::Grammar::bytes_line))]
pub(crate) fn bytes_line(alloc: Global, words: &mut Words<'_>) -> Result<Line, LineFault>
    ensures line { Takes (λ line. line) result (reads bytes_line words.old) words.new }
    ensures fits { IfOk result LineFits }
{
    let conn = words.serial()?;
    let piece = words.octets(alloc, MOST_BYTES)?;
    Ok(Line::Step(Event::Bytes { conn, piece }))
}

#[tactic(auto, unfolding(crate::specs::Reading::reads, crate::specs::Grammar::hangup_line))]
pub(crate) fn hangup_line(words: &mut Words<'_>) -> Result<Line, LineFault>
    ensures line { Takes (λ line. line) result (reads hangup_line words.old) words.new }
    ensures fits { IfOk result LineFits }
{
    let conn = words.serial()?;
    Ok(Line::Step(Event::HangUp(conn)))
}

#[tactic(auto, unfolding(crate::specs::Reading::reads, crate::specs::Grammar::deliver_line))]
pub(crate) fn deliver_line(words: &mut Words<'_>) -> Result<Line, LineFault>
    ensures line { Takes (λ line. line) result (reads deliver_line words.old) words.new }
    ensures fits { IfOk result LineFits }
{
    let message = words.serial()?;
    Ok(Line::Step(Event::Deliver(message as u64)))
}

#[tactic(auto, unfolding(crate::specs::Reading::reads, crate::specs::Grammar::fail_line))]
pub(crate) fn fail_line(words: &mut Words<'_>) -> Result<Line, LineFault>
    ensures line { Takes (λ line. line) result (reads fail_line words.old) words.new }
    ensures fits { IfOk result LineFits }
{
    let call = words.number(1, 1_000)?;
    Ok(Line::Step(Event::Fail(call as u32)))
}

#[tactic(auto, unfolding(crate::specs::Reading::reads, crate::specs::Grammar::clock_line))]
pub(crate) fn clock_line(words: &mut Words<'_>) -> Result<Line, LineFault>
    ensures line { Takes (λ line. line) result (reads clock_line words.old) words.new }
    ensures fits { IfOk result LineFits }
{
    let node = words.node()?;
    let stamp = words.number(0, u64::MAX)?;
    Ok(Line::Step(Event::Clock { node, stamp }))
}

#[tactic(auto, unfolding(crate::specs::Reading::reads, crate::specs::Grammar::batch_line))]
pub(crate) fn batch_line(alloc: Global, words: &mut Words<'_>) -> Result<Line, LineFault>
    ensures line { Takes (λ line. line) result (reads batch_line words.old) words.new }
    ensures fits { IfOk result LineFits }
{
    let node = words.node()?;
    let update = words.batch(alloc)?;
    Ok(Line::Step(Event::Batch { node, update }))
}
