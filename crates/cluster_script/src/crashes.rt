//! The line of a crash, which has a line of its own.

ghost use Rattle.std.specs.Prelude.{◌≡◌, ◌≤◌, length, IfOk};
ghost use Rattle.cluster_worlds.specs.declared.event.Event.TheVariants.{DieIn};
ghost use Rattle.cluster_script.specs.declared.line.Line.TheVariants.{Step};
ghost use Rattle.cluster_script.specs.Fitting.{LineFits};
ghost use Rattle.cluster_script.specs.Grammar.{crash_line, inner_behind, inner_bind, inner_bytes, inner_checkpoint, inner_deliver, inner_hangup, inner_install, inner_request, inner_tick};
ghost use Rattle.cluster_script.specs.Reading.{reads};
ghost use Rattle.cluster_script.specs.Words.{Takes};

use crate::line::Line;
use crate::line_fault::LineFault;
use crate::players::unknown;
use crate::requests::{bind_bytes, request_bytes};
use crate::words::{MOST_BYTES, MOST_STUB, Words};
use cluster_worlds::{Event, Inner};
use std::alloc::Global;
use wire_fields::Octets;

#[tactic(auto, unfolding(crate::specs::Reading::reads, crate::specs::Grammar::crash_line))]
pub(crate) fn crash_line(alloc: Global, words: &mut Words<'_>) -> Result<Line, LineFault>
    ensures line { Takes (λ line. line) result (reads crash_line words.old) words.new }
    ensures fits { IfOk result LineFits }
{
    let moment = words.number(0, 64)?;
    let filling = words.octets(alloc, MOST_BYTES)?;
    let verb = words.word()?;
    inner_line(alloc, moment as u32, filling, verb, words)
}

#[tactic(auto, unfolding(crate::specs::Grammar::inner_behind))]
fn inner_line(
    alloc: Global,
    moment: u32,
    filling: Octets,
    verb: &[u8],
    words: &mut Words<'_>,
) -> Result<Line, LineFault>
    ensures line { Takes (λ line. line) result (reads (inner_behind moment filling verb.now) words.old) words.new }
    ensures fits { IfOk result LineFits }
{
    if verb == b"install".as_slice() {
        return inner_install(moment, filling, words);
    }
    if verb == b"bytes".as_slice() {
        return inner_bytes(alloc, moment, filling, words);
    }
    if verb == b"bind".as_slice() {
        return inner_bind(alloc, moment, filling, words);
    }
    if verb == b"request".as_slice() {
        return inner_request(alloc, moment, filling, words);
    }
    if verb == b"hangup".as_slice() {
        return inner_hangup(moment, filling, words);
    }
    if verb == b"deliver".as_slice() {
        return inner_deliver(moment, filling, words);
    }
    if verb == b"tick".as_slice() {
        return inner_tick(moment, filling, words);
    }
    if verb == b"checkpoint".as_slice() {
        return inner_checkpoint(moment, filling, words);
    }
    unknown(words)
}

#[tactic(auto, unfolding(crate::specs::Reading::reads, crate::specs::Grammar::inner_install))]
fn inner_install(moment: u32, filling: Octets, words: &mut Words<'_>) -> Result<Line, LineFault>
    ensures line { Takes (λ line. line) result (reads (inner_install moment filling) words.old) words.new }
    ensures fits { IfOk result LineFits }
{
    let node = words.node()?;
    let view = words.serial()?;
    Ok(dying(moment, filling, Inner::Install { node, view }))
}

#[tactic(auto, unfolding(crate::specs::Reading::reads, crate::specs::Grammar::inner_bytes))]
fn inner_bytes(
    alloc: Global,
    moment: u32,
    filling: Octets,
    words: &mut Words<'_>,
) -> Result<Line, LineFault>
    ensures line { Takes (λ line. line) result (reads (inner_bytes moment filling) words.old) words.new }
    ensures fits { IfOk result LineFits }
{
    let conn = words.serial()?;
    let piece = words.octets(alloc, MOST_BYTES)?;
    Ok(dying(moment, filling, Inner::Bytes { conn, piece }))
}

#[tactic(auto, unfolding(crate::specs::Reading::reads, crate::specs::Grammar::inner_bind))]
fn inner_bind(
    alloc: Global,
    moment: u32,
    filling: Octets,
    words: &mut Words<'_>,
) -> Result<Line, LineFault>
    ensures line { Takes (λ line. line) result (reads (inner_bind moment filling) words.old) words.new }
    ensures fits { IfOk result LineFits }
{
    let conn = words.serial()?;
    let piece = bind_bytes(alloc)?;
    Ok(dying(moment, filling, Inner::Bytes { conn, piece }))
}

#[tactic(auto, unfolding(crate::specs::Reading::reads, crate::specs::Grammar::inner_request))]
fn inner_request(
    alloc: Global,
    moment: u32,
    filling: Octets,
    words: &mut Words<'_>,
) -> Result<Line, LineFault>
    ensures line { Takes (λ line. line) result (reads (inner_request moment filling) words.old) words.new }
    ensures fits { IfOk result LineFits }
{
    let conn = words.serial()?;
    let opnum = words.opnum()?;
    let stub = words.octets(alloc, MOST_STUB)?;
    let piece = request_bytes(alloc, 0, opnum, &stub)?;
    Ok(dying(moment, filling, Inner::Bytes { conn, piece }))
}

#[tactic(auto, unfolding(crate::specs::Reading::reads, crate::specs::Grammar::inner_hangup))]
fn inner_hangup(moment: u32, filling: Octets, words: &mut Words<'_>) -> Result<Line, LineFault>
    ensures line { Takes (λ line. line) result (reads (inner_hangup moment filling) words.old) words.new }
    ensures fits { IfOk result LineFits }
{
    let conn = words.serial()?;
    Ok(dying(moment, filling, Inner::HangUp(conn)))
}

#[tactic(auto, unfolding(crate::specs::Reading::reads, crate::specs::Grammar::inner_deliver))]
fn inner_deliver(moment: u32, filling: Octets, words: &mut Words<'_>) -> Result<Line, LineFault>
    ensures line { Takes (λ line. line) result (reads (inner_deliver moment filling) words.old) words.new }
    ensures fits { IfOk result LineFits }
{
    let message = words.serial()?;
    Ok(dying(moment, filling, Inner::Deliver(message as u64)))
}

#[tactic(auto, unfolding(crate::specs::Reading::reads, crate::specs::Grammar::inner_tick))]
fn inner_tick(moment: u32, filling: Octets, words: &mut Words<'_>) -> Result<Line, LineFault>
    ensures line { Takes (λ line. line) result (reads (inner_tick moment filling) words.old) words.new }
    ensures fits { IfOk result LineFits }
{
    let node = words.node()?;
    Ok(dying(moment, filling, Inner::Tick(node)))
}

#[tactic(auto, unfolding(crate::specs::Reading::reads, crate::specs::Grammar::inner_checkpoint))]
fn inner_checkpoint(moment: u32, filling: Octets, words: &mut Words<'_>) -> Result<Line, LineFault>
    ensures line { Takes (λ line. line) result (reads (inner_checkpoint moment filling) words.old) words.new }
    ensures fits { IfOk result LineFits }
{
    let node = words.node()?;
    Ok(dying(moment, filling, Inner::Checkpoint(node)))
}

fn dying(moment: u32, bytes: Octets, inner: Inner) -> Line
    ensures { result ≡ Step (DieIn moment bytes inner) }
{
    Line::Step(Event::DieIn {
        moment,
        bytes,
        inner,
    })
}
