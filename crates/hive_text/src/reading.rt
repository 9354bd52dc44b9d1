//! A registry from its text.

ghost use Rattle.std.specs.Prelude.{◌≡◌, ◌≤◌, ◌↔◌, drop, length, IfErr, IfOk, IsTrue};
ghost use Rattle.registry_defs.specs.Contents.{IsCap};
ghost use Rattle.registry_defs.specs.Keys.{Keys};
ghost use Rattle.registry_defs.specs.Limits.{IsRegistry};
ghost use Rattle.registry_defs.specs.Sizes.{size};
ghost use Rattle.hive_text.specs.HiveText.{hive_text};
ghost use Rattle.hive_text.specs.TextFaults.{FailsOn, GivesText, IsTextOf};
ghost use Rattle.hive_text.specs.Told.{HasHead, NextIs, next_found, sized};
ghost use Rattle.hive_text.specs.Turns.{IsReading, Turns};
ghost use Rattle.hive_text.specs.Walks.{IsSound};

use crate::line::Line;
use crate::parsing::read_line;
use crate::text_fault::TextFault;
use crate::walk::Walk;
use crate::words::split_once;
use clus_registry::Registry;
use std::alloc::{AllocError, Global};

/// How long the first line is, which `print` writes too.
const HEAD_BYTES: usize = 7;

/// The registry whose text this is, with a size of at most so many bytes.
pub fn read(alloc: Global, text: &[u8], cap: u32) -> Result<Registry, TextFault>
    requires range { IsCap cap }
    // What is read is a registry within the cap, whose text this is.
    ensures found { IfOk result (IsTextOf cap text.now) }
    // The text of such a registry is read, unless memory runs out.
    ensures only { (keys : Keys) → IsRegistry keys → size keys ≤ cap → text.now ≡ hive_text keys → GivesText result keys }
    // Which line is at fault.
    ensures fault { IfErr result (FailsOn cap text.now) }
{
    read_text(alloc, text, cap)
}

fn read_text(alloc: Global, text: &[u8], cap: u32) -> Result<Registry, TextFault>
    requires range { IsCap cap }
    ensures found { IfOk result (IsTextOf cap text.now) }
    ensures fault { IfErr result (FailsOn cap text.now) }
{
    if !has_head(text) {
        return Err(TextFault::Bad { place: 0 });
    }
    read_root(alloc, text, cap)
}

fn has_head(text: &[u8]) -> bool
    ensures { IsTrue result ↔ HasHead text.now }
{
    HEAD_BYTES <= text.len() && &text[..HEAD_BYTES] == b"hive 1\n".as_slice()
}

fn read_root(alloc: Global, text: &[u8], cap: u32) -> Result<Registry, TextFault>
    requires range { IsCap cap }
    requires head { HasHead text.now }
    ensures found { IfOk result (IsTextOf cap text.now) }
    ensures fault { IfErr result (FailsOn cap text.now) }
{
    match next_line(alloc, &text[HEAD_BYTES..])? {
        Some((line, size)) => read_behind(alloc, line, size, text, cap),
        None => Err(TextFault::Bad { place: HEAD_BYTES }),
    }
}

/// Reads the lines behind the first key, whose line has so many bytes.
fn read_behind(
    alloc: Global,
    line: Line,
    size: usize,
    text: &[u8],
    cap: u32,
) -> Result<Registry, TextFault>
    requires range { IsCap cap }
    requires head { HasHead text.now }
    requires next { NextIs (drop 7 text.now) (next_found line size) }
    ensures found { IfOk result (IsTextOf cap text.now) }
    ensures fault { IfErr result (FailsOn cap text.now) }
{
    match Walk::start(alloc, cap as usize, line) {
        Some(walk) => read_lines(alloc, walk, text, HEAD_BYTES + size, cap),
        None => Err(TextFault::Bad { place: HEAD_BYTES }),
    }
}

/// Reads the lines from the place on.
fn read_lines(
    alloc: Global,
    walk: Walk,
    text: &[u8],
    start: usize,
    cap: u32,
) -> Result<Registry, TextFault>
    requires range { IsCap cap }
    requires reading { IsReading cap text.now start walk }
    requires within { start ≤ length text.now }
    ensures found { IfOk result (IsTextOf cap text.now) }
    ensures fault { IfErr result (FailsOn cap text.now) }
{
    let mut walk = walk;
    let mut place = start;
    'lines: while place < text.len() {
        match take_next(alloc, &mut walk, &text[place..])? {
            Some(size) => place += size,
            None => return Err(TextFault::Bad { place }),
        }
    }
    if !walk.ended {
        return Err(TextFault::Bad { place });
    }
    Ok(walk.finish(cap)?)
}

/// Takes the line with which the text begins, and tells how long it is; none where it can't stand there.
fn take_next(alloc: Global, walk: &mut Walk, rest: &[u8]) -> Result<Option<usize>, AllocError>
    requires { IsSound walk.old }
    ensures { Turns result walk.old rest.now walk.new }
{
    match next_line(alloc, rest)? {
        Some((line, size)) => {
            if walk.take(line)? {
                Ok(Some(size))
            } else {
                Ok(None)
            }
        }
        None => Ok(None),
    }
}

/// The line with which a text begins, and how long it is with its line feed.
fn next_line(alloc: Global, rest: &[u8]) -> Result<Option<(Line, usize)>, AllocError>
    ensures { IfOk result (NextIs rest.now) }
{
    match split_once(rest, b'\n') {
        Some((front, _)) => Ok(sized(read_line(alloc, front)?, front.len() + 1)),
        None => Ok(None),
    }
}

fn sized(line: Option<Line>, size: usize) -> Option<(Line, usize)>
    ensures { result ≡ sized size line }
{
    match line {
        Some(line) => Some((line, size)),
        None => None,
    }
}
