//! A script that is read from a source, and played.

ghost use Rattle.std.specs.Prelude.{◌≡◌, ◌≤◌, ℕ, suc, None, Err, IfOk, OnErr, OnOk, length, string_bytes};
ghost use Rattle.causes.specs.Counts.{Rose};
ghost use Rattle.registry_defs.specs.Contents.{IsCap};
ghost use Rattle.cluster_script.specs.Fitting.{LineFits};
ghost use Rattle.cluster_worlds.specs.Runs.{IsOpening};
ghost use Rattle.cluster_worlds.specs.Worlds.{WorldState};
ghost use Rattle.script_player.specs.Bounds.{EndsTo, HasRoomFor, LineTo, LinesTo, PlaysTo, ReadsTo};
ghost use Rattle.script_player.specs.Playing.{first_play};
ghost use Rattle.script_player.specs.Replaying.{ComesOf, HasCauses, Replays, edges};
ghost use Rattle.script_player.specs.Scripts.{end_of, most_script};
ghost use Rattle.text_lines.specs.Lines.{lines_of};

use crate::disk::new_disk;
use crate::player::Player;
use crate::replayed::Replayed;
use crate::script_fault::ScriptFault;
use crate::stop::Stop;
use cluster_script::{Line, parse_line};
use edge_io::{Failed, ReadAll, Sink, Source, read_whole, write_whole};
use script_text::print_end;
use std::alloc::{AllocError, Global};
use text_lines::TextLines;

/// The most bytes that a script may have.
const MOST_SCRIPT: usize = 16_777_216;

/// Plays the script that the input has, over a disk of its own, and prints what happens.
///
/// The whole input is read first. What a line prints is written before the next line is played, so behind a bad line the
/// output of those before it stands.
pub fn replay<S: Source, K: Sink>(alloc: Global, input: &mut S, output: &mut K) -> Replayed
    ensures replays { Replays result (edges (S.left input.old) (K.written output.old)) (edges (S.left input.new) (K.written output.new)) }
    ensures causes { HasCauses result (S.faults input.old) (S.faults input.new) (K.faults output.old) (K.faults output.new) }
{
    let text = match read_whole(alloc, input, MOST_SCRIPT) {
        ReadAll::Bytes(text) => text,
        ReadAll::TooLong => return Replayed::TooLong,
        ReadAll::Failed => return Replayed::ReadFault,
        ReadAll::Memory => return Replayed::NoMemory,
    };
    replay_text(alloc, &text, output)
}

/// Plays the lines of the text, and prints how the run ended.
fn replay_text<K: Sink>(alloc: Global, text: &[u8], output: &mut K) -> Replayed
    requires short { length text.now ≤ most_script }
    ensures comes { ComesOf result (lines_of text.now) (K.written output.old) (K.written output.new) }
    ensures later { K.faults output.old ≤ K.faults output.new }
    ensures cause { result ≡ Replayed.WriteFault → Rose (K.faults output.old) (K.faults output.new) }
{
    let mut stage = None;
    match play_lines(alloc, text, &mut stage, output) {
        Ok(()) => print_last(alloc, &stage, output),
        Err(replayed) => replayed,
    }
}

/// Plays the lines of the text one after the other.
pub(crate) fn play_lines<K: Sink>(
    alloc: Global,
    text: &[u8],
    stage: &mut Option<Player>,
    output: &mut K,
) -> Result<(), Replayed>
    requires few { length (lines_of text.now) ≤ 16_777_217 }
    requires unbegun { stage.old ≡ None }
    ensures lines { LinesTo result (lines_of text.now) stage.new (K.written output.old) (K.written output.new) }
    ensures later { K.faults output.old ≤ K.faults output.new }
    ensures cause { OnErr result (result ≡ Err Replayed.WriteFault → Rose (K.faults output.old) (K.faults output.new)) }
{
    let mut lines = TextLines::new(text);
    let mut number = 0;
    'lines: loop {
        let Some(line) = lines.next() else {
            return Ok(());
        };
        number += 1;
        match play_one(alloc, number, line, stage, output) {
            Ok(()) => {}
            Err(replayed) => return Err(replayed),
        }
    }
}

/// Plays a line, and writes what it prints.
fn play_one<K: Sink>(
    alloc: Global,
    number: u32,
    line: &[u8],
    stage: &mut Option<Player>,
    output: &mut K,
) -> Result<(), Replayed>
    requires room { HasRoomFor 1 stage.old }
    ensures plays { LineTo result number line.now stage.old stage.new (K.written output.old) (K.written output.new) }
    ensures room { (lines : ℕ) → HasRoomFor (suc lines) stage.old → OnOk result (HasRoomFor lines stage.new) }
    ensures later { K.faults output.old ≤ K.faults output.new }
    ensures cause { result ≡ Err Replayed.WriteFault → Rose (K.faults output.old) (K.faults output.new) }
{
    let printed = match play_line(alloc, line, stage) {
        Ok(printed) => printed,
        Err(Stop::Bad(fault)) => return Err(Replayed::BadScript {
            line: number,
            fault,
        }),
        Err(Stop::Memory) => return Err(Replayed::NoMemory),
    };
    match write_whole(output, &printed) {
        Ok(()) => Ok(()),
        Err(Failed) => Err(Replayed::WriteFault),
    }
}

/// Plays a line, and answers what it prints.
fn play_line(alloc: Global, line: &[u8], stage: &mut Option<Player>) -> Result<Vec<u8>, Stop>
    requires room { HasRoomFor 1 stage.old }
    ensures reads { ReadsTo stage.old line.now result stage.new }
    ensures room { (lines : ℕ) → HasRoomFor (suc lines) stage.old → OnOk result (HasRoomFor lines stage.new) }
{
    let line = match parse_line(alloc, line) {
        Ok(line) => line,
        Err(fault) => return Err(Stop::from(fault)),
    };
    play_parsed(alloc, &line, stage)
}

fn play_parsed(alloc: Global, line: &Line, stage: &mut Option<Player>) -> Result<Vec<u8>, Stop>
    requires fits { LineFits line.now }
    requires room { HasRoomFor 1 stage.old }
    ensures plays { PlaysTo stage.old line.now result stage.new }
    ensures room { (lines : ℕ) → HasRoomFor (suc lines) stage.old → OnOk result (HasRoomFor lines stage.new) }
{
    match stage {
        Some(player) => player.play(line),
        None => begin(alloc, line, stage),
    }
}

/// Nothing is played before the `cap` line.
fn begin(alloc: Global, line: &Line, stage: &mut Option<Player>) -> Result<Vec<u8>, Stop>
    requires fits { LineFits line.now }
    requires unbegun { stage.old ≡ None }
    ensures plays { PlaysTo None line.now result stage.new }
    ensures room { (lines : ℕ) → HasRoomFor (suc lines) None → OnOk result (HasRoomFor lines stage.new) }
{
    match line {
        Line::Empty => Ok(Vec::new(alloc)),
        Line::Cap(cap) => {
            let player = first_player(alloc, *cap)?;
            *stage = Some(player);
            Ok(Vec::new(alloc))
        }
        _ => Err(Stop::Bad(ScriptFault::Column(1))),
    }
}

/// A player over a disk of its own, with an empty log of this capacity.
fn first_player(alloc: Global, cap: u32) -> Result<Player, AllocError>
    requires { IsCap cap }
    ensures { IfOk result (λ player. (first : WorldState) × IsOpening cap first × (player ≡ first_play first)) }
{
    let disk = new_disk(alloc, cap)?;
    Player::new(alloc, disk)
}

/// Prints how the run ended.
fn print_last<K: Sink>(alloc: Global, stage: &Option<Player>, output: &mut K) -> Replayed
    ensures ends { EndsTo result (end_of stage.now) (K.written output.old) (K.written output.new) }
    ensures later { K.faults output.old ≤ K.faults output.new }
    ensures cause { result ≡ Replayed.WriteFault → Rose (K.faults output.old) (K.faults output.new) }
{
    let line = match last_line(alloc, stage) {
        Ok(line) => line,
        Err(AllocError) => return Replayed::NoMemory,
    };
    match write_whole(output, line.as_bytes()) {
        Ok(()) => Replayed::Done,
        Err(Failed) => Replayed::WriteFault,
    }
}

fn last_line(alloc: Global, stage: &Option<Player>) -> Result<String, AllocError>
    ensures { IfOk result (λ line. string_bytes line ≡ end_of stage.now) }
{
    match stage {
        None => print_end(alloc, 0, 0),
        Some(player) => print_end(alloc, player.order(), player.acks()),
    }
}
