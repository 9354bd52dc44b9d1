//! A generated script that is played.

ghost use Rattle.std.specs.Prelude.{◌≡◌, ◌≤◌, IfOk};
ghost use Rattle.causes.specs.Counts.{Rose};
ghost use Rattle.script_player.specs.Bounds.{EndsTo};
ghost use Rattle.script_player.specs.Replaying.{Drills, counts_of};
ghost use Rattle.script_text.specs.Ends.{drill_line};

use crate::nowhere::Nowhere;
use crate::player::Player;
use crate::replayed::Replayed;
use crate::replaying::play_lines;
use edge_io::{Failed, Sink, write_whole};
use script_generator::generate;
use script_text::{Counts, print_drill};
use std::alloc::{AllocError, Global};

/// Plays the script that this number generates, of so many rounds, and prints one line: how often values of each kind were
/// told.
pub fn drill<K: Sink>(alloc: Global, number: u64, count: u32, output: &mut K) -> Replayed
    requires rounds { count ≤ 100_000 }
    ensures drills { Drills result number count (K.written output.old) (K.written output.new) }
    ensures later { K.faults output.old ≤ K.faults output.new }
    ensures cause { result ≡ Replayed.WriteFault → Rose (K.faults output.old) (K.faults output.new) }
{
    let script = match generate(alloc, number, count) {
        Ok(script) => script,
        Err(AllocError) => return Replayed::NoMemory,
    };
    let mut stage = None;
    match play_lines(alloc, &script, &mut stage, &mut Nowhere) {
        Ok(()) => print_counts(alloc, number, count, &stage, output),
        Err(replayed) => replayed,
    }
}

/// Prints the counts of the run.
fn print_counts<K: Sink>(
    alloc: Global,
    number: u64,
    count: u32,
    stage: &Option<Player>,
    output: &mut K,
) -> Replayed
    ensures ends { EndsTo result (drill_line number count (counts_of stage.now)) (K.written output.old) (K.written output.new) }
    ensures later { K.faults output.old ≤ K.faults output.new }
    ensures cause { result ≡ Replayed.WriteFault → Rose (K.faults output.old) (K.faults output.new) }
{
    let counts = counts_of(stage);
    let line = match print_drill(alloc, number, count, &counts) {
        Ok(line) => line,
        Err(AllocError) => return Replayed::NoMemory,
    };
    match write_whole(output, line.as_bytes()) {
        Ok(()) => Replayed::Done,
        Err(Failed) => Replayed::WriteFault,
    }
}

fn counts_of(stage: &Option<Player>) -> Counts
    ensures { result ≡ counts_of stage.now }
{
    match stage {
        None => Counts::new(),
        Some(player) => player.counts(),
    }
}
