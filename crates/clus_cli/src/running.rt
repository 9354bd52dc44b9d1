//! The top call.

ghost use Rattle.std.specs.Prelude.{◌≡◌, ◌≢◌, ◌<◌, ◌≤◌, ◌↔◌, ◌⊎◌, ℕ, List, Option, IsTrue, map, string_bytes};
ghost use Rattle.causes.specs.Counts.{Rose};
ghost use Rattle.asking.specs.Asking.{edges};
ghost use Rattle.command_words.specs.Commands.{IsCap};
ghost use Rattle.script_player.specs.Replaying as script;
ghost use Rattle.single_runs.specs.BadLogs.{IsBadLog};
ghost use Rattle.clus_cli.specs.Asking.{AskRuns};
ghost use Rattle.clus_cli.specs.Commands.{AsksSession, AsksSomeSession, AsksServe, AsksSomeServe, AsksNode, AsksReplay, AsksDrill, AsksSomeDrill};
ghost use Rattle.clus_cli.specs.Commands.{AsksFormat, AsksSomeFormat, AsksShowlog, AsksExport, AsksSomePeer};
ghost use Rattle.clus_cli.specs.Commands.{AsksOfDisk, AsksOfInput, AsksOfOutput, AsksOfDoor, AsksNothing, FormatRuns, IsUnbegun, stamp_of};
ghost use Rattle.clus_cli.specs.Ends.{Ends, outside};
ghost use Rattle.clus_cli.specs.Export.{ExportRuns};
ghost use Rattle.clus_cli.specs.Runs.{DoorRuns, SessionRuns};
ghost use Rattle.clus_cli.specs.Scripts.{DrillRuns, ReplayRuns};
ghost use Rattle.clus_cli.specs.Showlog.{EndsAtBad, ShowRuns};

use crate::exporting::export_log;
use crate::peer::ask;
use crate::scripts::{drill_script, replay_script};
use crate::serving::{serve_door, serve_stream};
use crate::showing::show_log;
use crate::status::Status;
use clus_registry::EMPTY_STATE;
use command_words::{Command, command_of};
use disk_core::{Disk, DiskFault};
use edge_io::{Door, Sink, Source};
use quorum_log::format;
use std::alloc::{AllocError, Global};

/// Runs the command that the words give (without the program's name), over any input, output, disk and
/// door.
///
/// `session` and `serve` run node 1 over the log of the disk, which is made where the disk is blank. `session` reads one recorded
/// client stream, piece by piece, and writes the answers to the items of each piece before it reads the next. `serve ADDR COUNT`
/// does so for COUNT connections of the door at most, one after another. Each update is a record of the log before it is answered,
/// with the stamp of the words, or 0. `replay` plays the script of a cluster that the input has, over a disk of its own, and prints
/// what happens; `drill NUMBER EVENTS` plays a script that it generates, and prints how often values of each kind were told.
/// `format CAP` makes an empty log for a registry of at most CAP bytes, also over an old log. `showlog` prints the log, and `export`
/// its registry as text. `ask ADDR` reads a client's commands from the input, carries them out over the next connection of the door,
/// and prints their results. Where memory runs out before the command is known, nothing is touched.
pub fn run<S: Source, K: Sink, D: Disk, G: Door>(
    alloc: Global,
    words: &[String],
    input: &mut S,
    output: &mut K,
    disk: &mut D,
    door: &mut G,
) -> Status
    requires disk_size { 34_209_856 ≤ (D.view disk.old).size }
    ensures ends { Ends (map string_bytes words.now) result
        (outside (S.faults input.old) (K.faults output.old) (G.faults door.old) (D.view disk.old))
        (outside (S.faults input.new) (K.faults output.new) (G.faults door.new) (D.view disk.new)) }
    ensures session { (stamp : Option ℕ) → AsksSession (map string_bytes words.now) stamp →
        SessionRuns (stamp_of stamp) result (S.left input.old) (S.left input.new) (K.written output.old) (K.written output.new) (D.view disk.old) (D.view disk.new)
        ⊎ (IsUnbegun result (D.view disk.old) (D.view disk.new) × (S.left input.new ≡ S.left input.old) × (K.written output.new ≡ K.written output.old)) }
    ensures serve { (address : List ℕ) (count : ℕ) (stamp : Option ℕ) → AsksServe (map string_bytes words.now) address count stamp →
        DoorRuns (stamp_of stamp) count result (G.visits door.old) (G.visits door.new) (D.view disk.old) (D.view disk.new)
        ⊎ (IsUnbegun result (D.view disk.old) (D.view disk.new) × (G.visits door.new ≡ G.visits door.old)) }
    ensures replay { AsksReplay (map string_bytes words.now) → ReplayRuns result
        (script.edges (S.left input.old) (K.written output.old)) (script.edges (S.left input.new) (K.written output.new)) }
    ensures drill { (number events : ℕ) → AsksDrill (map string_bytes words.now) number events →
        DrillRuns number events result (K.written output.old) (K.written output.new) }
    ensures format { (cap : ℕ) → AsksFormat (map string_bytes words.now) cap →
        FormatRuns cap (D.view disk.old) result (D.view disk.new) ⊎ IsUnbegun result (D.view disk.old) (D.view disk.new) }
    ensures showlog { AsksShowlog (map string_bytes words.now) →
        ShowRuns (D.view disk.old) (K.written output.old) result (D.view disk.new) (K.written output.new)
        ⊎ (IsUnbegun result (D.view disk.old) (D.view disk.new) × (K.written output.new ≡ K.written output.old)) }
    ensures export { AsksExport (map string_bytes words.now) →
        ExportRuns (D.view disk.old) (K.written output.old) result (D.view disk.new) (K.written output.new)
        ⊎ (IsUnbegun result (D.view disk.old) (D.view disk.new) × (K.written output.new ≡ K.written output.old)) }
    ensures ask { AsksSomePeer (map string_bytes words.now) →
        AskRuns result (S.left input.old) (S.left input.new)
        (edges (K.written output.old) (G.visits door.old)) (edges (K.written output.new) (G.visits door.new)) }
    ensures usage { result ≡ Status.Usage → AsksNothing (map string_bytes words.now) }
    ensures nothing { AsksNothing (map string_bytes words.now) → (result ≡ Status.Usage) ⊎ (result ≡ Status.NoMemory) }
    ensures unread { ¬ AsksOfInput (map string_bytes words.now) → S.left input.new ≡ S.left input.old }
    ensures silent { ¬ AsksOfOutput (map string_bytes words.now) → K.written output.new ≡ K.written output.old }
    ensures untouched { ¬ AsksOfDisk (map string_bytes words.now) → D.view disk.new ≡ D.view disk.old }
    ensures unvisited { ¬ AsksOfDoor (map string_bytes words.now) → (G.visits door.new ≡ G.visits door.old) × (G.faults door.new ≡ G.faults door.old) }
    ensures read { AsksSomeSession (map string_bytes words.now) → result ≡ Status.ReadFault → Rose (S.faults input.old) (S.faults input.new) }
    ensures accept { AsksSomeServe (map string_bytes words.now) → result ≡ Status.ReadFault → Rose (G.faults door.old).accept (G.faults door.new).accept }
    ensures write { result ≡ Status.WriteFault → Rose (K.faults output.old) (K.faults output.new)
        ⊎ (AsksSomePeer (map string_bytes words.now) × Rose (G.faults door.old).write (G.faults door.new).write) }
    ensures disk { result ≡ Status.DiskFault → Rose (D.view disk.old).faults (D.view disk.new).faults }
    ensures bad_log { (place : ℕ) → AsksNode (map string_bytes words.now) → IsTrue (D.view disk.old).tells
        → IsBadLog (D.view disk.old).current.seen (D.view disk.old).size place → EndsAtBad place result }
    ensures unchanged { (place : ℕ) → result ≡ Status.BadLog place → IsTrue (D.view disk.old).tells → (D.view disk.new).current.seen ≡ (D.view disk.old).current.seen }
    ensures fenced { (held : ℕ) → result ≡ Status.Fenced held →
        AsksOfDisk (map string_bytes words.now) × (1 < (D.view disk.old).current.held) × (held ≡ (D.view disk.old).current.held) }
    ensures fences { AsksOfDisk (map string_bytes words.now) → 1 < (D.view disk.old).current.held →
        (result ≡ Status.Fenced ((D.view disk.old).current.held)) ⊎ IsUnbegun result (D.view disk.old) (D.view disk.new) }
{
    match command_of(alloc, words) {
        Ok(Some(command)) => match command {
            Command::Session { stamp } => serve_stream(alloc, stamp, input, output, disk),
            Command::Serve { count, stamp, .. } => serve_door(alloc, stamp, count, disk, door),
            Command::Replay => replay_script(alloc, input, output),
            Command::Drill { number, events } => drill_script(alloc, number, events, output),
            Command::Format { cap } => format_log(disk, cap),
            Command::Showlog => show_log(alloc, output, disk),
            Command::Export => export_log(alloc, output, disk),
            Command::Ask { .. } => ask(alloc, input, output, door),
        },
        Ok(None) => Status::Usage,
        Err(AllocError) => Status::NoMemory,
    }
}

fn format_log<D: Disk>(disk: &mut D, cap: u32) -> Status
    requires cap { IsCap cap }
    requires disk_size { 34_209_856 ≤ (D.view disk.old).size }
    ensures { FormatRuns cap (D.view disk.old) result (D.view disk.new) }
{
    match format(disk, 1, cap, &EMPTY_STATE) {
        Ok(()) => Status::Done,
        Err(DiskFault::Failed) => Status::DiskFault,
        Err(DiskFault::Fenced { held }) => Status::Fenced { held },
    }
}
