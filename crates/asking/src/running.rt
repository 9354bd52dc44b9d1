//! A client's commands, line by line.

ghost use Rattle.std.specs.Prelude.{◌≡◌, ◌<◌, ◌≤◌, ◌^◌, ◌++◌, [], List, ℕ, IfOk, IfErr, Option, length};
ghost use Rattle.client_commands.specs.declared.command.Command.{Command};
ghost use Rattle.client_commands.specs.Commands.{command_of};
ghost use Rattle.edge_io.specs.Visits.{Visits};
ghost use Rattle.rpc_client.specs.Clients.{IsIdle};
ghost use Rattle.asking.specs.Asking.{Comes, Edges, HasCauses, Runs, counts, edges};
ghost use Rattle.asking.specs.Connections.{HasExchanged};
ghost use Rattle.asking.specs.Conversations.{EndsBy, IsLater, IsResting, RunsLine, StopsBy, parted};
ghost use Rattle.asking.specs.Inputs.{Parsed, line_first, most_input, parsed};
ghost use Rattle.asking.specs.Meetings.{Talks};

use crate::asked::Asked;
use crate::conversation::{begin, carry_out};
use crate::text_lines::TextLines;
use edge_io::{Door, Failed, ReadAll, Sink, Source, read_whole};
use rpc_client::{Client, CommandFault, parse_command};
use std::alloc::Global;

/// The most bytes that an input may have.
const MOST_INPUT: usize = 16_777_216;

/// Reads the commands of the input, a line each, and carries them out over the next connection of the door, which it ends. The lines
/// of a reply are printed as soon as it came.
///
/// The whole input is read first; then the connection is accepted, bound, and the root's handle asked for; then the lines are read one
/// by one. So behind a line outside the grammar the results of those before it are printed.
pub fn ask_peer<S: Source, K: Sink, G: Door>(
    alloc: Global,
    input: &mut S,
    output: &mut K,
    door: &mut G,
) -> Asked
    ensures runs { Runs result (S.left input.old) (S.left input.new)
        (edges (K.written output.old) (G.visits door.old)) (edges (K.written output.new) (G.visits door.new)) }
    ensures causes { HasCauses result
        (counts (S.faults input.old) (K.faults output.old) (G.faults door.old)) (counts (S.faults input.new) (K.faults output.new) (G.faults door.new)) }
{
    let text = match read_whole(alloc, input, MOST_INPUT) {
        ReadAll::Bytes(text) => text,
        ReadAll::TooLong => return Asked::TooLong,
        ReadAll::Failed => return Asked::ReadFault,
        ReadAll::Memory => return Asked::NoMemory,
    };
    match door.accept() {
        Ok(true) => {}
        Ok(false) => return Asked::NoPeer,
        Err(Failed) => return Asked::ReadFault,
    }
    let asked = run_text(alloc, &text, output, door);
    door.hang_up();
    asked
}

/// Carries out the commands of the text over the connection that is present.
fn run_text<K: Sink, G: Door>(alloc: Global, text: &[u8], output: &mut K, door: &mut G) -> Asked
    requires short { length text.now ≤ most_input }
    ensures comes { (first : Option Visits) → Talks (HasExchanged [] []) first (G.visits door.old)
        → Comes result (parsed text.now) (edges (K.written output.old) first) (parted (edges (K.written output.new) (G.visits door.new))) }
    ensures later { IsLater (K.faults output.old) (K.faults output.new) (G.faults door.old) (G.faults door.new) }
    ensures cause { StopsBy result (K.faults output.old) (K.faults output.new) (G.faults door.old) (G.faults door.new) }
{
    let mut client = Client::new(alloc);
    match begin(&mut client, output, door) {
        Ok(()) => run_lines(alloc, text, &mut client, output, door),
        Err(halt) => Asked::from(halt),
    }
}

fn run_lines<K: Sink, G: Door>(
    alloc: Global,
    text: &[u8],
    client: &mut Client,
    output: &mut K,
    door: &mut G,
) -> Asked
    requires idle { IsIdle client.old }
    requires short { length text.now ≤ most_input }
    ensures comes { (origin : Edges) → IsResting origin [] client.old (edges (K.written output.old) (G.visits door.old))
        → Comes result (parsed text.now) origin (parted (edges (K.written output.new) (G.visits door.new))) }
    ensures later { IsLater (K.faults output.old) (K.faults output.new) (G.faults door.old) (G.faults door.new) }
    ensures cause { StopsBy result (K.faults output.old) (K.faults output.new) (G.faults door.old) (G.faults door.new) }
{
    let mut lines = TextLines::new(text);
    let mut number = 0;
    'lines: loop {
        let Some(line) = lines.next() else {
            return Asked::Done;
        };
        number += 1;
        match run_line(alloc, number, line, client, output, door) {
            Ok(()) => {}
            Err(asked) => return asked,
        }
    }
}

/// Carries out the command that the line says, if it says one.
fn run_line<K: Sink, G: Door>(
    alloc: Global,
    number: u32,
    line: &[u8],
    client: &mut Client,
    output: &mut K,
    door: &mut G,
) -> Result<(), Asked>
    requires idle { IsIdle client.old }
    ensures runs { (origin : Edges) (commands : List Command) (others : Parsed) → IsResting origin commands client.old (edges (K.written output.old) (G.visits door.old))
        → RunsLine result origin commands (line_first number (command_of line.now) others) others client.new (edges (K.written output.new) (G.visits door.new)) }
    ensures idle { IfOk result (λ _. IsIdle client.new) }
    ensures later { IsLater (K.faults output.old) (K.faults output.new) (G.faults door.old) (G.faults door.new) }
    ensures cause { EndsBy result (K.faults output.old) (K.faults output.new) (G.faults door.old) (G.faults door.new) }
{
    let command = match parse_command(alloc, line) {
        Ok(Some(command)) => command,
        Ok(None) => return Ok(()),
        Err(CommandFault::Column(column)) => return Err(Asked::BadCommand {
            line: number,
            column,
        }),
        Err(CommandFault::Memory) => return Err(Asked::NoMemory),
    };
    match carry_out(client, command, output, door) {
        Ok(()) => Ok(()),
        Err(halt) => Err(Asked::from(halt)),
    }
}
