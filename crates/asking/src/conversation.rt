//! A client and the connection that it speaks over.

ghost use Rattle.std.specs.Prelude.{◌≡◌, ◌<◌, ◌∷◌, ◌++◌, [], List, ℕ, IfOk, IfSome, None, true};
ghost use Rattle.client_commands.specs.declared.command.Command.{Command};
ghost use Rattle.client_commands.specs.Commands.{CommandFits};
ghost use Rattle.rpc_client.specs.declared.ask.Ask.{Ask};
ghost use Rattle.rpc_client.specs.Clients.{IsIdle, new_client};
ghost use Rattle.rpc_client.specs.Progress.{to_feed, to_give};
ghost use Rattle.asking.specs.Asking.{Edges, edges};
ghost use Rattle.asking.specs.Conversations.{Gives, GivesNext, HaltsBy, IsAt, IsLater, IsPausedFor, IsResting, Rests};

use crate::connection::{Received, receive, send};
use crate::halt::Halt;
use edge_io::{Door, Failed, Sink, write_whole};
use rpc_client::{Ask, Client, Command};
use std::alloc::AllocError;

/// Why a client gives nothing.
#[derive(Clone, Copy, Debug, PartialEq, Eq)]
pub(crate) enum Pause {
    /// It awaits more of its peer's stream.
    Wait,
    /// A command may be started.
    Idle,
}

/// Binds, and asks for the root's handle.
pub(crate) fn begin<K: Sink, G: Door>(
    client: &mut Client,
    output: &mut K,
    door: &mut G,
) -> Result<(), Halt>
    requires new { client.old ≡ new_client }
    ensures rests { (origin : Edges) → IsAt origin [] [] [] client.old (edges (K.written output.old) (G.visits door.old))
        → Rests result origin [] client.new (edges (K.written output.new) (G.visits door.new)) }
    ensures idle { IfOk result (λ _. IsIdle client.new) }
    ensures later { IsLater (K.faults output.old) (K.faults output.new) (G.faults door.old) (G.faults door.new) }
    ensures cause { HaltsBy result (K.faults output.old) (K.faults output.new) (G.faults door.old) (G.faults door.new) }
{
    let bind = match client.open() {
        Ok(bind) => bind,
        Err(AllocError) => return Err(Halt::NoMemory),
    };
    match send(door, &bind) {
        Ok(()) => converse(client, output, door),
        Err(Failed) => Err(Halt::WriteFault),
    }
}

/// Carries out a command.
pub(crate) fn carry_out<K: Sink, G: Door>(
    client: &mut Client,
    command: Command,
    output: &mut K,
    door: &mut G,
) -> Result<(), Halt>
    requires idle { IsIdle client.old }
    requires fits { CommandFits command }
    ensures rests { (origin : Edges) (commands : List Command) → IsResting origin commands client.old (edges (K.written output.old) (G.visits door.old))
        → Rests result origin (commands ++ command ∷ []) client.new (edges (K.written output.new) (G.visits door.new)) }
    ensures idle { IfOk result (λ _. IsIdle client.new) }
    ensures later { IsLater (K.faults output.old) (K.faults output.new) (G.faults door.old) (G.faults door.new) }
    ensures cause { HaltsBy result (K.faults output.old) (K.faults output.new) (G.faults door.old) (G.faults door.new) }
{
    let request = match client.start(command) {
        Ok(request) => request,
        Err(AllocError) => return Err(Halt::NoMemory),
    };
    match send(door, &request) {
        Ok(()) => converse(client, output, door),
        Err(Failed) => Err(Halt::WriteFault),
    }
}

/// Feeds the client until nothing is awaited.
fn converse<K: Sink, G: Door>(client: &mut Client, output: &mut K, door: &mut G) -> Result<(), Halt>
    requires opened { client.old.opened ≡ true }
    ensures rests { (origin : Edges) (commands : List Command) (stream : List ℕ) (given : List Ask)
        → IsAt origin commands stream given client.old (edges (K.written output.old) (G.visits door.old))
        → Rests result origin commands client.new (edges (K.written output.new) (G.visits door.new)) }
    ensures idle { IfOk result (λ _. IsIdle client.new) }
    ensures later { IsLater (K.faults output.old) (K.faults output.new) (G.faults door.old) (G.faults door.new) }
    ensures cause { HaltsBy result (K.faults output.old) (K.faults output.new) (G.faults door.old) (G.faults door.new) }
{
    'pieces: loop {
        match give(client, output, door) {
            Ok(Pause::Wait) => {}
            Ok(Pause::Idle) => return Ok(()),
            Err(halt) => return Err(halt),
        }
        match receive(client, door) {
            Ok(Received::Piece) => {}
            Ok(Received::End) => return Err(Halt::BadReply {
                place: client.received(),
            }),
            Err(halt) => return Err(halt),
        }
    }
}

/// Prints and sends what the client gives, until it gives nothing.
fn give<K: Sink, G: Door>(client: &mut Client, output: &mut K, door: &mut G) -> Result<Pause, Halt>
    requires opened { client.old.opened ≡ true }
    ensures gives { (origin : Edges) (commands : List Command) (stream : List ℕ) (given : List Ask)
        → IsAt origin commands stream given client.old (edges (K.written output.old) (G.visits door.old))
        → Gives result origin commands stream client.new (edges (K.written output.new) (G.visits door.new)) }
    ensures opened { client.new.opened ≡ true }
    ensures paused { IfOk result (λ pause. IsPausedFor pause client.new) }
    ensures unfed { to_feed client.new ≡ to_feed client.old }
    ensures later { IsLater (K.faults output.old) (K.faults output.new) (G.faults door.old) (G.faults door.new) }
    ensures cause { HaltsBy result (K.faults output.old) (K.faults output.new) (G.faults door.old) (G.faults door.new) }
{
    'asks: loop {
        match give_next(client, output, door) {
            Ok(None) => {}
            Ok(Some(pause)) => return Ok(pause),
            Err(halt) => return Err(halt),
        }
    }
}

/// Prints or sends what the client gives next.
fn give_next<K: Sink, G: Door>(
    client: &mut Client,
    output: &mut K,
    door: &mut G,
) -> Result<Option<Pause>, Halt>
    requires opened { client.old.opened ≡ true }
    ensures gives { (origin : Edges) (commands : List Command) (stream : List ℕ) (given : List Ask)
        → IsAt origin commands stream given client.old (edges (K.written output.old) (G.visits door.old))
        → GivesNext result origin commands stream client.new (edges (K.written output.new) (G.visits door.new)) }
    ensures opened { client.new.opened ≡ true }
    ensures paused { IfOk result (λ pause. IfSome pause (λ pause. IsPausedFor pause client.new)) }
    ensures less { IfOk result (λ pause. pause ≡ None → to_give client.new < to_give client.old) }
    ensures unfed { to_feed client.new ≡ to_feed client.old }
    ensures later { IsLater (K.faults output.old) (K.faults output.new) (G.faults door.old) (G.faults door.new) }
    ensures cause { HaltsBy result (K.faults output.old) (K.faults output.new) (G.faults door.old) (G.faults door.new) }
{
    match client.next() {
        Ok(Ask::Line(line)) => match write_whole(output, line.as_slice()) {
            Ok(()) => Ok(None),
            Err(Failed) => Err(Halt::WriteFault),
        },
        Ok(Ask::Write(bytes)) => match send(door, bytes.as_slice()) {
            Ok(()) => Ok(None),
            Err(Failed) => Err(Halt::WriteFault),
        },
        Ok(Ask::Wait) => Ok(Some(Pause::Wait)),
        Ok(Ask::Idle) => Ok(Some(Pause::Idle)),
        Err(fault) => Err(Halt::from(fault)),
    }
}
