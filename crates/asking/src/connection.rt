//! The connection that is present at the door.

ghost use Rattle.std.specs.Prelude.{◌≡◌, ◌<◌, ◌≤◌, IfOk};
ghost use Rattle.causes.specs.Counts.{HasCause};
ghost use Rattle.rpc_client.specs.Progress.{IsOpen, to_feed};
ghost use Rattle.asking.specs.declared.connection.Received.TheVariants.{Piece};
ghost use Rattle.asking.specs.Conversations.{HaltsBy, Receives};
ghost use Rattle.asking.specs.Meetings.{Sends};

use crate::halt::Halt;
use edge_io::{Door, Failed};
use rpc_calls::FeedFault;
use rpc_client::Client;

/// How many bytes are read at once.
const PIECE: usize = 4096;

/// What a read of the connection comes to.
#[derive(Clone, Copy, Debug, PartialEq, Eq)]
pub(crate) enum Received {
    /// The client was fed what was read.
    Piece,
    /// The peer's stream is at its end.
    End,
}

/// Sends all of `bytes`, or stops at the first write that fails, when a prefix of them is sent.
pub(crate) fn send<G: Door>(door: &mut G, bytes: &[u8]) -> Result<(), Failed>
    ensures sends { Sends bytes.now result (G.visits door.old) (G.visits door.new) }
    ensures accepts { (G.faults door.new).accept ≡ (G.faults door.old).accept }
    ensures reads { (G.faults door.new).read ≡ (G.faults door.old).read }
    ensures cause { HasCause (G.faults door.old).write (G.faults door.new).write result }
{
    let mut done = 0;
    'pieces: while done < bytes.len() {
        done += door.write(&bytes[done..])?;
    }
    Ok(())
}

/// Reads the next piece of the peer's stream and feeds the client.
pub(crate) fn receive<G: Door>(client: &mut Client, door: &mut G) -> Result<Received, Halt>
    requires open { IsOpen client.old }
    ensures receives { Receives result client.old client.new (G.visits door.old) (G.visits door.new) }
    ensures opened { client.new.opened ≡ client.old.opened }
    ensures less { IfOk result (λ received. received ≡ Piece → to_feed client.new < to_feed client.old) }
    ensures accepts { (G.faults door.new).accept ≡ (G.faults door.old).accept }
    ensures later { (G.faults door.old).read ≤ (G.faults door.new).read }
    ensures writes { (G.faults door.new).write ≡ (G.faults door.old).write }
    ensures cause { HaltsBy result 0 0 (G.faults door.old) (G.faults door.new) }
{
    let mut buffer = [0u8; PIECE];
    let count = match door.read(&mut buffer) {
        Ok(count) => count,
        Err(Failed) => return Err(Halt::ReadFault),
    };
    if count == 0 {
        return Ok(Received::End);
    }
    match client.feed(&buffer[..count]) {
        Ok(()) => Ok(Received::Piece),
        Err(FeedFault::Backlog) => unreachable!(),
        Err(FeedFault::Memory) => Err(Halt::NoMemory),
    }
}
