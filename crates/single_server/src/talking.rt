//! The connection that is present at the door: what the node hears of it, piece by piece.

ghost use Rattle.std.specs.Prelude.{◌≡◌, ◌≢◌, ◌≤◌, ◌<◌, ◌++◌, ℕ, List, [], Some, true, is_some, IfOk, IfErr};
ghost use Rattle.disk_core.specs.Calls.{SameDisk};
ghost use Rattle.wire_fields.specs.Numbers.{IsBytes};
ghost use Rattle.cluster_rules.specs.declared.effect.Effect as effect;
ghost use Rattle.cluster_rules.specs.declared.effect.HaltCause as halt;
ghost use Rattle.cluster_node.specs.States.{HasRoom, client_in};
ghost use Rattle.single_node.specs.Singles as singles;
ghost use Rattle.single_server.specs.Hearing.{Beginning, Heard, IsHeard};
ghost use Rattle.single_server.specs.Session.{Starts, most_stream};
ghost use Rattle.single_server.specs.Talking.{ConversesAt, DeliversAt, HearsAt, QueuesOwn, Reads, StepsOn, StepsTo, TellsAt};

use crate::delivering::halted;
use crate::ended::Ended;
use crate::running::{MOST_STREAM, PIECE, Piece};
use crate::sending::send_replies;
use cluster_rules::{Effect, HaltCause};
use disk_core::Disk;
use edge_io::{Door, Failed};
use single_node::Single;
use std::alloc::AllocError;

/// What hearing the oldest message comes to.
#[derive(Clone, Copy, Debug)]
pub(crate) enum Step {
    /// There was none.
    Rests,
    GoesOn,
    Halts(HaltCause),
    RunsOut,
}

/// The stream of the connection is heard, until it ends, a read or a write fails, or the node has closed the connection.
pub(crate) fn converse<D: Disk, G: Door>(
    single: &mut Single,
    conn: u32,
    disk: &mut D,
    door: &mut G,
) -> Result<(), Ended>
    requires alone { IsHeard conn single.old (D.view disk.old) }
    requires quiet { single.old.left ≡ [] }
    requires connected { is_some (client_in conn single.old.node) ≡ true }
    requires room { HasRoom single.old.node (D.view disk.old) }
    ensures converses { (b : Beginning) → Starts conn b single.old (D.view disk.old)
        → ConversesAt result conn b single.new (D.view disk.new) (G.visits door.old) (G.visits door.new) }
    ensures queues { IfOk result (λ _. QueuesOwn conn single.old.node single.new.node) }
    ensures ends { IfErr result (λ ended. (ended ≢ Ended.ReadFault) × (ended ≢ Ended.WriteFault)) }
    ensures room { HasRoom single.new.node (D.view disk.new) }
    ensures accepts { (G.faults door.new).accept ≡ (G.faults door.old).accept }
    ensures same_disk { SameDisk (D.view disk.old) (D.view disk.new) }
{
    let mut taken = 0;
    let mut is_broken = false;
    'pieces: loop {
        let mut buffer = [0u8; PIECE];
        let size = match read_piece(door, &mut buffer, taken) {
            Piece::Bytes(size) => size,
            Piece::End => return Ok(()),
            Piece::Fails => return Ok(()),
        };
        match hear(single, conn, &buffer[..size], disk, door, &mut is_broken) {
            Ok(()) => {}
            Err(ended) => return Err(ended),
        }
        if is_broken {
            return Ok(());
        }
        if !single.is_connected(conn) {
            return Ok(());
        }
        taken += size as u64;
    }
}

/// Reads a piece of the connection behind so many bytes.
fn read_piece<G: Door>(door: &mut G, buffer: &mut [u8; PIECE], taken: u64) -> Piece
    requires { taken ≤ most_stream }
    ensures reads { Reads result taken buffer.new (G.visits door.old) (G.visits door.new) }
    ensures accepts { (G.faults door.new).accept ≡ (G.faults door.old).accept }
{
    match door.read(buffer) {
        Ok(size) => {
            if size == 0 || MOST_STREAM - taken < size as u64 {
                return Piece::End;
            }
            Piece::Bytes(size)
        }
        Err(Failed) => Piece::Fails,
    }
}

/// The node hears the piece, and then all that it sends to itself. The replies of each event are sent before the next one.
fn hear<D: Disk, G: Door>(
    single: &mut Single,
    conn: u32,
    piece: &[u8],
    disk: &mut D,
    door: &mut G,
    is_broken: &mut bool,
) -> Result<(), Ended>
    requires alone { IsHeard conn single.old (D.view disk.old) }
    requires quiet { single.old.left ≡ [] }
    requires connected { is_some (client_in conn single.old.node) ≡ true }
    requires room { HasRoom single.old.node (D.view disk.old) }
    ensures hears { (b : Beginning) (stream : List ℕ) (told : List effect.Effect) → Heard conn b stream told single.old (D.view disk.old)
        → HearsAt result conn b stream piece.now told single.new (D.view disk.new) is_broken.old is_broken.new (G.visits door.old) (G.visits door.new) }
    ensures bytes { IsBytes piece.now }
    ensures queues { IfOk result (λ _. QueuesOwn conn single.old.node single.new.node) }
    ensures ends { IfErr result (λ ended. (ended ≢ Ended.ReadFault) × (ended ≢ Ended.WriteFault)) }
    ensures room { HasRoom single.new.node (D.view disk.new) }
    ensures accepts { (G.faults door.new).accept ≡ (G.faults door.old).accept }
    ensures same_disk { SameDisk (D.view disk.old) (D.view disk.new) }
{
    let effects = match single.bytes(conn, piece) {
        Ok(effects) => effects,
        Err(AllocError) => return Err(Ended::NoMemory),
    };
    send_replies(door, conn, effects.as_slice(), is_broken);
    deliver_all(single, conn, disk, door, is_broken)
}

/// Until none of its messages is left.
fn deliver_all<D: Disk, G: Door>(
    single: &mut Single,
    conn: u32,
    disk: &mut D,
    door: &mut G,
    is_broken: &mut bool,
) -> Result<(), Ended>
    requires alone { IsHeard conn single.old (D.view disk.old) }
    requires room { HasRoom single.old.node (D.view disk.old) }
    ensures delivers { (b : Beginning) (stream : List ℕ) (told : List effect.Effect) → Heard conn b stream told single.old (D.view disk.old)
        → DeliversAt result conn b stream told single.old single.new (D.view disk.new) is_broken.old is_broken.new (G.visits door.old) (G.visits door.new) }
    ensures still { IfOk result (λ _. single.old.left ≡ [] → single.new ≡ single.old) }
    ensures queues { IfOk result (λ _. QueuesOwn conn single.old.node single.new.node) }
    ensures ends { IfErr result (λ ended. (ended ≢ Ended.ReadFault) × (ended ≢ Ended.WriteFault)) }
    ensures room { HasRoom single.new.node (D.view disk.new) }
    ensures accepts { (G.faults door.new).accept ≡ (G.faults door.old).accept }
    ensures same_disk { SameDisk (D.view disk.old) (D.view disk.new) }
{
    'messages: loop {
        match deliver_one(single, conn, disk, door, is_broken) {
            Step::Rests => return Ok(()),
            Step::GoesOn => {}
            Step::Halts(cause) => return Err(Ended::by_halt(cause)),
            Step::RunsOut => return Err(Ended::NoMemory),
        }
    }
}

fn deliver_one<D: Disk, G: Door>(
    single: &mut Single,
    conn: u32,
    disk: &mut D,
    door: &mut G,
    is_broken: &mut bool,
) -> Step
    requires alone { IsHeard conn single.old (D.view disk.old) }
    requires room { HasRoom single.old.node (D.view disk.old) }
    ensures steps { (b : Beginning) (stream : List ℕ) (told : List effect.Effect) → Heard conn b stream told single.old (D.view disk.old)
        → StepsTo result conn b stream told single.new (D.view disk.new) is_broken.old is_broken.new (G.visits door.old) (G.visits door.new)
        × StepsOn result conn stream single.old single.new }
    ensures room { HasRoom single.new.node (D.view disk.new) }
    ensures accepts { (G.faults door.new).accept ≡ (G.faults door.old).accept }
    ensures same_disk { SameDisk (D.view disk.old) (D.view disk.new) }
{
    match single.deliver(disk) {
        Ok(None) => Step::Rests,
        Ok(Some(effects)) => tell(
            door,
            conn,
            effects.as_slice(),
            single.is_stopped(),
            is_broken,
        ),
        Err(AllocError) => Step::RunsOut,
    }
}

/// What the node tells of a message is sent, unless it has stopped.
fn tell<G: Door>(
    door: &mut G,
    conn: u32,
    effects: &[Effect],
    is_stopped: bool,
    is_broken: &mut bool,
) -> Step
    requires cause { is_stopped ≡ true → (cause : halt.HaltCause) × (singles.halt_cause effects.now ≡ Some cause) }
    ensures tells { TellsAt result conn effects.now is_stopped is_broken.old is_broken.new (G.visits door.old) (G.visits door.new) }
    ensures accepts { (G.faults door.new).accept ≡ (G.faults door.old).accept }
{
    if is_stopped {
        return Step::Halts(halted(effects));
    }
    send_replies(door, conn, effects, is_broken);
    Step::GoesOn
}
