//! What the node tells the connection that is present at the door is sent to it.

ghost use Rattle.std.specs.Prelude.{◌≡◌, ◌<◌, ◌≤◌};
ghost use Rattle.single_items.specs.Events.{told_by, told_to};
ghost use Rattle.single_server.specs.Talking.{Says, Sends};

use cluster_rules::Effect;
use edge_io::{Door, Failed};

/// Sends the replies to a connection in their order, unless a write of it has failed; `is_broken` says so.
pub(crate) fn send_replies<G: Door>(
    door: &mut G,
    conn: u32,
    effects: &[Effect],
    is_broken: &mut bool,
)
    ensures says { Says (told_to conn effects.now) is_broken.old is_broken.new (G.visits door.old) (G.visits door.new) }
    ensures accepts { (G.faults door.new).accept ≡ (G.faults door.old).accept }
{
    'effects: for effect in effects {
        send_reply(door, conn, effect, is_broken);
    }
}

fn send_reply<G: Door>(door: &mut G, conn: u32, effect: &Effect, is_broken: &mut bool)
    ensures says { Says (told_by conn effect.now) is_broken.old is_broken.new (G.visits door.old) (G.visits door.new) }
    ensures accepts { (G.faults door.new).accept ≡ (G.faults door.old).accept }
{
    match effect {
        Effect::Reply {
            conn: to,
            bytes,
            ..
        } if *to == conn => { send_if_whole(door, bytes.as_slice(), is_broken) }
        _ => {}
    }
}

/// Nothing more is sent once a write has failed.
fn send_if_whole<G: Door>(door: &mut G, bytes: &[u8], is_broken: &mut bool)
    ensures says { Says bytes.now is_broken.old is_broken.new (G.visits door.old) (G.visits door.new) }
    ensures accepts { (G.faults door.new).accept ≡ (G.faults door.old).accept }
{
    if *is_broken {
        return;
    }
    match send(door, bytes) {
        Ok(()) => {}
        Err(Failed) => *is_broken = true,
    }
}

/// Sends all of `bytes`, or stops at the first write that fails, when a front of them is sent.
fn send<G: Door>(door: &mut G, bytes: &[u8]) -> Result<(), Failed>
    ensures sends { Sends result bytes.now (G.visits door.old) (G.visits door.new) }
    ensures accepts { (G.faults door.new).accept ≡ (G.faults door.old).accept }
{
    let mut done = 0;
    'pieces: while done < bytes.len() {
        match door.write(&bytes[done..]) {
            Ok(count) => done += count,
            Err(Failed) => return Err(Failed),
        }
    }
    Ok(())
}
