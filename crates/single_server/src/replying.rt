//! What the node tells a connection is written.

ghost use Rattle.std.specs.Prelude.{◌≡◌, OnOk, OnErr};
ghost use Rattle.causes.specs.Counts.{HasCause};
ghost use Rattle.causes.specs.Writing.{Wrote, WroteSome};
ghost use Rattle.single_items.specs.Events.{told_by, told_to};

use cluster_rules::Effect;
use edge_io::{Failed, Sink, write_whole};

/// Writes the replies to a connection in their order, or stops at the first write that fails.
pub(crate) fn write_replies<K: Sink>(
    output: &mut K,
    conn: u32,
    effects: &[Effect],
) -> Result<(), Failed>
    ensures whole { OnOk result (Wrote (K.written output.old) (K.written output.new) (told_to conn effects.now)) }
    ensures prefix { OnErr result (WroteSome (K.written output.old) (K.written output.new) (told_to conn effects.now)) }
    ensures cause { HasCause (K.faults output.old) (K.faults output.new) result }
{
    'effects: for effect in effects {
        match write_reply(output, conn, effect) {
            Ok(()) => {}
            Err(Failed) => return Err(Failed),
        }
    }
    Ok(())
}

fn write_reply<K: Sink>(output: &mut K, conn: u32, effect: &Effect) -> Result<(), Failed>
    ensures whole { OnOk result (Wrote (K.written output.old) (K.written output.new) (told_by conn effect.now)) }
    ensures prefix { OnErr result (WroteSome (K.written output.old) (K.written output.new) (told_by conn effect.now)) }
    ensures cause { HasCause (K.faults output.old) (K.faults output.new) result }
{
    match effect {
        Effect::Reply {
            conn: to,
            bytes,
            ..
        } if *to == conn => { write_whole(output, bytes.as_slice()) }
        _ => Ok(()),
    }
}
