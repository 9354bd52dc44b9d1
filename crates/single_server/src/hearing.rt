//! A piece of a connection's stream.

ghost use Rattle.std.specs.Prelude.{◌≡◌, ◌≢◌, ◌≤◌, [], List, ℕ, IfErr};
ghost use Rattle.causes.specs.Counts.{Rose};
ghost use Rattle.disk_core.specs.Calls.{SameDisk};
ghost use Rattle.cluster_rules.specs.declared.effect.Effect as effect;
ghost use Rattle.cluster_node.specs.States.{HasRoom};
ghost use Rattle.single_server.specs.Hearing.{Beginning, Heard, HearsAll, IsHeard};

use crate::delivering::deliver_all;
use crate::ended::Ended;
use crate::replying::write_replies;
use disk_core::Disk;
use edge_io::{Failed, Sink};
use single_node::Single;
use std::alloc::AllocError;

/// The node hears the piece, and then all that it sends to itself. The replies of each event are written before the next one.
pub(crate) fn hear<K: Sink, D: Disk>(
    single: &mut Single,
    conn: u32,
    piece: &[u8],
    output: &mut K,
    disk: &mut D,
) -> Result<(), Ended>
    requires alone { IsHeard conn single.old (D.view disk.old) }
    requires quiet { single.old.left ≡ [] }
    requires room { HasRoom single.old.node (D.view disk.old) }
    ensures hears { (b : Beginning) (stream : List ℕ) (told : List effect.Effect) → Heard conn b stream told single.old (D.view disk.old)
        → HearsAll result conn b stream piece.now told single.new (D.view disk.new) (K.written output.old) (K.written output.new) }
    ensures read { IfErr result (λ ended. ended ≢ Ended.ReadFault) }
    ensures room { HasRoom single.new.node (D.view disk.new) }
    ensures same_disk { SameDisk (D.view disk.old) (D.view disk.new) }
    ensures later { K.faults output.old ≤ K.faults output.new }
    ensures write { IfErr result (λ ended. ended ≡ Ended.WriteFault → Rose (K.faults output.old) (K.faults output.new)) }
{
    let effects = match single.bytes(conn, piece) {
        Ok(effects) => effects,
        Err(AllocError) => return Err(Ended::NoMemory),
    };
    match write_replies(output, conn, effects.as_slice()) {
        Ok(()) => {}
        Err(Failed) => return Err(Ended::WriteFault),
    }
    deliver_all(single, conn, output, disk)
}
