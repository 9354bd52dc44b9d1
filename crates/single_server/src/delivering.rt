//! The node hears what it sent to itself, and what it tells the connection is written behind each message.

ghost use Rattle.std.specs.Prelude.{◌≡◌, ◌≢◌, ◌≤◌, [], List, ℕ, Some, true, IfErr, IfOk};
ghost use Rattle.causes.specs.Counts.{Rose};
ghost use Rattle.disk_core.specs.Calls.{SameDisk};
ghost use Rattle.cluster_rules.specs.declared.effect.Effect as effect;
ghost use Rattle.cluster_rules.specs.declared.effect.HaltCause as halt;
ghost use Rattle.cluster_node.specs.States.{HasRoom};
ghost use Rattle.single_node.specs.Singles as singles;
ghost use Rattle.single_server.specs.Hearing.{Beginning, Delivers, Heard, IsHeard, Lessens, Tells, Turns};

use crate::ended::Ended;
use crate::replying::write_replies;
use cluster_rules::{Effect, HaltCause};
use disk_core::Disk;
use edge_io::{Failed, Sink};
use single_node::{Single, halt_cause};
use std::alloc::AllocError;

/// What hearing the oldest message comes to.
#[derive(Clone, Copy, Debug)]
pub(crate) enum Turn {
    /// There was none.
    Rests,
    GoesOn,
    Halts(HaltCause),
    WriteFails,
    RunsOut,
}

/// Until none of its messages is left.
pub(crate) fn deliver_all<K: Sink, D: Disk>(
    single: &mut Single,
    conn: u32,
    output: &mut K,
    disk: &mut D,
) -> Result<(), Ended>
    requires alone { IsHeard conn single.old (D.view disk.old) }
    requires room { HasRoom single.old.node (D.view disk.old) }
    ensures delivers { (b : Beginning) (stream : List ℕ) (told : List effect.Effect) → Heard conn b stream told single.old (D.view disk.old)
        → Delivers result conn b stream told single.new (D.view disk.new) (K.written output.old) (K.written output.new) }
    ensures still { IfOk result (λ _. single.old.left ≡ [] → single.new ≡ single.old) }
    ensures read { IfErr result (λ ended. ended ≢ Ended.ReadFault) }
    ensures room { HasRoom single.new.node (D.view disk.new) }
    ensures same_disk { SameDisk (D.view disk.old) (D.view disk.new) }
    ensures later { K.faults output.old ≤ K.faults output.new }
    ensures write { IfErr result (λ ended. ended ≡ Ended.WriteFault → Rose (K.faults output.old) (K.faults output.new)) }
{
    'messages: loop {
        match deliver_one(single, conn, output, disk) {
            Turn::Rests => return Ok(()),
            Turn::GoesOn => {}
            Turn::Halts(cause) => return Err(Ended::by_halt(cause)),
            Turn::WriteFails => return Err(Ended::WriteFault),
            Turn::RunsOut => return Err(Ended::NoMemory),
        }
    }
}

fn deliver_one<K: Sink, D: Disk>(
    single: &mut Single,
    conn: u32,
    output: &mut K,
    disk: &mut D,
) -> Turn
    requires alone { IsHeard conn single.old (D.view disk.old) }
    requires room { HasRoom single.old.node (D.view disk.old) }
    ensures turns { (b : Beginning) (stream : List ℕ) (told : List effect.Effect) → Heard conn b stream told single.old (D.view disk.old)
        → Turns result conn b stream told single.new (D.view disk.new) (K.written output.old) (K.written output.new) }
    ensures less { Lessens result single.old single.new }
    ensures room { HasRoom single.new.node (D.view disk.new) }
    ensures same_disk { SameDisk (D.view disk.old) (D.view disk.new) }
    ensures later { K.faults output.old ≤ K.faults output.new }
    ensures write { result ≡ Turn.WriteFails → Rose (K.faults output.old) (K.faults output.new) }
{
    match single.deliver(disk) {
        Ok(None) => Turn::Rests,
        Ok(Some(effects)) => tell(output, conn, effects.as_slice(), single.is_stopped()),
        Err(AllocError) => Turn::RunsOut,
    }
}

/// What the node tells of a message is written, unless it has stopped.
fn tell<K: Sink>(output: &mut K, conn: u32, effects: &[Effect], is_stopped: bool) -> Turn
    requires cause { is_stopped ≡ true → (cause : halt.HaltCause) × (singles.halt_cause effects.now ≡ Some cause) }
    ensures tells { Tells result conn effects.now is_stopped (K.written output.old) (K.written output.new) }
    ensures later { K.faults output.old ≤ K.faults output.new }
    ensures write { result ≡ Turn.WriteFails → Rose (K.faults output.old) (K.faults output.new) }
{
    if is_stopped {
        return Turn::Halts(halted(effects));
    }
    match write_replies(output, conn, effects) {
        Ok(()) => Turn::GoesOn,
        Err(Failed) => Turn::WriteFails,
    }
}

/// Why the node halted.
pub(crate) fn halted(effects: &[Effect]) -> HaltCause
    requires { (cause : halt.HaltCause) × (singles.halt_cause effects.now ≡ Some cause) }
    ensures { singles.halt_cause effects.now ≡ Some result }
{
    match halt_cause(effects) {
        Some(cause) => cause,
        None => unreachable!(),
    }
}
