//! What a node does in an event inside which it may die.

ghost use Rattle.std.specs.Prelude.{◌≡◌, ◌≤◌, IfOk, IsSome};
ghost use Rattle.disk_core.specs.Calls.{SameDisk};
ghost use Rattle.gum_messages.specs.Places.{at_place};
ghost use Rattle.view_reconcile.specs.Chains.{view_in};
ghost use Rattle.cluster_node.specs.States.{HasRoom};
ghost use Rattle.cluster_worlds.specs.Happening.{Installs, Reacts, Receives};
ghost use Rattle.cluster_replay.specs.Slots.{IsKnown, Keeps, scene};

use crate::journal::Journal;
use cluster_member::Effects;
use cluster_node::Node;
use cluster_worlds::Inner;
use disk_core::Disk;
use std::alloc::AllocError;
use view_reconcile::Chain;

/// The event comes to the node.
pub(crate) fn react<D: Disk>(
    node: &mut Node,
    disk: &mut D,
    chain: &Chain,
    journal: &Journal,
    inner: &Inner,
) -> Result<Effects, AllocError>
    requires size { 64 ≤ (D.view disk.old).size }
    requires room { HasRoom node.old (D.view disk.old) }
    requires known { IsKnown inner.now chain.now journal.now.pool }
    ensures reacts { IfOk result (λ effects. Reacts inner.now (scene chain.now journal.now.pool (D.view disk.old)) node.old effects node.new (D.view disk.new)) }
    ensures keeps { Keeps (D.view disk.old) node.old (D.view disk.new) node.new }
    ensures same_disk { SameDisk (D.view disk.old) (D.view disk.new) }
{
    match inner {
        Inner::Install { view, .. } => install(node, disk, chain, *view),
        Inner::Bytes { conn, piece } => node.bytes(*conn, piece.as_slice()),
        Inner::HangUp(conn) => node.hang_up(*conn),
        Inner::Deliver(number) => deliver(node, disk, journal, *number),
        Inner::Tick(_) => node.tick(),
        Inner::Checkpoint(_) => node.checkpoint(disk),
    }
}

fn install<D: Disk>(
    node: &mut Node,
    disk: &mut D,
    chain: &Chain,
    view: u32,
) -> Result<Effects, AllocError>
    requires size { 64 ≤ (D.view disk.old).size }
    requires room { HasRoom node.old (D.view disk.old) }
    requires known { IsSome (view_in chain.now view) }
    ensures reacts { IfOk result (λ effects. Installs (view_in chain.now view) (D.view disk.old) node.old effects node.new (D.view disk.new)) }
    ensures keeps { Keeps (D.view disk.old) node.old (D.view disk.new) node.new }
    ensures same_disk { SameDisk (D.view disk.old) (D.view disk.new) }
{
    match chain.view(view) {
        None => unreachable!(),
        Some(view) => node.install(disk, view),
    }
}

fn deliver<D: Disk>(
    node: &mut Node,
    disk: &mut D,
    journal: &Journal,
    number: u64,
) -> Result<Effects, AllocError>
    requires room { HasRoom node.old (D.view disk.old) }
    requires known { IsSome (at_place journal.now.pool number) }
    ensures reacts { IfOk result (λ effects. Receives (at_place journal.now.pool number) (D.view disk.old) node.old effects node.new (D.view disk.new)) }
    ensures keeps { Keeps (D.view disk.old) node.old (D.view disk.new) node.new }
    ensures same_disk { SameDisk (D.view disk.old) (D.view disk.new) }
{
    match journal.message(number) {
        None => unreachable!(),
        Some(message) => node.receive(disk, message),
    }
}
