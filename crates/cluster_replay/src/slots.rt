//! A node in its place, where one runs.

ghost use Rattle.std.specs.Prelude.{◌≡◌, ◌≤◌, None, IfOk, IfSome, IsSome, OnErr, option_map};
ghost use Rattle.disk_core.specs.Calls.{SameDisk};
ghost use Rattle.disk_core.specs.Views.{DiskView};
ghost use Rattle.update_records.specs.Validity.{IsValid};
ghost use Rattle.cluster_node.specs.Events.{Batches, Connects};
ghost use Rattle.cluster_node.specs.States.{HasRoom, client_in, clocked, is_stopped};
ghost use Rattle.cluster_worlds.specs.Happening.{Reacts};
ghost use Rattle.cluster_worlds.specs.Worlds.{slot_of};
ghost use Rattle.cluster_replay.specs.Slots.{ActsIn, IsKnown, KeepsAt, KeepsWith, ReactsAt, Settles, scene};

use crate::journal::Journal;
use crate::reacting::react;
use cluster_member::Effects;
use cluster_node::Node;
use cluster_worlds::{Inner, Told};
use disk_core::Disk;
use std::alloc::AllocError;
use update_records::Update;
use view_reconcile::Chain;

/// What a node has done is taken in and told. One that has stopped leaves its place.
pub(crate) fn settle(
    slot: &mut Option<Node>,
    journal: &mut Journal,
    effects: &Effects,
) -> Result<Vec<Told>, AllocError>
    requires runs { IsSome slot.old }
    ensures settles { IfOk result (λ told. IfSome slot.old (λ n. Settles effects.now n journal.old told.items slot.new journal.new)) }
    ensures kept { OnErr result (slot.new ≡ slot.old) }
{
    match slot {
        None => unreachable!(),
        Some(node) => {
            let told = journal.take_in(node, effects)?;
            clear(slot);
            Ok(told)
        }
    }
}

fn clear(slot: &mut Option<Node>)
    ensures { IfSome slot.old (λ n. slot.new ≡ slot_of n) }
{
    if is_stopped(slot) {
        *slot = None;
    }
}

fn is_stopped(slot: &Option<Node>) -> bool
    ensures { IfSome slot.now (λ n. result ≡ is_stopped n) }
{
    match slot {
        None => false,
        Some(node) => node.is_stopped(),
    }
}

/// The event comes to the node in its place.
pub(crate) fn react_in<D: Disk>(
    slot: &mut Option<Node>,
    disk: &mut D,
    chain: &Chain,
    journal: &Journal,
    inner: &Inner,
) -> Result<Effects, AllocError>
    requires runs { IsSome slot.old }
    requires size { 64 ≤ (D.view disk.old).size }
    requires room { IfSome slot.old (λ n. HasRoom n (D.view disk.old)) }
    requires known { IsKnown inner.now chain.now journal.now.pool }
    ensures reacts { IfOk result (λ effects. ReactsAt (Reacts inner.now (scene chain.now journal.now.pool (D.view disk.old))) slot.old effects slot.new (D.view disk.new)) }
    ensures keeps { KeepsAt (D.view disk.old) slot.old (D.view disk.new) slot.new }
    ensures runs { IsSome slot.new }
    ensures same_disk { SameDisk (D.view disk.old) (D.view disk.new) }
{
    match slot {
        None => unreachable!(),
        Some(node) => react(node, disk, chain, journal, inner),
    }
}

/// The event comes to the node in its place, and what it has done is taken in.
pub(crate) fn act_in<D: Disk>(
    slot: &mut Option<Node>,
    disk: &mut D,
    chain: &Chain,
    journal: &mut Journal,
    inner: &Inner,
) -> Result<Vec<Told>, AllocError>
    requires runs { IsSome slot.old }
    requires size { 64 ≤ (D.view disk.old).size }
    requires room { IfSome slot.old (λ n. HasRoom n (D.view disk.old)) }
    requires known { IsKnown inner.now chain.now journal.old.pool }
    ensures acts { IfOk result (λ told. ActsIn (Reacts inner.now (scene chain.now journal.old.pool (D.view disk.old))) slot.old journal.old told.items slot.new journal.new (D.view disk.new)) }
    ensures keeps { KeepsAt (D.view disk.old) slot.old (D.view disk.new) slot.new }
    ensures same_disk { SameDisk (D.view disk.old) (D.view disk.new) }
{
    let effects = react_in(slot, disk, chain, journal, inner)?;
    settle(slot, journal, &effects)
}

/// A connection begins at the node in its place.
pub(crate) fn connect_in(
    slot: &mut Option<Node>,
    journal: &mut Journal,
    conn: u32,
) -> Result<Vec<Told>, AllocError>
    requires runs { IsSome slot.old }
    requires unused { IfSome slot.old (λ n. client_in conn n ≡ None) }
    ensures acts { IfOk result (λ told. (d : DiskView) → ActsIn (λ n effects m _. Connects conn n.running m.running effects) slot.old journal.old told.items slot.new journal.new d) }
    ensures keeps { (v : DiskView) → KeepsWith conn v slot.old slot.new }
{
    let effects = connect(slot, conn)?;
    settle(slot, journal, &effects)
}

fn connect(slot: &mut Option<Node>, conn: u32) -> Result<Effects, AllocError>
    requires runs { IsSome slot.old }
    requires unused { IfSome slot.old (λ n. client_in conn n ≡ None) }
    ensures connects { IfOk result (λ effects. (d : DiskView) → ReactsAt (λ n effects m _. Connects conn n.running m.running effects) slot.old effects slot.new d) }
    ensures keeps { (v : DiskView) → KeepsWith conn v slot.old slot.new }
    ensures runs { IsSome slot.new }
{
    match slot {
        None => unreachable!(),
        Some(node) => node.connect(conn),
    }
}

/// A batch is handed to the node in its place.
pub(crate) fn batch_in(
    slot: &mut Option<Node>,
    journal: &mut Journal,
    update: Update,
) -> Result<Vec<Told>, AllocError>
    requires runs { IsSome slot.old }
    requires valid { IsValid update }
    ensures acts { IfOk result (λ told. (d : DiskView) → ActsIn (λ n effects m _. Batches update n.running m.running effects) slot.old journal.old told.items slot.new journal.new d) }
    ensures keeps { (v : DiskView) → KeepsAt v slot.old v slot.new }
{
    let effects = batch(slot, update)?;
    settle(slot, journal, &effects)
}

fn batch(slot: &mut Option<Node>, update: Update) -> Result<Effects, AllocError>
    requires runs { IsSome slot.old }
    requires valid { IsValid update }
    ensures batches { IfOk result (λ effects. (d : DiskView) → ReactsAt (λ n effects m _. Batches update n.running m.running effects) slot.old effects slot.new d) }
    ensures keeps { (v : DiskView) → KeepsAt v slot.old v slot.new }
    ensures runs { IsSome slot.new }
{
    match slot {
        None => unreachable!(),
        Some(node) => node.batch(update),
    }
}

/// The clock of the node in its place.
pub(crate) fn clock_in(slot: &mut Option<Node>, stamp: u64)
    ensures { slot.new ≡ option_map (clocked stamp) slot.old }
{
    if let Some(node) = slot {
        node.clock(stamp);
    }
}
