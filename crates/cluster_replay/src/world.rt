//! A world that is played.

ghost use Rattle.std.specs.Prelude.{◌≡◌, ◌≤◌, ◌<◌, ◌||◌, false, [], None, Some, IfOk, IsTrue, is_some, length, option_copied, replicate};
ghost use Rattle.std.specs.Option.{option_flatten};
ghost use Rattle.gum_messages.specs.Places.{at_place};
ghost use Rattle.cluster_worlds.specs.Worlds.{first_world, node_at};

use crate::journal::Journal;
use crate::ordered::OrderedRecord;
use cluster_node::Node;
use disk_core::CrashDisk;
use std::alloc::{AllocError, Global};
use std::collections::BTreeMap;
use std::marker::Model;
use view_reconcile::Chain;

/// A cluster of up to 16 nodes over one disk, with the messages between them.
///
/// After it ran out of memory it has failed: no further event comes to anything.
#[derive(Drop)]
pub struct World<D: CrashDisk + Drop> {
    pub(crate) alloc: Global,
    pub(crate) disk: D,
    pub(crate) nodes: Vec<Option<Node>>,
    pub(crate) starts: Vec<u64>,
    pub(crate) chain: Chain,
    pub(crate) journal: Journal,
    pub(crate) conns: BTreeMap<u32, u16>,
    pub(crate) steps: u64,
    pub(crate) failed: bool,
}

impl<D: CrashDisk + Drop> Model for World<D> {
    ghost use Rattle.cluster_replay.specs.Playing.{IsSound, Played, world_of};

    ghost Value = { Played };

    ghost view = { λ w. record {
      world = world_of w.nodes.items w.starts.items w.chain w.journal w.conns.entries w.steps (D.view w.disk);
      failed = w.failed;
    } };

    ghost invariant = { λ w. IsSound (world_of w.nodes.items w.starts.items w.chain w.journal w.conns.entries w.steps (D.view w.disk)) };
}

impl<D: CrashDisk + Drop> World<D> {
    /// A world before its first event. The disk may hold a log or none; its size is at least 64 bytes.
    pub fn new(alloc: Global, disk: D) -> Result<World<D>, AllocError>
        requires size { 64 ≤ (D.view disk).size }
        ensures opening { IfOk result (λ w. w.world ≡ first_world (D.view disk)) }
        ensures works { IfOk result (λ w. w.failed ≡ false) }
    {
        let nodes = no_nodes(alloc)?;
        let starts = vec![in alloc; 0; 16]?;
        Ok(World {
            alloc,
            disk,
            nodes,
            starts,
            chain: Chain::new(alloc),
            journal: Journal::new(alloc),
            conns: BTreeMap::new(alloc),
            steps: 0,
            failed: false,
        })
    }

    /// The update order: each record with its encoding.
    pub fn order(&self) -> &[OrderedRecord]
        ensures { result.now ≡ self.now.world.order }
    {
        self.journal.order()
    }

    /// The node with this number, 1 to 16, where it runs.
    pub fn node(&self, number: u16) -> Option<&Node>
        ensures { option_copied result ≡ node_at number self.now.world }
    {
        node_in(self.nodes.as_slice(), number)
    }

    /// All acknowledgements so far: the view, and the sequence number of the record.
    pub fn acks(&self) -> &[(u32, u64)]
        ensures { result.now ≡ self.now.world.acks }
    {
        self.journal.acks()
    }

    /// How many messages were sent.
    pub fn messages(&self) -> u64
        ensures { result ≡ length self.now.world.pool }
    {
        self.journal.messages()
    }

    /// How many events came.
    pub fn steps(&self) -> u64
        ensures { result ≡ self.now.world.steps }
    {
        self.steps
    }

    /// Whether memory ran out.
    pub fn has_failed(&self) -> bool
        ensures { result ≡ self.now.failed }
    {
        self.failed
    }
}

/// The node with this number, where it runs.
pub(crate) fn node_in(nodes: &[Option<Node>], number: u16) -> Option<&Node>
    ensures { option_copied result ≡ option_flatten (at_place nodes.now number) }
{
    if number == 0 {
        return None;
    }
    match nodes.get(number as usize - 1) {
        Some(Some(node)) => Some(node),
        Some(None) => None,
        None => None,
    }
}

fn no_nodes(alloc: Global) -> Result<Vec<Option<Node>>, AllocError>
    ensures { IfOk result (λ nodes. nodes.items ≡ replicate 16 None) }
{
    let mut nodes = Vec::new(alloc);
    'nodes: for _ in 0..16_usize {
        nodes.push(None)?;
    }
    Ok(nodes)
}
