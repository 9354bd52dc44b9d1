//! A node over its disk, whose events may be called without a thought of what they require.
ghost use Rattle.std.specs.Prelude.{◌≤◌};
ghost use Rattle.disk_core.specs.Notes.{view_of};
ghost use Rattle.update_records.specs.Validity.{IsValid};
ghost use Rattle.cluster_node.specs.States.{HasRoom};

use cluster_member::Effects;
use cluster_node::Node;
use disk_core::{CrashDisk, Disk, DiskFault, MemDisk};
use gum_messages::{Message, View};
use quorum_log::{format, image_size};
use row_words::RowFault;
use std::alloc::Global;
use std::marker::Model;
use update_records::Update;

/// The encoding of the registry that has its root alone.
const EMPTY_REGISTRY: [u8; 16] = [0; 16];

/// A node and its disk, which has room for the log that the node writes.
#[derive(Drop)]
pub(crate) struct Actor {
    node: Node,
    disk: MemDisk,
}

impl Model for Actor {
    ghost use Rattle.disk_core.specs.Notes.{view_of};
    ghost use Rattle.cluster_node.specs.States.{HasRoom};

    ghost Value = { Unit {0} };

    ghost view = { λ _. tt };

    ghost invariant = { λ actor. HasRoom actor.node (view_of actor.disk) };
}

impl Actor {
    /// Node 1 begins, over a disk of no bytes.
    pub(crate) fn new(alloc: Global) -> Result<Actor, RowFault> {
        Ok(Actor {
            node: Node::start(alloc, 1, 1),
            disk: MemDisk::new(alloc, 0)?,
        })
    }

    pub(crate) fn node(&self) -> &Node {
        &self.node
    }
}

/// What changes the disk behind the node's back, which dies before.
impl Actor {
    #[tactic(auto, using(crate::proofs::Rooms::stopped))]
    pub(crate) fn die(&mut self) -> Result<Effects, RowFault> {
        Ok(self.node.die()?)
    }

    #[tactic(auto, using(crate::proofs::Rooms::stopped))]
    pub(crate) fn start(
        &mut self,
        alloc: Global,
        number: u16,
        inc: u64,
    ) -> Result<Effects, RowFault> {
        let effects = self.node.die()?;
        self.node = Node::start(alloc, number, inc);
        Ok(effects)
    }

    #[tactic(auto, using(crate::proofs::Rooms::stopped))]
    pub(crate) fn renew_disk(&mut self, alloc: Global, size: u64) -> Result<Effects, RowFault> {
        let effects = self.node.die()?;
        self.disk = MemDisk::new(alloc, size)?;
        Ok(effects)
    }

    #[tactic(auto, using(crate::proofs::Rooms::stopped))]
    pub(crate) fn put(&mut self, place: u64, bytes: &[u8]) -> Result<Effects, RowFault> {
        let effects = self.node.die()?;
        put_on(&mut self.disk, place, bytes)?;
        Ok(effects)
    }

    #[tactic(auto, using(crate::proofs::Rooms::stopped))]
    pub(crate) fn format(&mut self, alloc: Global, cap: u32) -> Result<Effects, RowFault> {
        let effects = self.node.die()?;
        self.disk = formatted(alloc, cap)?;
        Ok(effects)
    }

    /// The disk crashes behind so many calls of the last event.
    #[tactic(auto, using(crate::proofs::Rooms::stopped))]
    pub(crate) fn crash(&mut self, calls: u32, bytes: &[u8]) -> Result<Effects, RowFault> {
        let effects = self.node.die()?;
        self.disk.fail_in(0);
        self.disk.crash(calls, bytes);
        Ok(effects)
    }
}

/// What changes the disk under a node that runs, and what is read of it.
impl Actor {
    #[tactic(auto, using(crate::proofs::Rooms::on_same_disk))]
    pub(crate) fn claim(&mut self, number: u32) -> Result<(), RowFault> {
        self.disk.mark();
        self.disk.claim(number).map_err(refused)
    }

    pub(crate) fn fail_in(&mut self, call: u32) {
        self.disk.fail_in(call);
    }

    #[tactic(auto, using(crate::proofs::Rooms::on_same_disk))]
    pub(crate) fn read(
        &mut self,
        alloc: Global,
        place: u64,
        count: u64,
    ) -> Result<Vec<u8>, RowFault> {
        let size = self.disk.size();
        if size < place || size - place < count {
            return Err(RowFault::Bad);
        }
        let mut bytes = vec![in alloc; 0; count as usize]?;
        self.disk.read(place, &mut bytes).map_err(refused)?;
        Ok(bytes)
    }
}

/// The events of the node. The calls of the disk are counted from each event on.
impl Actor {
    pub(crate) fn install(&mut self, view: &View) -> Result<Effects, RowFault> {
        if self.disk.size() < 64 {
            return Err(RowFault::Bad);
        }
        install(&mut self.node, &mut self.disk, view)
    }

    pub(crate) fn receive(&mut self, message: &Message) -> Result<Effects, RowFault> {
        receive(&mut self.node, &mut self.disk, message)
    }

    pub(crate) fn checkpoint(&mut self) -> Result<Effects, RowFault> {
        checkpoint(&mut self.node, &mut self.disk)
    }

    #[tactic(auto, using(crate::proofs::Rooms::behind_tick))]
    pub(crate) fn tick(&mut self) -> Result<Effects, RowFault> {
        Ok(self.node.tick()?)
    }

    #[tactic(auto, using(crate::proofs::Rooms::behind_clock))]
    pub(crate) fn clock(&mut self, stamp: u64) {
        self.node.clock(stamp);
    }

    /// A number of a connection that is open is refused.
    #[tactic(auto, using(crate::proofs::Rooms::behind_connect))]
    pub(crate) fn connect(&mut self, conn: u32) -> Result<Effects, RowFault> {
        if self.node.is_connected(conn) {
            return Err(RowFault::Bad);
        }
        Ok(self.node.connect(conn)?)
    }

    #[tactic(auto, using(crate::proofs::Rooms::behind_bytes))]
    pub(crate) fn hear(&mut self, conn: u32, piece: &[u8]) -> Result<Effects, RowFault> {
        Ok(self.node.bytes(conn, piece)?)
    }

    #[tactic(auto, using(crate::proofs::Rooms::behind_hang_up))]
    pub(crate) fn hang_up(&mut self, conn: u32) -> Result<Effects, RowFault> {
        Ok(self.node.hang_up(conn)?)
    }

    #[tactic(auto, using(crate::proofs::Rooms::behind_batch))]
    pub(crate) fn batch(&mut self, update: Update) -> Result<Effects, RowFault>
        requires valid { IsValid update }
    {
        Ok(self.node.batch(update)?)
    }
}

#[tactic(auto, using(crate::proofs::Rooms::behind_install))]
fn install(node: &mut Node, disk: &mut MemDisk, view: &View) -> Result<Effects, RowFault>
    requires size { 64 ≤ (view_of disk.old).size }
    requires room { HasRoom node.old (view_of disk.old) }
    ensures room { HasRoom node.new (view_of disk.new) }
{
    disk.mark();
    Ok(node.install(disk, view)?)
}

#[tactic(auto, using(crate::proofs::Rooms::on_marked, crate::proofs::Rooms::behind_receive))]
fn receive(node: &mut Node, disk: &mut MemDisk, message: &Message) -> Result<Effects, RowFault>
    requires room { HasRoom node.old (view_of disk.old) }
    ensures room { HasRoom node.new (view_of disk.new) }
{
    disk.mark();
    Ok(node.receive(disk, message)?)
}

#[tactic(auto, using(crate::proofs::Rooms::on_marked, crate::proofs::Rooms::behind_checkpoint))]
fn checkpoint(node: &mut Node, disk: &mut MemDisk) -> Result<Effects, RowFault>
    requires room { HasRoom node.old (view_of disk.old) }
    ensures room { HasRoom node.new (view_of disk.new) }
{
    disk.mark();
    Ok(node.checkpoint(disk)?)
}

/// Writes to the disk under the fencing token that it holds.
fn put_on(disk: &mut MemDisk, place: u64, bytes: &[u8]) -> Result<(), RowFault> {
    let size = disk.size();
    if size < place || size - place < bytes.len() as u64 {
        return Err(RowFault::Bad);
    }
    disk.mark();
    let claim = disk.held();
    disk.write(claim, place, bytes).map_err(refused)?;
    disk.sync(claim).map_err(refused)
}

/// A disk with an empty log, as long as its image.
fn formatted(alloc: Global, cap: u32) -> Result<MemDisk, RowFault> {
    if cap < 4096 || cap > 16_777_216 {
        return Err(RowFault::Bad);
    }
    let mut disk = MemDisk::new(alloc, image_size(cap))?;
    if disk.size() < image_size(cap) {
        return Err(RowFault::Bad);
    }
    format(&mut disk, 0, cap, &EMPTY_REGISTRY).map_err(refused)?;
    Ok(disk)
}

fn refused(_: DiskFault) -> RowFault {
    RowFault::Bad
}
