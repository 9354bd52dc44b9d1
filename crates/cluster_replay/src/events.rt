//! The events of a world.

ghost use Rattle.std.specs.Prelude.{◌≡◌, ◌<◌, ◌≤◌, None, IfOk};
ghost use Rattle.gum_messages.specs.Messages.{IsNode};
ghost use Rattle.update_records.specs.Validity.{IsValid};
ghost use Rattle.cluster_node.specs.Events.{Batches, Connects};
ghost use Rattle.cluster_worlds.specs.Happening.{ActsAt, Dies, DiesIn, Reacts, reached, with_clock, with_conn, with_failing, with_start};
ghost use Rattle.cluster_worlds.specs.Refusing.{refusal_in};
ghost use Rattle.cluster_worlds.specs.Worlds.{home_of, node_at, starts_of};
ghost use Rattle.cluster_replay.specs.Playing.{IsInPlace};

use crate::dying::{tell_death, vacate};
use crate::slots::{act_in, batch_in, clock_in, connect_in, react_in};
use crate::world::World;
use cluster_node::Node;
use cluster_worlds::{Inner, Told};
use disk_core::CrashDisk;
use std::alloc::AllocError;
use update_records::Update;

impl<D: CrashDisk + Drop> World<D> {
    /// An event inside which a node may die comes to its node.
    pub(crate) fn act(&mut self, inner: &Inner) -> Result<Vec<Told>, AllocError>
        requires admitted { refusal_in inner.now self.old.world ≡ None }
        ensures acts { IfOk result (λ told. ActsAt (Reacts inner.now self.old.world) (reached inner.now self.old.world) self.old.world told.items self.new.world) }
        ensures place { IsInPlace self.old self.new }
    {
        let Some(index) = self.reached(inner) else {
            return Ok(Vec::new(self.alloc));
        };
        let slot = &mut self.nodes[index];
        act_in(slot, &mut self.disk, &self.chain, &mut self.journal, inner)
    }

    /// Its node dies inside the event.
    pub(crate) fn die_in(
        &mut self,
        moment: u32,
        bytes: &[u8],
        inner: &Inner,
    ) -> Result<Vec<Told>, AllocError>
        requires admitted { refusal_in inner.now self.old.world ≡ None }
        ensures dies { IfOk result (λ told. DiesIn moment bytes.now inner.now (reached inner.now self.old.world) self.old.world told.items self.new.world) }
        ensures place { IsInPlace self.old self.new }
    {
        let Some(index) = self.reached(inner) else {
            return Ok(Vec::new(self.alloc));
        };
        let slot = &mut self.nodes[index];
        let told = tell_death(self.alloc, slot)?;
        react_in(slot, &mut self.disk, &self.chain, &self.journal, inner)?;
        self.disk.crash(moment, bytes);
        vacate(slot);
        Ok(told)
    }

    pub(crate) fn die(&mut self, node: u16) -> Result<Vec<Told>, AllocError>
        ensures dies { IfOk result (λ told. Dies (node_at node self.old.world) self.old.world told.items self.new.world) }
        ensures place { IsInPlace self.old self.new }
    {
        let Some(index) = self.index_of(node) else {
            return Ok(Vec::new(self.alloc));
        };
        let slot = &mut self.nodes[index];
        let told = tell_death(self.alloc, slot)?;
        vacate(slot);
        Ok(told)
    }

    pub(crate) fn start(&mut self, node: u16)
        requires node { IsNode node }
        requires steps { self.old.world.steps ≤ 9223372036854775807 }
        requires fewer { starts_of node self.old.world < self.old.world.steps }
        ensures starts { self.new.world ≡ with_start node self.old.world }
        ensures place { IsInPlace self.old self.new }
    {
        let inc = self.starts_of(node) + 1;
        let index = node as usize - 1;
        self.starts[index] = inc;
        self.nodes[index] = Some(Node::start(self.alloc, node, inc));
    }

    pub(crate) fn connect(&mut self, conn: u32, node: u16) -> Result<Vec<Told>, AllocError>
        requires unused { home_of conn self.old.world ≡ None }
        ensures acts { IfOk result (λ told. ActsAt (λ n effects m d. Connects conn n.running m.running effects × (d ≡ self.old.world.disk)) (node_at node self.old.world)
            (with_conn conn node self.old.world) told.items self.new.world) }
        ensures place { IsInPlace self.old self.new }
    {
        let index = self.index_of(node);
        self.conns.insert(conn, node)?;
        let Some(index) = index else {
            return Ok(Vec::new(self.alloc));
        };
        let slot = &mut self.nodes[index];
        connect_in(slot, &mut self.journal, conn)
    }

    pub(crate) fn batch(&mut self, node: u16, update: &Update) -> Result<Vec<Told>, AllocError>
        requires valid { IsValid update.now }
        ensures acts { IfOk result (λ told. ActsAt (λ n effects m d. Batches update.now n.running m.running effects × (d ≡ self.old.world.disk)) (node_at node self.old.world)
            self.old.world told.items self.new.world) }
        ensures place { IsInPlace self.old self.new }
    {
        let Some(index) = self.index_of(node) else {
            return Ok(Vec::new(self.alloc));
        };
        let update = update.copy(self.alloc)?;
        let slot = &mut self.nodes[index];
        batch_in(slot, &mut self.journal, update)
    }

    pub(crate) fn clock(&mut self, node: u16, stamp: u64)
        ensures clock { self.new.world ≡ with_clock stamp (node_at node self.old.world) self.old.world }
        ensures place { IsInPlace self.old self.new }
    {
        let Some(index) = self.index_of(node) else {
            return;
        };
        clock_in(&mut self.nodes[index], stamp);
    }

    pub(crate) fn fail(&mut self, call: u32)
        ensures fails { self.new.world ≡ with_failing call self.old.world }
        ensures place { IsInPlace self.old self.new }
    {
        self.disk.fail_in(call);
    }
}
