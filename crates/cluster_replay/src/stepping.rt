//! A step of a world.

ghost use Rattle.std.specs.Prelude.{◌≡◌, ◌<◌, ℕ, ◌≤◌, true, None, Some, IfErr, IfOk, IsTrue, OnErr, OnOk, Err};
ghost use Rattle.disk_core.specs.Crashes.{Marked};
ghost use Rattle.cluster_worlds.specs.Conditions.{IsEvent};
ghost use Rattle.cluster_worlds.specs.Happening.{begun};
ghost use Rattle.cluster_worlds.specs.Runs.{Steps};
ghost use Rattle.cluster_worlds.specs.Worlds.{starts_of};
ghost use Rattle.world_laws.specs.Typed.{IsTypedEvent};
ghost use Rattle.cluster_replay.specs.Playing.{Admits, DeclaresTo, Follows, IsInPlace, has_run_out, map_ok, refusal_before};

use crate::reading::read;
use crate::world::World;
use cluster_worlds::{BadEvent, Event, Inner, StepFault, Told};
use disk_core::CrashDisk;
use gum_messages::View;
use std::alloc::AllocError;
use view_reconcile::ChainFault;

impl<D: CrashDisk + Drop> World<D> {
    /// An event comes, and what happened is told. A bad event changes nothing. Where memory runs out the world has failed,
    /// and every later step answers that.
    pub fn step(&mut self, event: &Event) -> Result<Vec<Told>, StepFault>
        requires event { IsEvent event.now }
        requires steps { self.old.world.steps < 9223372036854775807 }
        ensures steps { Steps event.now self.old.world (map_ok (λ told. told.items) result) self.new.world }
        ensures fails { self.new.failed ≡ has_run_out result self.old.failed }
        ensures stays_failed { IsTrue self.old.failed → result ≡ Err StepFault.Memory }
        ensures typed { IsTypedEvent event.now }
    {
        read(event);
        if self.failed {
            return Err(StepFault::Memory);
        }
        self.admit(event)?;
        self.begin();
        match self.follow(event) {
            Ok(told) => Ok(told),
            Err(_) => Err(self.give_up()),
        }
    }

    fn give_up(&mut self) -> StepFault
        ensures fault { result ≡ StepFault.Memory }
        ensures failed { self.new ≡ record self.old { failed = true } }
    {
        self.failed = true;
        StepFault::Memory
    }

    /// The event isn't refused. A view that is declared stands in the chain behind this.
    fn admit(&mut self, event: &Event) -> Result<(), StepFault>
        ensures { Admits event.now self.old result self.new }
    {
        if let Some(cause) = self.refusal(event) {
            return Err(StepFault::BadEvent(cause));
        }
        match event {
            Event::Declare(view) => self.declare(view),
            _ => Ok(()),
        }
    }

    fn declare(&mut self, view: &View) -> Result<(), StepFault>
        ensures { DeclaresTo view.now self.old result self.new }
    {
        let Ok(view) = view.copy(self.alloc) else {
            return Err(self.give_up());
        };
        match self.chain.declare(view) {
            Ok(()) => Ok(()),
            Err(ChainFault::Memory) => Err(self.give_up()),
            Err(fault) => Err(StepFault::BadEvent(BadEvent::Chain(fault))),
        }
    }

    /// The event is counted, and the disk is marked before it.
    fn begin(&mut self)
        requires steps { self.old.world.steps < 9223372036854775807 }
        ensures begun { self.new.world ≡ begun self.new.world.disk self.old.world }
        ensures marked { Marked self.old.world.disk self.new.world.disk }
        ensures works { self.new.failed ≡ self.old.failed }
        ensures fewer { (node : ℕ) → starts_of node self.new.world < self.new.world.steps }
    {
        self.disk.mark();
        self.steps += 1;
    }

    fn follow(&mut self, event: &Event) -> Result<Vec<Told>, AllocError>
        requires event { IsEvent event.now }
        requires admitted { refusal_before event.now self.old.world ≡ None }
        requires steps { self.old.world.steps ≤ 9223372036854775807 }
        requires fewer { (node : ℕ) → starts_of node self.old.world < self.old.world.steps }
        ensures follows { IfOk result (λ told. Follows event.now self.old.world told.items self.new.world) }
        ensures place { IsInPlace self.old self.new }
    {
        match event {
            Event::Start(node) => self.start(*node),
            Event::Declare(_) => {}
            Event::Install { node, view } => {
                return self.act(&Inner::Install {
                    node: *node,
                    view: *view,
                });
            }
            Event::Connect { conn, node } => return self.connect(*conn, *node),
            Event::Bytes { conn, piece } => {
                let piece = piece.copy(self.alloc)?;
                return self.act(&Inner::Bytes { conn: *conn, piece });
            }
            Event::HangUp(conn) => return self.act(&Inner::HangUp(*conn)),
            Event::Deliver(number) => return self.act(&Inner::Deliver(*number)),
            Event::Tick(node) => return self.act(&Inner::Tick(*node)),
            Event::Checkpoint(node) => return self.act(&Inner::Checkpoint(*node)),
            Event::Fail(call) => self.fail(*call),
            Event::Die(node) => return self.die(*node),
            Event::Clock { node, stamp } => self.clock(*node, *stamp),
            Event::Batch { node, update } => return self.batch(*node, update),
            Event::DieIn {
                moment,
                bytes,
                inner,
            } => return self.die_in(*moment, bytes.as_slice(), inner),
        }
        Ok(Vec::new(self.alloc))
    }
}
