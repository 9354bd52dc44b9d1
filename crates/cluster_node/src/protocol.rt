//! The events of the protocol, of the clock and of the disk.

ghost use Rattle.std.specs.Prelude.{◌≡◌, ◌↔◌, ◌≤◌, IfOk, IsErr, None, OnErr, unwrap_or};
ghost use Rattle.disk_core.specs.Calls.{SameDisk};
ghost use Rattle.update_records.specs.Validity.{IsValid};
ghost use Rattle.gum_core.specs.Updating as updating;
ghost use Rattle.cluster_node.specs.Acting.{EndsAs};
ghost use Rattle.cluster_node.specs.Events.{Batches, NodeChecks, NodeInstalls, NodeReceives, Ticks};
ghost use Rattle.cluster_node.specs.States.{HasRoom, IsSameNode, clocked};

use crate::following::{Followed, follow};
use crate::node::Node;
use crate::taking::batch;
use cluster_member::{Effects, Member};
use disk_core::Disk;
use gum_messages::{Message, View};
use std::alloc::AllocError;
use update_records::Update;

impl Node {
    /// A view was declared.
    #[tactic(auto, using(crate::proofs::Behind::leads_by))]
    pub fn install<D: Disk>(&mut self, disk: &mut D, view: &View) -> Result<Effects, AllocError>
        requires size { 64 ≤ (D.view disk.old).size }
        ensures installs { NodeInstalls (D.view disk.old) self.old.running view.now result self.new.running (D.view disk.new) }
        ensures same { IsSameNode self.old self.new }
        ensures same_disk { SameDisk (D.view disk.old) (D.view disk.new) }
    {
        let Some(running) = &mut self.running else {
            return Ok(self.silence());
        };
        let request = head_request(&running.member);
        let came = running.member.install(disk, view);
        let followed = follow(self.alloc, running, request, came);
        self.end(followed)
    }

    /// A message came.
    #[tactic(auto, using(crate::proofs::Behind::leads_by))]
    pub fn receive<D: Disk>(
        &mut self,
        disk: &mut D,
        message: &Message,
    ) -> Result<Effects, AllocError>
        requires size { HasRoom self.old (D.view disk.old) }
        ensures receives { NodeReceives (D.view disk.old) self.old.running message.now result self.new.running (D.view disk.new) }
        ensures same { IsSameNode self.old self.new }
        ensures same_disk { SameDisk (D.view disk.old) (D.view disk.new) }
    {
        let Some(running) = &mut self.running else {
            return Ok(self.silence());
        };
        let request = head_request(&running.member);
        let came = running.member.receive(disk, message);
        let followed = follow(self.alloc, running, request, came);
        self.end(followed)
    }

    /// An open locker writes its registry into the log; elsewhere nothing is done.
    #[tactic(auto, using(crate::proofs::Behind::leads_by))]
    pub fn checkpoint<D: Disk>(&mut self, disk: &mut D) -> Result<Effects, AllocError>
        requires size { HasRoom self.old (D.view disk.old) }
        ensures writes { NodeChecks (D.view disk.old) self.old.running result self.new.running (D.view disk.new) }
        ensures same { IsSameNode self.old self.new }
        ensures same_disk { SameDisk (D.view disk.old) (D.view disk.new) }
    {
        let Some(running) = &mut self.running else {
            return Ok(self.silence());
        };
        let request = head_request(&running.member);
        let came = running.member.checkpoint(disk);
        let followed = follow(self.alloc, running, request, came);
        self.end(followed)
    }

    /// Time has passed: the node repeats what may have been lost.
    pub fn tick(&mut self) -> Result<Effects, AllocError>
        ensures ticks { IfOk result (λ effects. Ticks self.old.running self.new.running effects) }
        ensures same { IsSameNode self.old self.new }
        ensures stops { OnErr result (self.new.running ≡ None) }
    {
        let Some(running) = &self.running else {
            return Ok(self.silence());
        };
        match running.member.tick() {
            Ok(told) => Ok(told.effects),
            Err(error) => {
                self.stop();
                Err(error)
            }
        }
    }

    /// The stamp of the records that it logs from now on.
    pub fn clock(&mut self, stamp: u64)
        ensures { self.new ≡ clocked stamp self.old }
    {
        if let Some(running) = &mut self.running {
            running.member.clock(stamp);
        }
    }

    /// A batch is handed in, which no client sent.
    pub fn batch(&mut self, update: Update) -> Result<Effects, AllocError>
        requires valid { IsValid update }
        ensures batches { IfOk result (λ effects. Batches update self.old.running self.new.running effects) }
        ensures same { IsSameNode self.old self.new }
        ensures stops { OnErr result (self.new.running ≡ None) }
    {
        let Some(running) = &mut self.running else {
            return Ok(self.silence());
        };
        match batch(
            self.alloc,
            &mut running.member,
            &mut running.clients,
            update,
        ) {
            Ok(effects) => Ok(Effects::new(effects)),
            Err(error) => {
                self.stop();
                Err(error)
            }
        }
    }
}

impl Node {
    /// The event is over: where the node doesn't go on it runs no longer.
    fn end(&mut self, followed: Result<Followed, AllocError>) -> Result<Effects, AllocError>
        ensures ends { IfOk result (λ effects. EndsAs followed self.old.running effects self.new.running) }
        ensures stops { OnErr result (self.new.running ≡ None) }
        ensures failed { IsErr followed ↔ IsErr result }
        ensures same { IsSameNode self.old self.new }
    {
        match followed {
            Ok(Followed::GoesOn(effects)) => Ok(effects),
            Ok(Followed::Stops(effects)) => {
                self.stop();
                Ok(effects)
            }
            Err(error) => {
                self.stop();
                Err(error)
            }
        }
    }
}

/// The request of the head of its queue; 0 where the queue is empty.
fn head_request(member: &Member) -> u64
    ensures { result ≡ unwrap_or (updating.head_request member.now.rules.core) 0 }
{
    member.head_request().unwrap_or(0)
}
