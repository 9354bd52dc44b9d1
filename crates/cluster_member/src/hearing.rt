//! What a message comes to.

ghost use Rattle.std.specs.Prelude.{◌≡◌, ◌≤◌, ◌<◌, IfSome};
ghost use Rattle.disk_core.specs.Calls.{SameDisk};
ghost use Rattle.gum_messages.specs.Members.{inc_of};
ghost use Rattle.gum_messages.specs.Messages.{IsKept, IsOffered};
ghost use Rattle.quorum_log.specs.Layout.{image_size};
ghost use Rattle.cluster_rules.specs.Joins.{on_need, on_offer, on_open_view, on_piece, on_ready};
ghost use Rattle.cluster_rules.specs.Nodes.{fresh};
ghost use Rattle.cluster_rules.specs.Updates.{on_applied, on_apply, on_granted, on_release};
ghost use Rattle.registry_machine.specs.Machine.{registry_machine};
ghost use Rattle.cluster_member.specs.Events.{Goes, Hears, Receives};

use crate::member::Member;
use crate::stop::Stop;
use disk_core::Disk;
use gum_messages::{Body, Message};
use member_rules::{Rules, Told};
use std::alloc::{AllocError, Global};
use update_records::Record;
use wire_fields::Octets;

impl Member {
    /// A message came, of whatever sender.
    #[tactic(auto, using(crate::proofs::Hearings::received, crate::proofs::Hearings::unheard, crate::proofs::Hearings::unheard_lacks, crate::proofs::Hearings::counted_sender))]
    pub fn receive<D: Disk>(&mut self, disk: &mut D, message: &Message) -> Result<Told, Stop>
        requires disk_size { IfSome self.old.log (λ log. image_size log.cap ≤ (D.view disk.old).size) }
        ensures receives { Receives (D.view disk.old) self.old message.now result self.new (D.view disk.new) }
        ensures same { SameDisk (D.view disk.old) (D.view disk.new) }
    {
        if !self.rules.counts(message) {
            return Ok(self.rules.nothing()?);
        }
        self.hear(disk, message.from, &message.body)
    }
}

impl Member {
    /// One that counts.
    #[tactic(auto, using(crate::proofs::Hearings::asked_hears, crate::proofs::Hearings::granted_hears, crate::proofs::Hearings::apply_hears, crate::proofs::Hearings::applied_hears, crate::proofs::Hearings::release_hears, crate::proofs::Hearings::offer_hears, crate::proofs::Hearings::need_hears, crate::proofs::Hearings::piece_hears, crate::proofs::Hearings::ready_hears, crate::proofs::Hearings::open_view_hears))]
    fn hear<D: Disk>(&mut self, disk: &mut D, from: u16, body: &Body) -> Result<Told, Stop>
        requires sender { 0 < inc_of self.old.rules.join.view.members from }
        requires kept { IsKept body.now }
        requires disk_size { IfSome self.old.log (λ log. image_size log.cap ≤ (D.view disk.old).size) }
        ensures hears { Hears (D.view disk.old) self.old from body.now result self.new (D.view disk.new) }
        ensures same { SameDisk (D.view disk.old) (D.view disk.new) }
    {
        match body {
            Body::Ask { req, update } => self.ask(disk, from, *req, update),
            Body::Granted { entry } => self.granted(entry),
            Body::Apply { entry } => self.apply(from, entry),
            Body::Applied { place } => self.applied(from, *place),
            Body::Release { req } => self.release(from, *req),
            Body::Offer { count, cap, last } => self.offer(from, *count, *cap, last),
            Body::Need { offset } => self.need(from, *offset),
            Body::Piece {
                total,
                offset,
                bytes,
            } => self.piece(*total, *offset, bytes),
            Body::Ready => self.ready(from),
            Body::OpenView => self.open_view(from),
        }
    }

    #[tactic(auto, using(crate::proofs::Keeping::beside_has))]
    fn granted(&mut self, entry: &Record) -> Result<Told, Stop>
        ensures { Goes (on_granted self.old.rules entry.now) self.old.log result self.new }
    {
        Ok(self.rules.granted(entry)?)
    }

    #[tactic(auto, using(crate::proofs::Keeping::adds_nothing_has))]
    fn apply(&mut self, from: u16, entry: &Record) -> Result<Told, Stop>
        ensures { Goes (on_apply self.old.rules from entry.now) self.old.log result self.new }
    {
        Ok(self.rules.apply(from, entry)?)
    }

    #[tactic(auto, using(crate::proofs::Keeping::beside_has))]
    fn applied(&mut self, from: u16, place: u64) -> Result<Told, Stop>
        ensures { Goes (on_applied self.old.rules from place) self.old.log result self.new }
    {
        Ok(self.rules.applied(from, place)?)
    }

    #[tactic(auto, using(crate::proofs::Keeping::beside_has))]
    fn release(&mut self, from: u16, req: u64) -> Result<Told, Stop>
        ensures { Goes (on_release self.old.rules from req) self.old.log result self.new }
    {
        Ok(self.rules.release(from, req)?)
    }

    #[tactic(auto, using(crate::proofs::Keeping::adds_nothing_has, crate::proofs::Keeping::fresh_has))]
    fn offer(
        &mut self,
        from: u16,
        count: u64,
        cap: u32,
        last: &Option<Record>,
    ) -> Result<Told, Stop>
        requires offered { IsOffered count cap }
        ensures { Goes (on_offer self.old.rules from (record { count = count; cap = cap; last = last.now })) self.old.log result self.new }
    {
        match self.rules.offer(from, count, cap, last) {
            Ok(told) => Ok(told),
            Err(error) => {
                forget(&mut self.rules, self.alloc);
                Err(error.into())
            }
        }
    }

    #[tactic(auto, using(crate::proofs::Keeping::beside_has, crate::proofs::Keeping::fresh_has))]
    fn need(&mut self, from: u16, offset: u32) -> Result<Told, Stop>
        ensures { Goes (on_need self.old.rules from offset) self.old.log result self.new }
    {
        match self.rules.need(from, offset) {
            Ok(told) => Ok(told),
            Err(error) => {
                forget(&mut self.rules, self.alloc);
                Err(error.into())
            }
        }
    }

    #[tactic(auto, using(crate::proofs::Keeping::adds_nothing_has, crate::proofs::Keeping::fresh_has))]
    fn piece(&mut self, total: u32, offset: u32, bytes: &Octets) -> Result<Told, Stop>
        ensures { Goes (on_piece self.old.rules total offset bytes.now) self.old.log result self.new }
    {
        match self.rules.piece(total, offset, bytes) {
            Ok(told) => Ok(told),
            Err(error) => {
                forget(&mut self.rules, self.alloc);
                Err(error.into())
            }
        }
    }

    #[tactic(auto, using(crate::proofs::Keeping::adds_nothing_has))]
    fn ready(&mut self, from: u16) -> Result<Told, Stop>
        ensures { Goes (on_ready self.old.rules from) self.old.log result self.new }
    {
        Ok(self.rules.ready(from)?)
    }

    #[tactic(auto, using(crate::proofs::Keeping::adds_nothing_has))]
    fn open_view(&mut self, from: u16) -> Result<Told, Stop>
        ensures { Goes (on_open_view self.old.rules from) self.old.log result self.new }
    {
        Ok(self.rules.open_view(from)?)
    }
}

/// The node has stopped: nothing of it is left but that it isn't ready.
pub(crate) fn forget(rules: &mut Rules, alloc: Global)
    ensures { rules.new ≡ fresh registry_machine 0 0 }
{
    *rules = Rules::new(alloc, 0, 0);
}
