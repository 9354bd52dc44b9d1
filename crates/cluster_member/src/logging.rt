//! What a member has its log written.

ghost use Rattle.std.specs.Prelude.{◌≡◌, ◌+◌, ◌≤◌, ◌<◌, IfSome};
ghost use Rattle.disk_core.specs.Calls.{SameDisk};
ghost use Rattle.gum_messages.specs.Members.{inc_of};
ghost use Rattle.gum_core.specs.Updating as updating;
ghost use Rattle.gum_core.specs.declared.decision.Decision as decision;
ghost use Rattle.update_records.specs.Validity.{IsValid};
ghost use Rattle.quorum_log.specs.Layout.{image_size};
ghost use Rattle.cluster_rules.specs.Nodes.{done_of, number_of};
ghost use Rattle.cluster_member.specs.Events.{Asks, Saves, Writes, WritesCheckpoint};
ghost use Rattle.cluster_member.specs.States.{OwnsLog};

use crate::hearing::forget;
use crate::member::Member;
use crate::stop::Stop;
use disk_core::Disk;
use gum_core::Decision;
use member_rules::Told;
use update_records::{Record, Update};

impl Member {
    /// An Ask, of a member of the view.
    #[tactic(auto, using(crate::proofs::Writings::ask_writes, crate::proofs::Writings::ask_else, crate::proofs::Writings::ask_lacks, crate::proofs::Writings::ask_write_lacks, crate::proofs::Owning::open_owns))]
    pub(crate) fn ask<D: Disk>(
        &mut self,
        disk: &mut D,
        from: u16,
        req: u64,
        update: &Update,
    ) -> Result<Told, Stop>
        requires sender { 0 < inc_of self.old.rules.join.view.members from }
        requires valid { IsValid update.now }
        requires disk_size { IfSome self.old.log (λ log. image_size log.cap ≤ (D.view disk.old).size) }
        ensures asks { Asks (D.view disk.old) self.old from req update.now result self.new (D.view disk.new) }
        ensures same { SameDisk (D.view disk.old) (D.view disk.new) }
    {
        match self.rules.asked(from, req) {
            Decision::Write { from, req } => {
                let entry = self.rules.entry_for(from, req, update)?;
                self.write(disk, &entry)
            }
            Decision::Grant { to, .. } => Ok(self.rules.grant(to)?),
            Decision::Nothing => Ok(self.rules.nothing()?),
            Decision::Ask { .. } => Ok(self.rules.nothing()?),
            Decision::Spread { .. } => Ok(self.rules.nothing()?),
            Decision::Finish { .. } => Ok(self.rules.nothing()?),
            Decision::Free => Ok(self.rules.nothing()?),
            Decision::ReleaseAgain { .. } => Ok(self.rules.nothing()?),
            Decision::Take => Ok(self.rules.nothing()?),
            Decision::Again => Ok(self.rules.nothing()?),
        }
    }

    /// The locker writes its registry into the log, where it is open.
    #[tactic(auto, using(crate::proofs::Writings::saves_here, crate::proofs::Writings::saves_nothing, crate::proofs::Writings::saves_nothing_lacks, crate::proofs::Owning::open_owns))]
    pub fn checkpoint<D: Disk>(&mut self, disk: &mut D) -> Result<Told, Stop>
        requires disk_size { IfSome self.old.log (λ log. image_size log.cap ≤ (D.view disk.old).size) }
        ensures writes { WritesCheckpoint (D.view disk.old) self.old result self.new (D.view disk.new) }
        ensures same { SameDisk (D.view disk.old) (D.view disk.new) }
    {
        if !self.rules.is_open() {
            return Ok(self.rules.nothing()?);
        }
        if !self.rules.locks() {
            return Ok(self.rules.nothing()?);
        }
        self.save(disk)
    }

    /// The record of an Ask is added to the log.
    #[tactic(auto, using(crate::proofs::Owning::no_log, crate::proofs::Owning::no_replica, crate::proofs::Owning::is_log, crate::proofs::Writings::written, crate::proofs::Writings::halted, crate::proofs::Writings::written_lacks, crate::proofs::Keeping::logged_has, crate::proofs::Keeping::fresh_has))]
    fn write<D: Disk>(&mut self, disk: &mut D, entry: &Record) -> Result<Told, Stop>
        requires next { entry.now.place ≡ done_of self.old.rules + 1 }
        requires sender { 0 < inc_of self.old.rules.join.view.members entry.now.id.node }
        requires asked { updating.asked self.old.rules.core entry.now.id.node entry.now.id.req (done_of self.old.rules) ≡ decision.Decision.Write entry.now.id.node entry.now.id.req }
        requires owns { OwnsLog (number_of self.old.rules) self.old.rules.replica self.old.rules.last self.old.log }
        requires disk_size { IfSome self.old.log (λ log. image_size log.cap ≤ (D.view disk.old).size) }
        ensures writes { Writes (D.view disk.old) self.old entry.now result self.new (D.view disk.new) }
        ensures same { SameDisk (D.view disk.old) (D.view disk.new) }
    {
        let Some(log) = self.log.take() else {
            unreachable!()
        };
        let Some(replica) = self.rules.replica() else {
            unreachable!()
        };
        match log.add(disk, entry, replica.registry(), self.rules.last()) {
            Ok(log) => {
                self.log = Some(log);
                match self.rules.logged(entry) {
                    Ok(told) => Ok(told),
                    Err(error) => {
                        forget(&mut self.rules, self.alloc);
                        Err(error.into())
                    }
                }
            }
            Err(fault) => {
                forget(&mut self.rules, self.alloc);
                Err(fault.into())
            }
        }
    }

    /// The registry is written into the log.
    #[tactic(auto, using(crate::proofs::Owning::no_log, crate::proofs::Owning::no_replica, crate::proofs::Owning::is_log, crate::proofs::Writings::saved, crate::proofs::Writings::not_saved, crate::proofs::Writings::saved_lacks, crate::proofs::Keeping::saved_has, crate::proofs::Keeping::fresh_has))]
    fn save<D: Disk>(&mut self, disk: &mut D) -> Result<Told, Stop>
        requires owns { OwnsLog (number_of self.old.rules) self.old.rules.replica self.old.rules.last self.old.log }
        requires disk_size { IfSome self.old.log (λ log. image_size log.cap ≤ (D.view disk.old).size) }
        ensures saves { Saves (D.view disk.old) self.old result self.new (D.view disk.new) }
        ensures same { SameDisk (D.view disk.old) (D.view disk.new) }
    {
        let Some(log) = self.log.take() else {
            unreachable!()
        };
        let Some(replica) = self.rules.replica() else {
            unreachable!()
        };
        match log.checkpoint(disk, replica.registry(), self.rules.last()) {
            Ok(log) => {
                self.log = Some(log);
                Ok(self.rules.nothing()?)
            }
            Err(fault) => {
                forget(&mut self.rules, self.alloc);
                Err(fault.into())
            }
        }
    }
}
