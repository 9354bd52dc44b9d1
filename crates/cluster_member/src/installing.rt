//! What a declared view comes to.

ghost use Rattle.std.specs.Prelude.{◌≡◌, ◌≤◌, OnOk, Some, None, false, true};
ghost use Rattle.disk_core.specs.Calls.{SameDisk};
ghost use Rattle.gum_messages.specs.Members.{is_locker};
ghost use Rattle.cluster_rules.specs.Joins.{entered, recovers_from, takes_view};
ghost use Rattle.cluster_rules.specs.Nodes.{nothing};
ghost use Rattle.cluster_rules.specs.declared.offering.Offering.{Offering};
ghost use Rattle.registry_machine.specs.Machine.{replicated};
ghost use Rattle.cluster_member.specs.Events.{Comes, Goes, Installs, Recovers};
ghost use Rattle.cluster_member.specs.States.{IsLogAt};

use crate::hearing::forget;
use crate::member::Member;
use crate::stop::Stop;
use disk_core::Disk;
use gum_messages::View;
use member_rules::Told;
use record_log::{RecordLog, Recovered};

impl Member {
    /// A view was declared. The locker of a view that the node takes recovers the log under the number of the view.
    #[tactic(auto, using(crate::proofs::Installations::not_taken, crate::proofs::Installations::not_taken_lacks, crate::proofs::Installations::taken_there, crate::proofs::Installations::taken_here))]
    pub fn install<D: Disk>(&mut self, disk: &mut D, view: &View) -> Result<Told, Stop>
        requires disk_size { 64 ≤ (D.view disk.old).size }
        ensures installs { Installs (D.view disk.old) self.old view.now result self.new (D.view disk.new) }
        ensures same { SameDisk (D.view disk.old) (D.view disk.new) }
    {
        if !self.rules.takes(view) {
            return Ok(self.rules.nothing()?);
        }
        if view.members().is_locker(self.rules.node()) {
            return self.recover(disk, view);
        }
        self.enter(view)
    }
}

impl Member {
    /// At another member than the locker.
    #[tactic(auto, using(crate::proofs::Keeping::unready_has, crate::proofs::Keeping::fresh_has))]
    fn enter(&mut self, view: &View) -> Result<Told, Stop>
        requires takes { takes_view self.old.rules view.now ≡ true }
        requires elsewhere { is_locker view.now.members self.old.rules.join.node ≡ false }
        ensures { Goes (nothing (entered view.now self.old.rules)) None result self.new }
    {
        match self.rules.enter(view) {
            Ok(told) => {
                self.log = None;
                Ok(told)
            }
            Err(error) => {
                forget(&mut self.rules, self.alloc);
                Err(error.into())
            }
        }
    }

    /// The locker opens the log.
    #[tactic(auto, using(crate::proofs::Installations::recovers_well, crate::proofs::Installations::recovers_not, crate::proofs::Installations::log_at))]
    fn recover<D: Disk>(&mut self, disk: &mut D, view: &View) -> Result<Told, Stop>
        requires disk_size { 64 ≤ (D.view disk.old).size }
        requires takes { takes_view self.old.rules view.now ≡ true }
        requires here { is_locker view.now.members self.old.rules.join.node ≡ true }
        ensures recovers { Recovers (D.view disk.old) self.old view.now result self.new (D.view disk.new) }
        ensures same { SameDisk (D.view disk.old) (D.view disk.new) }
    {
        match RecordLog::recover(self.alloc, disk, view.number()) {
            Ok((log, recovered)) => self.stand_up(view, log, recovered),
            Err(fault) => Err(fault.into()),
        }
    }

    /// The log was recovered.
    #[tactic(auto, using(crate::proofs::Keeping::recovered_has, crate::proofs::Keeping::fresh_has))]
    fn stand_up(&mut self, view: &View, log: RecordLog, recovered: Recovered) -> Result<Told, Stop>
        requires takes { takes_view self.old.rules view.now ≡ true }
        requires here { is_locker view.now.members self.old.rules.join.node ≡ true }
        requires log { IsLogAt view.now.number recovered.count recovered.cap recovered.last log }
        requires cap { recovered.registry.cap ≡ recovered.cap }
        ensures comes { let offering : Offering = record { count = recovered.count; cap = recovered.cap; last = recovered.last } in
            Comes (recovers_from (entered view.now self.old.rules) offering (replicated recovered.registry)) result self.new.rules }
        ensures kept { OnOk result (self.new.log ≡ Some log) }
    {
        let Recovered {
            count,
            cap,
            last,
            registry,
        } = recovered;
        match self.rules.recover(view, count, cap, last, registry) {
            Ok(told) => {
                self.log = Some(log);
                Ok(told)
            }
            Err(error) => {
                forget(&mut self.rules, self.alloc);
                Err(error.into())
            }
        }
    }
}
