//! What a member keeps, and its events without the log.

ghost use Rattle.std.specs.Prelude.{◌≡◌, ◌+◌, IfOk, OnOk, length, option_map};
ghost use Rattle.update_records.specs.Validity.{IsValid};
ghost use Rattle.gum_core.specs.Updating as updating;
ghost use Rattle.view_reconcile.specs.Joining as joining;
ghost use Rattle.cluster_rules.specs.Joins.{known_done};
ghost use Rattle.cluster_rules.specs.Receiving.{tick};
ghost use Rattle.cluster_rules.specs.Updates.{submit};
ghost use Rattle.registry_machine.specs.Machine.{replicated};
ghost use Rattle.member_rules.specs.Steps.{GoesOn};
ghost use Rattle.cluster_member.specs.States.{fresh_member, registry_in, view_number};

use clus_registry::Registry;
use member_rules::{Rules, Told};
use record_log::RecordLog;
use std::alloc::{AllocError, Global};
use std::marker::Model;
use update_records::{Record, Update};

/// One node without its connections.
///
/// The log is that of the view whose locker it is. After an error it isn't used again: it has stopped as by a death.
#[derive(Drop)]
pub struct Member {
    pub(crate) alloc: Global,
    pub(crate) rules: Rules,
    pub(crate) log: Option<RecordLog>,
}

impl Model for Member {
    ghost use Rattle.cluster_member.specs.States.{HasLog, MemberState};

    ghost Value = { MemberState };

    ghost view = { λ m. record { rules = m.rules; log = m.log } };

    ghost invariant = { λ m. HasLog m.rules m.log };
}

impl Member {
    /// A node in one of its incarnations, before its first view and without a registry.
    #[tactic(auto, using(crate::proofs::Keeping::fresh_has))]
    pub fn new(alloc: Global, node: u16, inc: u64) -> Member
        ensures { result ≡ fresh_member node inc }
    {
        Member {
            alloc,
            rules: Rules::new(alloc, node, inc),
            log: None,
        }
    }

    /// An update of this node is queued, and asked for where it is the head. Where the view isn't open, or the last request was given, nothing happens.
    #[tactic(auto, using(crate::proofs::Keeping::beside_has))]
    pub fn submit(&mut self, update: Update) -> Result<Told, AllocError>
        requires valid { IsValid update }
        ensures submitted { IfOk result (λ told. GoesOn (submit self.old.rules update) self.new.rules told) }
        ensures log { self.new.log ≡ self.old.log }
    {
        self.rules.submit(update)
    }

    /// What the node sends again.
    pub fn tick(&self) -> Result<Told, AllocError>
        ensures { IfOk result (λ told. GoesOn (tick self.now.rules) self.now.rules told) }
    {
        self.rules.tick()
    }

    /// The stamp of the records that it logs, in units of 100 nanoseconds from the beginning of 1601.
    #[tactic(auto, using(crate::proofs::Keeping::stamped_has))]
    pub fn clock(&mut self, stamp: u64)
        ensures { self.new ≡ record self.old { rules = record (self.old.rules) { stamp = stamp } } }
    {
        self.rules.set_stamp(stamp);
    }

    // ---- what it keeps

    /// The view is open here.
    pub fn is_open(&self) -> bool
        ensures open { result ≡ self.now.rules.core.is_open }
        ensures join { result ≡ joining.is_open self.now.rules.join }
    {
        self.rules.is_open()
    }

    /// The number of its view; none before the first.
    pub fn view_number(&self) -> Option<u32>
        ensures { result ≡ view_number self.now }
    {
        match self.rules.number() {
            0 => None,
            number => Some(number),
        }
    }

    /// How many records its registry has applied; none without a registry.
    pub fn done(&self) -> Option<u64>
        ensures { result ≡ known_done self.now.rules }
    {
        match self.rules.replica() {
            Some(replica) => Some(replica.done()),
            None => None,
        }
    }

    pub fn registry(&self) -> Option<&Registry>
        ensures { option_map (λ registry. replicated registry.now) result ≡ registry_in self.now }
    {
        match self.rules.replica() {
            Some(replica) => Some(replica.registry()),
            None => None,
        }
    }

    /// The last record that it applied, or that was offered with its registry.
    pub fn last_record(&self) -> Option<&Record>
        ensures { option_map (λ entry. entry.now) result ≡ self.now.rules.last }
    {
        self.rules.last()
    }

    /// The request of the head of its queue.
    pub fn head_request(&self) -> Option<u64>
        ensures { result ≡ updating.head_request self.now.rules.core }
    {
        self.rules.head_request()
    }

    /// How many requests it has given.
    pub fn requests(&self) -> u64
        ensures { result ≡ self.now.rules.core.passed + length self.now.rules.core.queue }
    {
        self.rules.requests()
    }
}
