//! Global Update at one node.

ghost use Rattle.std.specs.Prelude.{◌≡◌, ◌+◌, ◌-◌, ◌<◌, ◌^◌, IfOk, IfSome, OnOk, Some};
ghost use Rattle.gum_messages.specs.Members.{inc_of};
ghost use Rattle.gum_messages.specs.declared.body.Body.TheVariants.{Applied, Apply, Granted};
ghost use Rattle.update_records.specs.Validity.{IsValid};
ghost use Rattle.gum_core.specs.Updating.{last_place};
ghost use Rattle.gum_core.specs.Updating as updating;
ghost use Rattle.gum_core.specs.declared.decision.Decision as decision;
ghost use Rattle.view_reconcile.specs.Joining as joining;
ghost use Rattle.cluster_rules.specs.Nodes.{becomes, asks, done_of, tells};
ghost use Rattle.cluster_rules.specs.Updates.{applied, applies, asked_for, entry_for, grants, has_logged, may_submit, on_applied, on_apply, on_granted, on_release, replica_after, submit, without_head};
ghost use Rattle.member_rules.specs.States.{AddsNothing, IsBeside};
ghost use Rattle.member_rules.specs.Steps.{GoesOn, LogsAt, finishes, proceeds_by};

use crate::effects::Effects;
use crate::replica::apply_record;
use crate::rules::Rules;
use crate::told::Told;
use cluster_rules::Effect;
use gum_core::Decision;
use gum_messages::Body;
use registry_defs::Outcome;
use std::alloc::AllocError;
use update_records::{Record, Update, UpdateId};

/// The greatest number of a request.
const LAST_REQUEST: u64 = 9_223_372_036_854_775_807;

impl Rules {
    /// An update of this node is queued, and asked for where it is the head. Where the view isn't open, or the last request was given, nothing happens.
    #[tactic(auto, using(crate::proofs::Proceeding::submitted_is, crate::proofs::Proceeding::not_submitted, crate::proofs::Proceeding::may_room, crate::proofs::Ways::submitted_whole))]
    pub fn submit(&mut self, update: Update) -> Result<Told, AllocError>
        requires valid { IsValid update }
        ensures submitted { IfOk result (λ told. GoesOn (submit self.old update) self.new told) }
        ensures beside { IsBeside self.old self.new }
    {
        if !self.may_submit() {
            return self.nothing();
        }
        let (_, decision) = self.core.submit(update)?;
        self.ask_first(decision)
    }

    /// The locker logged this record, and the node has the update lock for it.
    #[tactic(auto, using(crate::proofs::Proceeding::granted_is, crate::proofs::Ways::granted_whole))]
    pub fn granted(&mut self, entry: &Record) -> Result<Told, AllocError>
        ensures granted { IfOk result (λ told. GoesOn (on_granted self.old entry.now) self.new told) }
        ensures beside { IsBeside self.old self.new }
    {
        let decision = self.core.granted(entry.id.req, entry.place);
        self.proceed(entry, decision)
    }

    /// A member has applied the record at this place.
    #[tactic(auto, using(crate::proofs::Proceeding::applied_is, crate::proofs::Ways::applied_whole))]
    pub fn applied(&mut self, from: u16, place: u64) -> Result<Told, AllocError>
        ensures applied { IfOk result (λ told. GoesOn (on_applied self.old from place) self.new told) }
        ensures beside { IsBeside self.old self.new }
    {
        let entry = match &self.spreads {
            Some(entry) => entry.copy(self.alloc)?,
            None => return self.nothing(),
        };
        let decision = self.core.applied(from, place);
        self.proceed(&entry, decision)
    }

    /// The sender hands a record on to this member.
    #[tactic(auto, using(crate::proofs::Openings::follower_adds_nothing, crate::proofs::Openings::same_adds_nothing))]
    pub fn apply(&mut self, from: u16, entry: &Record) -> Result<Told, AllocError>
        ensures applied { IfOk result (λ told. GoesOn (on_apply self.old from entry.now) self.new told) }
        ensures adds_nothing { AddsNothing self.old self.new }
    {
        if !self.join.is_ready() || self.locks() {
            return self.nothing();
        }
        self.apply_in_turn(from, entry)
    }

    /// A member releases the lock.
    #[tactic(auto, using(crate::proofs::Proceeding::released_is, crate::proofs::Ways::released_whole))]
    pub fn release(&mut self, from: u16, req: u64) -> Result<Told, AllocError>
        ensures released { IfOk result (λ told. GoesOn (on_release self.old from req) self.new told) }
        ensures beside { IsBeside self.old self.new }
    {
        let _ = self.core.release(from, req);
        self.nothing()
    }

    // ---- an Ask

    /// What a member's Ask comes to.
    pub fn asked(&self, from: u16, req: u64) -> Decision
        ensures asked { result ≡ updating.asked self.now.core from req (done_of self.now) }
        ensures here { LogsAt self.now.join result }
    {
        self.core.ask(from, req, self.done())
    }

    /// The record that it becomes.
    pub fn entry_for(&self, from: u16, req: u64, update: &Update) -> Result<Record, AllocError>
        requires room { done_of self.now < last_place }
        requires valid { IsValid update.now }
        ensures { IfOk result (λ entry. entry ≡ entry_for self.now from req update.now) }
    {
        let update = update.copy(self.alloc)?;
        Ok(Record {
            place: self.done() + 1,
            stamp: self.stamp,
            id: UpdateId {
                node: from,
                inc: self.incarnation(from),
                req,
            },
            update,
        })
    }

    /// The lock's holder is told again that its update was logged.
    pub fn grant(&self, to: u16) -> Result<Told, AllocError>
        ensures { IfOk result (λ told. GoesOn (grants self.now to) self.now told) }
    {
        match &self.last {
            Some(entry) => {
                let entry = entry.copy(self.alloc)?;
                self.tell(to, Body::Granted { entry })
            }
            None => self.nothing(),
        }
    }

    /// The record was logged: it is applied here, and its sender has the lock.
    #[tactic(auto, using(crate::proofs::Ways::logged_whole, crate::proofs::Ways::members_are))]
    pub fn logged(&mut self, entry: &Record) -> Result<Told, AllocError>
        requires next { entry.now.place ≡ done_of self.old + 1 }
        requires member { 0 < inc_of self.old.join.view.members entry.now.id.node }
        requires asked { updating.asked self.old.core entry.now.id.node entry.now.id.req (done_of self.old) ≡ decision.Decision.Write entry.now.id.node entry.now.id.req }
        ensures logged { IfOk result (λ told. GoesOn (tells (has_logged self.old entry.now) entry.now.id.node (Granted entry.now)) self.new told) }
        ensures join { OnOk result (self.new.join ≡ self.old.join) }
        ensures replica { OnOk result (self.new.replica ≡ replica_after entry.now self.old.replica) }
        ensures last { OnOk result (self.new.last ≡ Some entry.now) }
    {
        self.apply_here(entry)?;
        let _ = self.core.logged(entry.id.node, entry.id.req, entry.place);
        let copy = entry.copy(self.alloc)?;
        self.tell(entry.id.node, Body::Granted { entry: copy })
    }
}

impl Rules {
    #[tactic(auto, using(crate::proofs::Ways::open_is))]
    fn may_submit(&self) -> bool
        ensures { result ≡ may_submit self.now }
    {
        self.join.is_open() && self.core.requests() < LAST_REQUEST
    }

    fn ask_first(&self, decision: Decision) -> Result<Told, AllocError>
        ensures { IfOk result (λ told. GoesOn (becomes self.now (asks self.now (asked_for decision))) self.now told) }
    {
        match decision {
            Decision::Ask { req } => self.asking(Vec::new(self.alloc), Some(req)),
            Decision::Nothing => self.nothing(),
            Decision::Write { .. } => self.nothing(),
            Decision::Grant { .. } => self.nothing(),
            Decision::Spread { .. } => self.nothing(),
            Decision::Finish { .. } => self.nothing(),
            Decision::Free => self.nothing(),
            Decision::ReleaseAgain { .. } => self.nothing(),
            Decision::Take => self.nothing(),
            Decision::Again => self.nothing(),
        }
    }

    fn incarnation(&self, node: u16) -> u64
        ensures { result ≡ inc_of self.now.join.view.members node }
    {
        match self.join.view() {
            Some(view) => view.members().incarnation(node),
            None => 0,
        }
    }

    /// What was decided on the head, whose record this is.
    fn proceed(&mut self, entry: &Record, decision: Decision) -> Result<Told, AllocError>
        ensures proceeds { IfOk result (λ told. GoesOn (proceeds_by self.old entry.now decision) self.new told) }
        ensures beside { IsBeside self.old self.new }
    {
        match decision {
            Decision::Spread { to, .. } => self.spread(to, entry),
            Decision::Finish { req, place, next } => self.finish(req, place, next),
            Decision::ReleaseAgain { req } => {
                let locker = self.locker();
                self.tell(locker, Body::Release { req })
            }
            Decision::Nothing => self.nothing(),
            Decision::Ask { .. } => self.nothing(),
            Decision::Write { .. } => self.nothing(),
            Decision::Grant { .. } => self.nothing(),
            Decision::Free => self.nothing(),
            Decision::Take => self.nothing(),
            Decision::Again => self.nothing(),
        }
    }

    /// The head's record goes to this member.
    fn spread(&mut self, to: u16, entry: &Record) -> Result<Told, AllocError>
        ensures spreads { IfOk result (λ told. GoesOn (tells (record self.old { spreads = Some entry.now }) to (Apply entry.now)) self.new told) }
        ensures beside { IsBeside self.old self.new }
    {
        self.spreads = Some(entry.copy(self.alloc)?);
        let copy = entry.copy(self.alloc)?;
        self.tell(to, Body::Apply { entry: copy })
    }

    /// The head has left the queue: it is acknowledged, and the lock released.
    fn finish(&mut self, req: u64, place: u64, next: Option<u64>) -> Result<Told, AllocError>
        ensures finishes { IfOk result (λ told. GoesOn (finishes self.old req place next) self.new told) }
        ensures beside { IsBeside self.old self.new }
    {
        let outcome = self.forget_head();
        let mut effects = Vec::new(self.alloc);
        effects.push(Effect::Acked {
            view: self.number(),
            place,
        })?;
        effects.push(Effect::Send(self.packet(self.locker(), Body::Release { req })))?;
        self.ask(&mut effects, next)?;
        Ok(Told {
            effects: Effects::new(effects),
            outcome,
        })
    }

    /// At a member that is ready and isn't the locker.
    #[tactic(auto, using(crate::proofs::Deciding::takes_next))]
    fn apply_in_turn(&mut self, from: u16, entry: &Record) -> Result<Told, AllocError>
        ensures applied { IfOk result (λ told. GoesOn (applies self.old from entry.now (updating.applying (done_of self.old) entry.now.place)) self.new told) }
        ensures join { self.new.join ≡ self.old.join }
    {
        match self.core.apply(self.done(), entry.place) {
            Decision::Take => self.take(from, entry),
            Decision::Again => self.tell(from, Body::Applied { place: entry.place }),
            Decision::Nothing => self.nothing(),
            Decision::Ask { .. } => self.nothing(),
            Decision::Write { .. } => self.nothing(),
            Decision::Grant { .. } => self.nothing(),
            Decision::Spread { .. } => self.nothing(),
            Decision::Finish { .. } => self.nothing(),
            Decision::Free => self.nothing(),
            Decision::ReleaseAgain { .. } => self.nothing(),
        }
    }

    /// The record that comes next is applied, and its sender told.
    fn take(&mut self, from: u16, entry: &Record) -> Result<Told, AllocError>
        requires next { entry.now.place ≡ done_of self.old + 1 }
        ensures applied { IfOk result (λ told. GoesOn (tells (applied entry.now self.old) from (Applied entry.now.place)) self.new told) }
        ensures join { self.new.join ≡ self.old.join }
    {
        self.apply_here(entry)?;
        self.tell(from, Body::Applied { place: entry.place })
    }

    /// The record that comes next is applied.
    #[tactic(auto, using(crate::proofs::Ways::applied_here_whole, crate::proofs::Deciding::room_to_apply))]
    pub(crate) fn apply_here(&mut self, entry: &Record) -> Result<(), AllocError>
        requires next { entry.now.place ≡ done_of self.old + 1 }
        ensures applied { OnOk result (self.new ≡ applied entry.now self.old) }
        ensures join { self.new.join ≡ self.old.join }
    {
        let is_head = self.is_head(entry);
        let copy = entry.copy(self.alloc)?;
        let outcome = apply_record(&mut self.replica, entry)?;
        self.encoded = None;
        self.last = Some(copy);
        if is_head {
            self.outcome = outcome;
        }
        Ok(())
    }

    /// What came of the head's record. The head has left the queue.
    pub(crate) fn forget_head(&mut self) -> Option<Outcome>
        ensures outcome { result ≡ self.old.outcome }
        ensures forgot { self.new ≡ without_head self.old self.old.core }
    {
        self.spreads = None;
        self.settled = None;
        self.outcome.take()
    }
}
