//! How a node takes a view, and how its locker catches up with the log.

ghost use Rattle.std.specs.Prelude.{◌≡◌, ◌+◌, true, false, nat_eq, IfOk, IfSome, IsSome, OnOk};
ghost use Rattle.gum_messages.specs.Members.{is_locker, is_member};
ghost use Rattle.gum_messages.specs.Messages.{IsOffered};
ghost use Rattle.view_reconcile.specs.declared.stage.Stage as stage;
ghost use Rattle.view_reconcile.specs.Joining.{has_all, installed, is_ready, lacks_last};
ghost use Rattle.cluster_rules.specs.Nodes.{done_of, nothing, place_of};
ghost use Rattle.cluster_rules.specs.Joins.{done_within, entered, recovers_from, takes_view};
ghost use Rattle.registry_machine.specs.Machine.{replicated};
ghost use Rattle.member_rules.specs.Recovery.{HasCaughtUp, caught_up, lack_of, offers_all, on_its_way, stands_up, with_last};
ghost use Rattle.member_rules.specs.States.{AddsNothing};
ghost use Rattle.member_rules.specs.Steps.{GoesOn};

use crate::effects::Effects;
use crate::following::{copy_last, place_of};
use crate::lack::Lack;
use crate::replica::Replica;
use crate::rules::Rules;
use crate::told::Told;
use clus_registry::Registry;
use gum_messages::{Body, View};
use std::alloc::AllocError;
use update_records::Record;
use view_reconcile::{Reconcile, Step};

impl Rules {
    /// Whether the node takes a view: its number is greater, and this incarnation is a member.
    pub fn takes(&self, view: &View) -> bool
        ensures { result ≡ takes_view self.now view.now }
    {
        self.number() < view.number() && is_member(view, self.node(), self.inc())
    }

    /// The view is taken at another member than its locker.
    #[tactic(auto, using(crate::proofs::Ways::entered_whole, crate::proofs::Openings::unready_adds_nothing))]
    pub fn enter(&mut self, view: &View) -> Result<Told, AllocError>
        requires takes { takes_view self.old view.now ≡ true }
        requires elsewhere { is_locker view.now.members self.old.join.node ≡ false }
        ensures enters { IfOk result (λ told. GoesOn (nothing (entered view.now self.old)) self.new told) }
        ensures waits { OnOk result (is_ready self.new.join ≡ false) }
        ensures adds_nothing { OnOk result (AddsNothing self.old self.new) }
    {
        let way = self.way_into(view)?;
        self.core.enter(view)?;
        self.join = way;
        self.pulled = None;
        self.spreads = None;
        self.encoded = None;
        self.nothing()
    }

    /// The view is taken at its locker, which catches up with the log that it recovered: with the number of its records,
    /// its capacity, its last record and the registry.
    #[tactic(auto, using(crate::proofs::Enters::recovers_is, crate::proofs::Enters::has_caught_up, crate::proofs::Enters::caught_some, crate::proofs::Enters::caught_join))]
    pub fn recover(
        &mut self,
        view: &View,
        count: u64,
        cap: u32,
        last: Option<Record>,
        registry: Registry,
    ) -> Result<Told, AllocError>
        requires takes { takes_view self.old view.now ≡ true }
        requires here { is_locker view.now.members self.old.join.node ≡ true }
        requires offered { IsOffered count cap }
        requires cap { registry.cap ≡ cap }
        ensures recovers { IfOk result (λ told. GoesOn (recovers_from (entered view.now self.old) (record { count = count; cap = cap; last = last }) (replicated registry)) self.new told) }
        ensures caught { OnOk result (HasCaughtUp self.new.replica count cap) }
        ensures last { OnOk result (self.new.last ≡ last) }
        ensures view { OnOk result (self.new.join.view ≡ view.now) }
    {
        self.catch_up(count, cap, &last, registry)?;
        self.set_out(view)?;
        self.stand_up(count, cap, last)
    }
}

impl Rules {
    /// Its way into the view, at the beginning.
    #[tactic(auto, using(crate::proofs::Entered::way_is, crate::proofs::Entered::way_begins))]
    fn way_into(&self, view: &View) -> Result<Reconcile, AllocError>
        requires takes { takes_view self.now view.now ≡ true }
        ensures installed { IfOk result (λ way. way ≡ (installed self.now.join view.now).0) }
        ensures begins { IfOk result (λ way. way ≡ record self.now.join { view = view.now; stage = stage.Stage.Waiting; ready = way.ready }) }
    {
        let mut way = Reconcile::new(self.alloc, self.node(), self.inc());
        let _ = way.install(view)?;
        Ok(way)
    }

    /// The locker takes what it lacks of the log.
    #[tactic(auto, using(crate::proofs::Enters::last_comes_next, crate::proofs::Ways::with_registry_whole))]
    fn catch_up(
        &mut self,
        count: u64,
        cap: u32,
        last: &Option<Record>,
        registry: Registry,
    ) -> Result<(), AllocError>
        requires offered { IsOffered count cap }
        ensures { OnOk result (self.new ≡ caught_up self.old count cap last.now (replicated registry)) }
    {
        match self.lack(count, cap, last) {
            Lack::Nothing => Ok(()),
            Lack::Last => self.apply_last(last),
            Lack::State => {
                self.replica = Some(Replica::new(registry, count));
                self.encoded = None;
                Ok(())
            }
        }
    }

    fn lack(&self, count: u64, cap: u32, last: &Option<Record>) -> Lack
        ensures { result ≡ lack_of (done_within self.now cap) count (place_of last.now) }
    {
        let known = self.done_within(cap);
        if has_all(known, count) {
            return Lack::Nothing;
        }
        if lacks_last(known, count, place_of(last)) {
            return Lack::Last;
        }
        Lack::State
    }

    /// How many records it has applied, where its registry has this capacity.
    fn done_within(&self, cap: u32) -> Option<u64>
        ensures { result ≡ done_within self.now cap }
    {
        let Some(replica) = &self.replica else {
            return None;
        };
        if replica.registry().cap() == cap {
            Some(replica.done())
        } else {
            None
        }
    }

    fn apply_last(&mut self, last: &Option<Record>) -> Result<(), AllocError>
        requires next { IfSome last.now (λ e. e.place ≡ done_of self.old + 1) }
        ensures { OnOk result (self.new ≡ with_last self.old last.now) }
    {
        match last {
            Some(entry) => self.apply_here(entry),
            None => Ok(()),
        }
    }

    /// The view is entered at its locker, which is on its way then.
    #[tactic(auto, using(crate::proofs::Enters::sets_out_at, crate::proofs::Ways::set_out_whole))]
    fn set_out(&mut self, view: &View) -> Result<(), AllocError>
        requires takes { takes_view self.old view.now ≡ true }
        requires here { is_locker view.now.members self.old.join.node ≡ true }
        requires some { IsSome self.old.replica }
        ensures { OnOk result (self.new ≡ on_its_way (entered view.now self.old)) }
    {
        let mut way = self.way_into(view)?;
        let _ = way.offer(0, None, None);
        self.core.enter(view)?;
        self.join = way;
        self.pulled = None;
        self.spreads = None;
        self.encoded = None;
        Ok(())
    }

    /// It is ready: it offers the log to the others, or opens where it is alone.
    #[tactic(auto, using(crate::proofs::Enters::stands_ready_is, crate::proofs::Enters::stands_open_is, crate::proofs::Enters::taking_past))]
    fn stand_up(&mut self, count: u64, cap: u32, last: Option<Record>) -> Result<Told, AllocError>
        requires taking { self.old.join.stage ≡ stage.Stage.Taking }
        requires some { IsSome self.old.replica }
        requires offered { IsOffered count cap }
        ensures stands { IfOk result (λ told. GoesOn (stands_up self.old count cap last) self.new told) }
        ensures replica { OnOk result (self.new.replica ≡ self.old.replica) }
        ensures last { OnOk result (self.new.last ≡ last) }
        ensures view { OnOk result (self.new.join.view ≡ self.old.join.view) }
    {
        self.join_up(count, last);
        match self.join.taken(true) {
            Step::Ready => self.offer_all(count, cap),
            Step::Open => {
                let decision = self.core.open(self.settled);
                self.open(decision)
            }
            Step::Nothing => self.nothing(),
            Step::ApplyLast => self.nothing(),
            Step::Pull { .. } => self.nothing(),
            Step::Whole => self.nothing(),
            Step::OpenAgain { .. } => self.nothing(),
            Step::OfferTo { .. } => self.nothing(),
        }
    }

    /// The log is offered to the others.
    fn offer_all(&self, count: u64, cap: u32) -> Result<Told, AllocError>
        requires offered { IsOffered count cap }
        ensures { IfOk result (λ told. GoesOn (offers_all self.now count cap) self.now told) }
    {
        let last = copy_last(self.alloc, &self.last)?;
        let mut effects = Vec::new(self.alloc);
        self.send_each(&mut effects, &Body::Offer { count, cap, last })?;
        Ok(Told {
            effects: Effects::new(effects),
            outcome: None,
        })
    }
}

fn is_member(view: &View, node: u16, inc: u64) -> bool
    ensures { result ≡ is_member view.now.members node inc }
{
    inc > 0 && view.members().incarnation(node) == inc
}

/// It has applied all records.
fn has_all(known: Option<u64>, count: u64) -> bool
    ensures { result ≡ has_all known count }
{
    match known {
        Some(known) => known == count,
        None => false,
    }
}

/// It lacks the last record alone, which has this place.
fn lacks_last(known: Option<u64>, count: u64, last: Option<u64>) -> bool
    ensures { result ≡ lacks_last known count last }
{
    match (known, last) {
        (Some(known), Some(place)) => is_next(known, count) && place == count,
        _ => false,
    }
}

fn is_next(known: u64, count: u64) -> bool
    ensures { result ≡ nat_eq (known + 1) count }
{
    known < count && count - known == 1
}
