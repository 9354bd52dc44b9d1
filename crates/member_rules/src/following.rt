//! How a member that isn't the locker comes to have what the locker's log has.

ghost use Rattle.std.specs.Prelude.{◌≡◌, None, false, IfOk, OnErr, OnOk};
ghost use Rattle.gum_messages.specs.Messages.{IsOffered};
ghost use Rattle.gum_messages.specs.declared.body.Body.TheVariants.{Need};
ghost use Rattle.view_reconcile.specs.declared.stage.Stage as stage;
ghost use Rattle.view_reconcile.specs.Joining as joining;
ghost use Rattle.cluster_rules.specs.Nodes.{locker_at, place_of, tells};
ghost use Rattle.cluster_rules.specs.Joins.{joined, known_done, on_offer, on_piece, says_ready, shows, takes_state};
ghost use Rattle.registry_machine.specs.Machine.{replicated};
ghost use Rattle.member_rules.specs.States.{AddsNothing};
ghost use Rattle.member_rules.specs.Steps.{GoesOn};
ghost use Rattle.member_rules.specs.Pulling.{LacksLast, begins_again, fed_with, follows_offer, pulled_at, stands_with, takes_last};

use crate::pulled::Pulled;
use crate::replica::Replica;
use crate::rules::Rules;
use crate::told::Told;
use clus_registry::Registry;
use cluster_rules::Offering;
use gum_messages::Body;
use std::alloc::{AllocError, Global};
use update_records::Record;
use view_reconcile::Step;
use wire_fields::Octets;

impl Rules {
    /// The locker offers its log.
    #[tactic(auto, using(crate::proofs::Openings::follower_adds_nothing, crate::proofs::Openings::same_adds_nothing))]
    pub fn offer(
        &mut self,
        from: u16,
        count: u64,
        cap: u32,
        last: &Option<Record>,
    ) -> Result<Told, AllocError>
        requires offered { IsOffered count cap }
        ensures follows { IfOk result (λ told. GoesOn (on_offer self.old from (record { count = count; cap = cap; last = last.now })) self.new told) }
        ensures adds_nothing { OnOk result (AddsNothing self.old self.new) }
    {
        if from != self.locker() || self.locks() {
            return self.nothing();
        }
        if self.join.is_ready() {
            return self.say_ready();
        }
        let last = copy_last(self.alloc, last)?;
        self.follow(Offering { count, cap, last })
    }

    /// A piece of the locker's state came.
    #[tactic(auto, using(crate::proofs::Follows::piece_whole_is, crate::proofs::Follows::piece_passes_is, crate::proofs::Follows::gathered_follows, crate::proofs::Follows::whole_follows, crate::proofs::Follows::whole_taking, crate::proofs::Openings::follower_adds_nothing, crate::proofs::Follows::passed_adds_nothing))]
    pub fn piece(&mut self, total: u32, offset: u32, bytes: &Octets) -> Result<Told, AllocError>
        ensures gathers { IfOk result (λ told. GoesOn (on_piece self.old total offset bytes.now) self.new told) }
        ensures adds_nothing { OnOk result (AddsNothing self.old self.new) }
    {
        match self.join.piece(total, offset, bytes.as_slice())? {
            Step::Pull { offset: next } => {
                feed(&mut self.pulled, offset, bytes)?;
                self.ask_piece(next)
            }
            Step::Whole => {
                feed(&mut self.pulled, offset, bytes)?;
                self.take_state()
            }
            Step::Nothing => self.nothing(),
            Step::Ready => self.nothing(),
            Step::ApplyLast => self.nothing(),
            Step::Open => self.nothing(),
            Step::OpenAgain { .. } => self.nothing(),
            Step::OfferTo { .. } => self.nothing(),
        }
    }
}

impl Rules {
    /// It has what was offered: a head whose record was shown is settled.
    #[tactic(auto, using(crate::proofs::Ways::past_whole))]
    pub(crate) fn join_up(&mut self, count: u64, last: Option<Record>)
        requires past { joining.pulled_bytes self.old.join ≡ None }
        ensures { self.new ≡ joined self.old count last self.old.join }
    {
        if self.shows(&last) {
            self.settled = Some(count);
        }
        self.last = last;
        self.pulled = None;
    }

    /// The record that an offer shows is the head's.
    fn shows(&self, last: &Option<Record>) -> bool
        ensures { result ≡ shows last.now self.now }
    {
        match last {
            Some(entry) => self.is_head(entry),
            None => false,
        }
    }

    fn known_done(&self) -> Option<u64>
        ensures { result ≡ known_done self.now }
    {
        match &self.replica {
            Some(replica) => Some(replica.done()),
            None => None,
        }
    }

    fn say_ready(&self) -> Result<Told, AllocError>
        ensures { IfOk result (λ told. GoesOn (says_ready self.now) self.now told) }
    {
        let locker = self.locker();
        self.tell(locker, Body::Ready)
    }

    /// The locker is asked for its state from this offset on.
    fn ask_piece(&self, offset: u32) -> Result<Told, AllocError>
        ensures { IfOk result (λ told. GoesOn (tells self.now (locker_at self.now) (Need offset)) self.now told) }
    {
        let locker = self.locker();
        self.tell(locker, Body::Need { offset })
    }

    /// It has what was offered, and says so.
    fn stand_ready(&mut self, count: u64, last: Option<Record>) -> Result<Told, AllocError>
        requires past { joining.pulled_bytes self.old.join ≡ None }
        ensures ready { IfOk result (λ told. GoesOn (says_ready (joined self.old count last self.old.join)) self.new told) }
        ensures join { OnOk result (self.new.join ≡ self.old.join) }
    {
        self.join_up(count, last);
        self.say_ready()
    }

    /// The locker's offer, at a member that isn't ready.
    #[tactic(auto, using(crate::proofs::Follows::followed_is, crate::proofs::Follows::pull_is, crate::proofs::Follows::ready_past, crate::proofs::Follows::followed_locks, crate::proofs::Follows::pull_whole))]
    fn follow(&mut self, offer: Offering) -> Result<Told, AllocError>
        requires offered { IsOffered offer.count offer.cap }
        requires waits { joining.is_ready self.old.join ≡ false }
        requires other { joining.locks self.old.join ≡ false }
        ensures follows { IfOk result (λ told. GoesOn (follows_offer self.old offer) self.new told) }
        ensures other { OnOk result (joining.locks self.new.join ≡ false) }
    {
        let known = self.known_done();
        match self.join.offer(offer.count, place_of(&offer.last), known) {
            Step::Ready => self.stand_ready(offer.count, offer.last),
            Step::ApplyLast => self.take_last(offer),
            Step::Pull { offset } => {
                keep(self.alloc, &mut self.pulled, offset, offer);
                self.ask_piece(offset)
            }
            Step::Nothing => self.nothing(),
            Step::Whole => self.nothing(),
            Step::Open => self.nothing(),
            Step::OpenAgain { .. } => self.nothing(),
            Step::OfferTo { .. } => self.nothing(),
        }
    }

    /// It lacks the last record alone, which was offered.
    #[tactic(auto, using(crate::proofs::Follows::stood_past, crate::proofs::Follows::stood_locks, crate::proofs::Follows::last_taken_is))]
    fn take_last(&mut self, offer: Offering) -> Result<Told, AllocError>
        requires lacks { LacksLast self.old offer }
        ensures takes { IfOk result (λ told. GoesOn (takes_last self.old offer) self.new told) }
        ensures other { OnOk result (joining.locks self.new.join ≡ false) }
    {
        let Offering { count, last, .. } = offer;
        match &last {
            Some(entry) => self.apply_here(entry)?,
            None => return self.nothing(),
        }
        let _ = self.join.taken(true);
        self.stand_ready(count, last)
    }

    /// The state is whole: where it decodes it is taken, else it is pulled again.
    #[tactic(auto, using(crate::proofs::Ways::offer_taken_whole, crate::proofs::Follows::state_taken_is, crate::proofs::Follows::state_fails_is, crate::proofs::Follows::no_offer_is))]
    fn take_state(&mut self) -> Result<Told, AllocError>
        requires taking { self.old.join.stage ≡ stage.Stage.Taking }
        requires other { joining.locks self.old.join ≡ false }
        ensures takes { IfOk result (λ told. GoesOn (takes_state self.old self.old.bytes self.old.join) self.new told) }
        ensures other { OnOk result (joining.locks self.new.join ≡ false) }
    {
        let Some(pulled) = self.pulled.take() else {
            return self.nothing();
        };
        match pulled.finish()? {
            (offer, Some(registry)) => self.stand_with(registry, offer),
            (offer, None) => self.begin_again(offer),
        }
    }

    /// The locker's registry is taken.
    #[tactic(auto, using(crate::proofs::Follows::stood_past, crate::proofs::Follows::stood_locks))]
    fn stand_with(&mut self, registry: Registry, offer: Offering) -> Result<Told, AllocError>
        requires taking { self.old.join.stage ≡ stage.Stage.Taking }
        requires other { joining.locks self.old.join ≡ false }
        requires offered { IsOffered offer.count offer.cap }
        ensures stands { IfOk result (λ told. GoesOn (stands_with self.old (replicated registry) offer) self.new told) }
        ensures other { OnOk result (joining.locks self.new.join ≡ false) }
    {
        self.replica = Some(Replica::new(registry, offer.count));
        self.encoded = None;
        let _ = self.join.taken(true);
        self.stand_ready(offer.count, offer.last)
    }

    /// What came didn't decode: it is pulled again from its beginning.
    #[tactic(auto, using(crate::proofs::Follows::again_locks))]
    fn begin_again(&mut self, offer: Offering) -> Result<Told, AllocError>
        requires taking { self.old.join.stage ≡ stage.Stage.Taking }
        requires other { joining.locks self.old.join ≡ false }
        requires offered { IsOffered offer.count offer.cap }
        ensures again { IfOk result (λ told. GoesOn (begins_again self.old offer) self.new told) }
        ensures other { OnOk result (joining.locks self.new.join ≡ false) }
    {
        let _ = self.join.taken(false);
        self.pulled = Some(Pulled::begin(self.alloc, offer));
        self.ask_piece(0)
    }
}

/// What was offered counts where the pulling begins; what is pulled already goes on.
fn keep(alloc: Global, pulled: &mut Option<Pulled>, offset: u32, offer: Offering)
    requires offered { IsOffered offer.count offer.cap }
    ensures { pulled.new ≡ pulled_at pulled.old offset offer }
{
    if offset == 0 {
        *pulled = Some(Pulled::begin(alloc, offer));
    }
}

/// Takes the next piece, where one pulls.
fn feed(pulled: &mut Option<Pulled>, offset: u32, piece: &Octets) -> Result<(), AllocError>
    ensures fed { OnOk result (pulled.new ≡ fed_with pulled.old piece.now) }
    ensures unchanged { OnErr result (pulled.new ≡ pulled.old) }
{
    match pulled {
        Some(pulled) => pulled.feed(offset, piece),
        None => Ok(()),
    }
}

pub(crate) fn copy_last(alloc: Global, last: &Option<Record>) -> Result<Option<Record>, AllocError>
    ensures { IfOk result (λ copied. copied ≡ last.now) }
{
    match last {
        Some(entry) => Ok(Some(entry.copy(alloc)?)),
        None => Ok(None),
    }
}

/// The place of the last record, where there is one.
pub(crate) fn place_of(last: &Option<Record>) -> Option<u64>
    ensures { result ≡ place_of last.now }
{
    match last {
        Some(entry) => Some(entry.place),
        None => None,
    }
}
