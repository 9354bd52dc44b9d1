//! How the view opens at one node.

ghost use Rattle.std.specs.Prelude.{◌≡◌, IfOk};
ghost use Rattle.cluster_rules.specs.Joins.{on_open_view, on_ready};
ghost use Rattle.cluster_rules.specs.Nodes.{after};
ghost use Rattle.member_rules.specs.States.{AddsNothing, IsBeside};
ghost use Rattle.member_rules.specs.Steps.{GoesOn, begins_by, opens_by, opens_all_by, settles};

use crate::effects::Effects;
use crate::rules::Rules;
use crate::told::Told;
use cluster_rules::Effect;
use gum_core::Decision;
use gum_messages::Body;
use std::alloc::AllocError;
use view_reconcile::Step;

impl Rules {
    /// A member is ready.
    #[tactic(auto, using(crate::proofs::Openings::ready_is, crate::proofs::Openings::ready_opens_is, crate::proofs::Openings::ready_adds_nothing, crate::proofs::Ways::ready_opens_whole, crate::proofs::Ways::ready_marks_whole))]
    pub fn ready(&mut self, from: u16) -> Result<Told, AllocError>
        ensures marks { IfOk result (λ told. GoesOn (on_ready self.old from) self.new told) }
        ensures adds_nothing { AddsNothing self.old self.new }
    {
        match self.join.ready(from) {
            Step::OpenAgain { to } => self.tell(to, Body::OpenView),
            Step::Open => {
                let decision = self.core.open(self.settled);
                self.encoded = None;
                self.open_all(decision)
            }
            Step::Nothing => self.nothing(),
            Step::Ready => self.nothing(),
            Step::ApplyLast => self.nothing(),
            Step::Pull { .. } => self.nothing(),
            Step::Whole => self.nothing(),
            Step::OfferTo { .. } => self.nothing(),
        }
    }

    /// The locker opened the view.
    #[tactic(auto, using(crate::proofs::Openings::open_view_is, crate::proofs::Openings::not_opened_is, crate::proofs::Openings::stranger_opens_nothing, crate::proofs::Openings::open_view_adds_nothing, crate::proofs::Openings::same_adds_nothing, crate::proofs::Ways::open_view_whole, crate::proofs::Ways::not_opened_whole))]
    pub fn open_view(&mut self, from: u16) -> Result<Told, AllocError>
        ensures opens { IfOk result (λ told. GoesOn (on_open_view self.old from) self.new told) }
        ensures adds_nothing { AddsNothing self.old self.new }
    {
        if from != self.locker() {
            return self.nothing();
        }
        if !self.join.open() {
            return self.nothing();
        }
        let decision = self.core.open(self.settled);
        self.encoded = None;
        self.open(decision)
    }
}

impl Rules {
    /// The view is open, at a node that isn't its locker or that is alone.
    pub(crate) fn open(&mut self, decision: Decision) -> Result<Told, AllocError>
        ensures opens { IfOk result (λ told. GoesOn (opens_by self.old decision) self.new told) }
        ensures beside { IsBeside self.old self.new }
    {
        let mut effects = Vec::new(self.alloc);
        effects.push(Effect::Opened {
            view: self.number(),
        })?;
        self.begin(effects, decision)
    }

    /// The view is open at its locker, which tells the others.
    fn open_all(&mut self, decision: Decision) -> Result<Told, AllocError>
        ensures opens { IfOk result (λ told. GoesOn (opens_all_by self.old decision) self.new told) }
        ensures beside { IsBeside self.old self.new }
    {
        let mut effects = Vec::new(self.alloc);
        effects.push(Effect::Opened {
            view: self.number(),
        })?;
        self.send_each(&mut effects, &Body::OpenView)?;
        self.begin(effects, decision)
    }

    /// A settled head is acknowledged, another is asked for.
    fn begin(&mut self, effects: Vec<Effect>, decision: Decision) -> Result<Told, AllocError>
        ensures begins { IfOk result (λ told. GoesOn (after effects.items (begins_by self.old decision)) self.new told) }
        ensures beside { IsBeside self.old self.new }
    {
        match decision {
            Decision::Ask { req } => self.asking(effects, Some(req)),
            Decision::Finish { place, next, .. } => self.settle(effects, place, next),
            Decision::Nothing => self.asking(effects, None),
            Decision::Write { .. } => self.asking(effects, None),
            Decision::Grant { .. } => self.asking(effects, None),
            Decision::Spread { .. } => self.asking(effects, None),
            Decision::Free => self.asking(effects, None),
            Decision::ReleaseAgain { .. } => self.asking(effects, None),
            Decision::Take => self.asking(effects, None),
            Decision::Again => self.asking(effects, None),
        }
    }

    /// A settled head has left the queue.
    fn settle(
        &mut self,
        effects: Vec<Effect>,
        place: u64,
        next: Option<u64>,
    ) -> Result<Told, AllocError>
        ensures settles { IfOk result (λ told. GoesOn (after effects.items (settles self.old place next)) self.new told) }
        ensures beside { IsBeside self.old self.new }
    {
        let mut effects = effects;
        let outcome = self.forget_head();
        effects.push(Effect::Acked {
            view: self.number(),
            place,
        })?;
        self.ask(&mut effects, next)?;
        Ok(Told {
            effects: Effects::new(effects),
            outcome,
        })
    }
}
