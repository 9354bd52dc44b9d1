//! What a node repeats.

ghost use Rattle.std.specs.Prelude.{◌≡◌, [], ◌∷◌, ◌++◌, IfOk, IsTrue, OnOk};
ghost use Rattle.gum_messages.specs.Messages.{IsKept};
ghost use Rattle.gum_core.specs.Updating as updating;
ghost use Rattle.view_reconcile.specs.Joining as joining;
ghost use Rattle.cluster_rules.specs.declared.effect.Effect.TheVariants.{Send};
ghost use Rattle.cluster_rules.specs.Joins.{tick_join};
ghost use Rattle.cluster_rules.specs.Nodes.{locker_at, packet};
ghost use Rattle.cluster_rules.specs.Receiving.{tick};
ghost use Rattle.cluster_rules.specs.Updates.{tick_head, tick_lock};
ghost use Rattle.member_rules.specs.Steps.{GoesOn};
ghost use Rattle.member_rules.specs.Ticking.{grants_again, offers_again, spreads_again};

use crate::effects::Effects;
use crate::following::copy_last;
use crate::rules::Rules;
use crate::told::Told;
use cluster_rules::Effect;
use gum_core::Decision;
use gum_messages::Body;
use std::alloc::AllocError;
use view_reconcile::Step;

impl Rules {
    /// What is sent again: the head's message, the grant of the lock, and what a joining needs.
    #[tactic(auto, using(crate::proofs::Ticks::in_turn))]
    pub fn tick(&self) -> Result<Told, AllocError>
        ensures { IfOk result (λ told. GoesOn (tick self.now) self.now told) }
    {
        let mut effects = Vec::new(self.alloc);
        self.tick_head(&mut effects)?;
        self.tick_lock(&mut effects)?;
        self.tick_join(&mut effects)?;
        Ok(Told {
            effects: Effects::new(effects),
            outcome: None,
        })
    }
}

impl Rules {
    fn tick_head(&self, effects: &mut Vec<Effect>) -> Result<(), AllocError>
        ensures { OnOk result (effects.new.items ≡ effects.old.items ++ tick_head self.now (updating.ticked self.now.core)) }
    {
        match self.core.tick() {
            Decision::Ask { req } => self.ask(effects, Some(req)),
            Decision::Spread { to, .. } => self.spread_again(effects, to),
            Decision::Nothing => Ok(()),
            Decision::Write { .. } => Ok(()),
            Decision::Grant { .. } => Ok(()),
            Decision::Finish { .. } => Ok(()),
            Decision::Free => Ok(()),
            Decision::ReleaseAgain { .. } => Ok(()),
            Decision::Take => Ok(()),
            Decision::Again => Ok(()),
        }
    }

    /// The head's record goes to this member again.
    fn spread_again(&self, effects: &mut Vec<Effect>, to: u16) -> Result<(), AllocError>
        ensures { OnOk result (effects.new.items ≡ effects.old.items ++ spreads_again self.now to) }
    {
        let Some(entry) = &self.spreads else {
            return Ok(());
        };
        let entry = entry.copy(self.alloc)?;
        effects.push(Effect::Send(self.packet(to, Body::Apply { entry })))?;
        Ok(())
    }

    /// The lock's holder is told again that its update was logged.
    #[tactic(auto, using(crate::proofs::Ticks::free_is, crate::proofs::Ticks::held_is))]
    fn tick_lock(&self, effects: &mut Vec<Effect>) -> Result<(), AllocError>
        ensures { OnOk result (effects.new.items ≡ effects.old.items ++ tick_lock self.now) }
    {
        match self.core.held() {
            Some((node, _, _)) => self.grant_again(effects, node),
            None => Ok(()),
        }
    }

    fn grant_again(&self, effects: &mut Vec<Effect>, to: u16) -> Result<(), AllocError>
        ensures { OnOk result (effects.new.items ≡ effects.old.items ++ grants_again self.now to) }
    {
        let Some(entry) = &self.last else {
            return Ok(());
        };
        let entry = entry.copy(self.alloc)?;
        effects.push(Effect::Send(self.packet(to, Body::Granted { entry })))?;
        Ok(())
    }

    #[tactic(auto, using(crate::proofs::Sendings::offers_here))]
    fn tick_join(&self, effects: &mut Vec<Effect>) -> Result<(), AllocError>
        ensures { OnOk result (effects.new.items ≡ effects.old.items ++ tick_join self.now (joining.ticked self.now.join)) }
    {
        match self.join.tick() {
            Step::OfferTo { .. } => self.offer_again(effects),
            Step::Pull { offset } => self.tell_locker(effects, Body::Need { offset }),
            Step::Ready => self.tell_locker(effects, Body::Ready),
            Step::Nothing => Ok(()),
            Step::ApplyLast => Ok(()),
            Step::Whole => Ok(()),
            Step::Open => Ok(()),
            Step::OpenAgain { .. } => Ok(()),
        }
    }

    fn tell_locker(&self, effects: &mut Vec<Effect>, body: Body) -> Result<(), AllocError>
        requires { IsKept body }
        ensures { OnOk result (effects.new.items ≡ effects.old.items ++ Send (packet self.now (locker_at self.now) body) ∷ []) }
    {
        effects.push(Effect::Send(self.packet(self.locker(), body)))?;
        Ok(())
    }

    /// Who isn't ready is offered the log again.
    #[tactic(auto, using(crate::proofs::Ways::locker_has))]
    fn offer_again(&self, effects: &mut Vec<Effect>) -> Result<(), AllocError>
        requires here { IsTrue (joining.locks self.now.join) }
        ensures { OnOk result (effects.new.items ≡ effects.old.items ++ offers_again self.now) }
    {
        let Some(replica) = &self.replica else {
            return Ok(());
        };
        let body = Body::Offer {
            count: replica.done(),
            cap: replica.registry().cap(),
            last: copy_last(self.alloc, &self.last)?,
        };
        self.offer_each(effects, &body)
    }
}
