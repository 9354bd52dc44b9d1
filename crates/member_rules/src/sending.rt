//! One message to several members.

ghost use Rattle.std.specs.Prelude.{◌≡◌, ◌++◌, OnOk};
ghost use Rattle.gum_messages.specs.Members.{spread_of};
ghost use Rattle.gum_messages.specs.Messages.{IsKept};
ghost use Rattle.cluster_rules.specs.Nodes.{members_of, to_each};
ghost use Rattle.cluster_rules.specs.Joins.{offer_each};
ghost use Rattle.member_rules.specs.Steps.{one_of};

use crate::rules::Rules;
use cluster_rules::Effect;
use gum_messages::{Body, Member};
use std::alloc::AllocError;

impl Rules {
    /// To each member behind the locker.
    pub(crate) fn send_each(&self, effects: &mut Vec<Effect>, body: &Body) -> Result<(), AllocError>
        requires { IsKept body.now }
        ensures { OnOk result (effects.new.items ≡ effects.old.items ++ to_each self.now body.now (spread_of (members_of self.now))) }
    {
        self.send_to(effects, body, self.others())
    }

    /// To each member that this node waits for, as the locker.
    pub(crate) fn offer_each(
        &self,
        effects: &mut Vec<Effect>,
        body: &Body,
    ) -> Result<(), AllocError>
        requires { IsKept body.now }
        ensures { OnOk result (effects.new.items ≡ effects.old.items ++ offer_each self.now body.now (members_of self.now)) }
    {
        self.offer_to(effects, body, self.members())
    }
}

impl Rules {
    fn members(&self) -> &[Member]
        ensures { result.now ≡ members_of self.now }
    {
        match self.join.view() {
            Some(view) => view.members().as_slice(),
            None => &[],
        }
    }

    /// The members behind the locker.
    fn others(&self) -> &[Member]
        ensures { result.now ≡ spread_of (members_of self.now) }
    {
        match self.join.view() {
            Some(view) => view.members().spreading_order(),
            None => &[],
        }
    }

    #[tactic(auto, using(crate::proofs::Sendings::sent_more, crate::proofs::Sendings::sent_all))]
    fn send_to(
        &self,
        effects: &mut Vec<Effect>,
        body: &Body,
        members: &[Member],
    ) -> Result<(), AllocError>
        requires { IsKept body.now }
        ensures { OnOk result (effects.new.items ≡ effects.old.items ++ to_each self.now body.now members.now) }
    {
        'each: for member in members {
            let body = body.copy(self.alloc)?;
            effects.push(Effect::Send(self.packet(member.node, body)))?;
        }
        Ok(())
    }

    #[tactic(auto, using(crate::proofs::Sendings::offered_more, crate::proofs::Sendings::offered_all))]
    fn offer_to(
        &self,
        effects: &mut Vec<Effect>,
        body: &Body,
        members: &[Member],
    ) -> Result<(), AllocError>
        requires { IsKept body.now }
        ensures { OnOk result (effects.new.items ≡ effects.old.items ++ offer_each self.now body.now members.now) }
    {
        'each: for member in members {
            self.offer_one(effects, body, member.node)?;
        }
        Ok(())
    }

    fn offer_one(&self, effects: &mut Vec<Effect>, body: &Body, to: u16) -> Result<(), AllocError>
        requires { IsKept body.now }
        ensures { OnOk result (effects.new.items ≡ effects.old.items ++ one_of self.now body.now to) }
    {
        if self.join.waits_for(to) {
            let body = body.copy(self.alloc)?;
            effects.push(Effect::Send(self.packet(to, body)))?;
        }
        Ok(())
    }
}
