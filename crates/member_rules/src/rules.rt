//! What a node keeps, and what its rules have in common.

ghost use Rattle.std.specs.Prelude.{◌≡◌, ◌+◌, ◌++◌, IfOk, OnOk, length, option_copied};
ghost use Rattle.gum_messages.specs.Messages.{IsKept};
ghost use Rattle.gum_core.specs.Updating as updating;
ghost use Rattle.view_reconcile.specs.Joining as joining;
ghost use Rattle.cluster_rules.specs.Nodes.{after, asks, becomes, done_of, fresh, is_head, locker_at, nothing, number_of, packet, tells};
ghost use Rattle.cluster_rules.specs.Receiving.{counts};
ghost use Rattle.registry_machine.specs.Machine.{registry_machine};
ghost use Rattle.member_rules.specs.Steps.{GoesOn};

use crate::effects::Effects;
use crate::pulled::Pulled;
use crate::replica::Replica;
use crate::told::Told;
use cluster_rules::Effect;
use gum_core::Core;
use gum_messages::{Body, Message};
use registry_defs::Outcome;
use std::alloc::{AllocError, Global};
use std::marker::Model;
use update_records::Record;
use view_reconcile::Reconcile;
use wire_fields::Octets;

/// What a node keeps without its log: Global Update, its way into the view, its registry, and what it knows of the record of its head.
///
/// Each call carries out a rule. After [`AllocError`] it isn't used again.
#[derive(Drop)]
pub struct Rules {
    pub(crate) alloc: Global,
    pub(crate) node: u16,
    pub(crate) inc: u64,
    pub(crate) stamp: u64,
    pub(crate) core: Core,
    pub(crate) join: Reconcile,
    pub(crate) replica: Option<Replica>,
    pub(crate) last: Option<Record>,
    pub(crate) pulled: Option<Pulled>,
    pub(crate) spreads: Option<Record>,
    pub(crate) settled: Option<u64>,
    pub(crate) outcome: Option<Outcome>,
    /// The registry's encoding, while the locker hands it out in pieces.
    pub(crate) encoded: Option<Octets>,
}

impl Model for Rules {
    ghost use Rattle.cluster_rules.specs.Nodes.{NodeState};
    ghost use Rattle.registry_machine.specs.Machine.{registry_machine};
    ghost use Rattle.member_rules.specs.States.{IsWhole, offer_in, state_of};

    ghost Value = { NodeState registry_machine };

    ghost view = { λ m. state_of m.stamp m.core m.join m.replica m.last m.pulled m.spreads m.settled m.outcome };

    ghost invariant = { λ m. IsWhole m.node m.inc m.core m.join m.replica (offer_in m.pulled) m.encoded };
}

impl Rules {
    /// A node in one of its incarnations, before its first view and without a registry.
    #[tactic(auto, using(crate::proofs::Ways::fresh_whole))]
    pub fn new(alloc: Global, node: u16, inc: u64) -> Rules
        ensures { result ≡ fresh registry_machine node inc }
    {
        Rules {
            alloc,
            node,
            inc,
            stamp: 0,
            core: Core::new(alloc, node),
            join: Reconcile::new(alloc, node, inc),
            replica: None,
            last: None,
            pulled: None,
            spreads: None,
            settled: None,
            outcome: None,
            encoded: None,
        }
    }

    /// The stamp of the records that it logs, in units of 100 nanoseconds from the beginning of 1601.
    pub fn set_stamp(&mut self, stamp: u64)
        ensures { self.new ≡ record self.old { stamp = stamp } }
    {
        self.stamp = stamp;
    }

    /// Whether a message counts: it is of the node's view, and from a member of it.
    pub fn counts(&self, message: &Message) -> bool
        ensures { result ≡ counts self.now message.now }
    {
        match self.join.view() {
            Some(view) => {
                message.view == view.number() && view.members().incarnation(message.from) > 0
            }
            None => false,
        }
    }

    /// The view is open here.
    #[tactic(auto, using(crate::proofs::Ways::open_is))]
    pub fn is_open(&self) -> bool
        ensures join { result ≡ joining.is_open self.now.join }
        ensures core { result ≡ self.now.core.is_open }
    {
        self.join.is_open()
    }

    /// The number of its view; 0 before the first.
    pub fn number(&self) -> u32
        ensures { result ≡ number_of self.now }
    {
        match self.join.view() {
            Some(view) => view.number(),
            None => 0,
        }
    }

    /// Whether it is the locker of its view.
    #[tactic(auto, using(crate::proofs::Ways::locks_alike))]
    pub fn locks(&self) -> bool
        ensures join { result ≡ joining.locks self.now.join }
        ensures core { result ≡ updating.locks self.now.core }
    {
        let node = self.node();
        match self.join.view() {
            Some(view) => view.members().is_locker(node),
            None => false,
        }
    }

    /// Its registry, with the number of records that it has applied.
    pub fn replica(&self) -> Option<&Replica>
        ensures { option_copied result ≡ self.now.replica }
    {
        self.replica.as_ref()
    }

    /// The last record that it applied, or that was offered with its registry.
    pub fn last(&self) -> Option<&Record>
        ensures { option_copied result ≡ self.now.last }
    {
        self.last.as_ref()
    }

    /// The request of the head of its queue.
    pub fn head_request(&self) -> Option<u64>
        ensures { result ≡ updating.head_request self.now.core }
    {
        self.core.head_request()
    }

    /// How many requests it has given.
    pub fn requests(&self) -> u64
        ensures { result ≡ self.now.core.passed + length self.now.core.queue }
    {
        self.core.requests()
    }
}

impl Rules {
    /// The node's number.
    #[tactic(auto, using(crate::proofs::Ways::node_is))]
    pub fn node(&self) -> u16
        ensures { result ≡ self.now.join.node }
    {
        self.node
    }

    /// Its incarnation.
    #[tactic(auto, using(crate::proofs::Ways::inc_is))]
    pub(crate) fn inc(&self) -> u64
        ensures { result ≡ self.now.join.inc }
    {
        self.inc
    }

    /// The locker of its view; 0 before the first.
    pub(crate) fn locker(&self) -> u16
        ensures { result ≡ locker_at self.now }
    {
        match self.join.view() {
            Some(view) => match view.locker() {
                Some(node) => node,
                None => 0,
            },
            None => 0,
        }
    }

    /// How many records it has applied; 0 where it has no registry.
    pub(crate) fn done(&self) -> u64
        ensures { result ≡ done_of self.now }
    {
        match &self.replica {
            Some(replica) => replica.done(),
            None => 0,
        }
    }

    /// The record has the id of the queue's head.
    pub(crate) fn is_head(&self, entry: &Record) -> bool
        ensures { result ≡ is_head entry.now self.now }
    {
        match self.core.head_request() {
            Some(req) => {
                entry.id.node == self.node() && entry.id.inc == self.inc() && entry.id.req == req
            }
            None => false,
        }
    }

    /// A message of this node in its view.
    pub(crate) fn packet(&self, to: u16, body: Body) -> Message
        requires { IsKept body }
        ensures { result ≡ packet self.now to body }
    {
        Message {
            view: self.number(),
            from: self.node(),
            to,
            body,
        }
    }

    pub fn nothing(&self) -> Result<Told, AllocError>
        ensures { IfOk result (λ told. GoesOn (nothing self.now) self.now told) }
    {
        Ok(Told {
            effects: Effects::new(Vec::new(self.alloc)),
            outcome: None,
        })
    }

    pub(crate) fn tell(&self, to: u16, body: Body) -> Result<Told, AllocError>
        requires { IsKept body }
        ensures { IfOk result (λ told. GoesOn (tells self.now to body) self.now told) }
    {
        let mut effects = Vec::new(self.alloc);
        effects.push(Effect::Send(self.packet(to, body)))?;
        Ok(Told {
            effects: Effects::new(effects),
            outcome: None,
        })
    }

    /// The locker is asked for the head.
    pub(crate) fn ask(&self, effects: &mut Vec<Effect>, next: Option<u64>) -> Result<(), AllocError>
        ensures { OnOk result (effects.new.items ≡ effects.old.items ++ asks self.now next) }
    {
        let Some(req) = next else {
            return Ok(());
        };
        let Some(head) = self.core.head() else {
            return Ok(());
        };
        let update = head.copy(self.alloc)?;
        let message = self.packet(self.locker(), Body::Ask { req, update });
        effects.push(Effect::Send(message))?;
        Ok(())
    }

    /// The locker is asked for the head, behind these effects.
    pub(crate) fn asking(&self, effects: Vec<Effect>, next: Option<u64>) -> Result<Told, AllocError>
        ensures { IfOk result (λ told. GoesOn (after effects.items (becomes self.now (asks self.now next))) self.now told) }
    {
        let mut effects = effects;
        self.ask(&mut effects, next)?;
        Ok(Told {
            effects: Effects::new(effects),
            outcome: None,
        })
    }
}
