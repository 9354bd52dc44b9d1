//! One association: its state, and a step for each item of the client's stream.

ghost use Rattle.std.specs.Prelude.{◌≡◌, ◌≤◌, ◌==◌, IfOk, OnErr, OnOk, is_some};
ghost use Rattle.std.specs.List.{list_any};
ghost use Rattle.rpc_calls.specs.Parts.{ItemFits};
ghost use Rattle.rpc_assoc.specs.State.{AcceptsBy, AreTerms, group_of, unbound};
ghost use Rattle.rpc_assoc.specs.Association.{IsInGroup, IsNoCall, SpellsReply, alter_answer, bind_answer, bound, call_answer, group_in, group_wanted, is_too_small, reply_size, single_answer, step_of, terms_for};

use crate::answers::{alter_context_resp, bind_ack, bind_nak, fault};
use crate::terms::Terms;
use crate::verdicts::{accepted_ids, verdicts_on};
use rpc_calls::{Call, Item};
use rpc_pdu::{Pdu, Proposals};
use std::alloc::{AllocError, Global};
use std::marker::Model;

/// The fault status of a call on a context that wasn't accepted: nca_s_unk_if (C706, appendix E).
const UNKNOWN_INTERFACE: u32 = 0x1C01_0003;

/// The shortest fragment size that a client may ask for (C706, 12.6.3.1: MustRecvFragSize).
const LEAST_FRAGMENT: u16 = 1432;

/// The longest fragment that the server sends or asks for.
const LONGEST_FRAGMENT: u16 = 5840;

/// What comes of an item.
#[derive(Debug, Drop)]
pub enum AssocOut {
    /// The item is answered by this PDU.
    Reply(Pdu),
    /// The item calls an operation.
    Call(Call),
    /// The item has no answer.
    Nothing,
}

/// An association between a client and this server.
#[derive(Drop)]
pub struct Assoc {
    alloc: Global,
    terms: Option<Terms>,
    accepted: Vec<u16>,
}

impl Model for Assoc {
    ghost use Rattle.std.specs.Prelude.{IfSome};
    ghost use Rattle.rpc_assoc.specs.State.{AcceptsBy, AreTerms, State};

    ghost Value = { State };

    ghost view = { λ assoc. record { terms = assoc.terms; accepted = assoc.accepted.items } };

    ghost invariant = { λ assoc. IfSome assoc.terms AreTerms × AcceptsBy assoc.terms assoc.accepted.items };
}

impl Assoc {
    pub fn new(alloc: Global) -> Assoc
        ensures { result ≡ unbound }
    {
        Assoc {
            alloc,
            terms: None,
            accepted: Vec::new(alloc),
        }
    }

    /// The group that a bind asks for, where the bind isn't refused whatever its group.
    pub fn wants(&self, item: &Item) -> Option<u32>
        ensures { result ≡ group_wanted self.now item.now }
    {
        match item {
            Item::Single(pdu) => self.group_in(pdu),
            _ => None,
        }
    }

    fn group_in(&self, pdu: &Pdu) -> Option<u32>
        ensures { result ≡ group_in self.now pdu.now }
    {
        match pdu {
            Pdu::Bind {
                max_xmit,
                max_recv,
                group,
                ..
            } => {
                if self.is_bound() || are_too_small(*max_xmit, *max_recv) {
                    None
                } else {
                    Some(*group)
                }
            }
            _ => None,
        }
    }

    /// The association group of the connection, once it is bound.
    pub fn group(&self) -> Option<u32>
        ensures { result ≡ group_of self.now }
    {
        self.terms.map(|terms| terms.group)
    }

    /// The longest fragment that the server may send.
    pub fn max_xmit(&self) -> u16
        ensures agreed { result ≡ reply_size self.now.terms }
        ensures least { 1432 ≤ result }
        ensures most { result ≤ 5840 }
    {
        match self.terms {
            None => LONGEST_FRAGMENT,
            Some(terms) => terms.max_xmit,
        }
    }

    /// Answers an item; `group` is the association group that a bind gets, None where it can't have one.
    pub fn step(&mut self, item: Item, group: Option<u32>) -> Result<AssocOut, AllocError>
        ensures answer { IfOk result (λ out. (out, self.new) ≡ step_of self.old item group) }
        ensures unchanged { OnErr result (self.new ≡ self.old) }
        ensures spelled { ItemFits item → IfOk result SpellsReply }
        ensures grouped { IfOk result (λ out. IsInGroup out self.new) }
    {
        self.answer(item, group)
    }

    #[tactic(auto, unfolding(crate::specs::Association::step_of))]
    fn answer(&mut self, item: Item, group: Option<u32>) -> Result<AssocOut, AllocError>
        ensures answer { IfOk result (λ out. (out, self.new) ≡ step_of self.old item group) }
        ensures unchanged { OnErr result (self.new ≡ self.old) }
        ensures grouped { IfOk result (λ out. IsInGroup out self.new) }
    {
        match item {
            Item::Call(call) => Ok(self.call(call)),
            Item::Single(pdu) => self.single(pdu, group),
            Item::BadBind { call_id, reason } => {
                Ok(AssocOut::Reply(bind_nak(self.alloc, call_id, reason)?))
            }
        }
    }

    #[tactic(auto, unfolding(crate::specs::Association::single_answer))]
    fn single(&mut self, pdu: Pdu, group: Option<u32>) -> Result<AssocOut, AllocError>
        ensures answer { IfOk result (λ out. (out, self.new) ≡ single_answer self.old pdu group) }
        ensures unchanged { OnErr result (self.new ≡ self.old) }
        ensures no_call { IfOk result IsNoCall }
    {
        match pdu {
            Pdu::Bind {
                head,
                max_xmit,
                max_recv,
                group: _,
                proposals,
            } => self.bind(head.call_id, max_xmit, max_recv, proposals, group),
            Pdu::AlterContext {
                head,
                proposals,
                ..
            } => self.alter(head.call_id, proposals),
            _ => Ok(AssocOut::Nothing),
        }
    }

    #[tactic(auto, unfolding(crate::specs::Association::call_answer))]
    fn call(&self, call: Call) -> AssocOut
        ensures answer { (result, self.now) ≡ call_answer self.now call }
        ensures grouped { IsInGroup result self.now }
    {
        if self.has_accepted(call.context) {
            return AssocOut::Call(call);
        }
        AssocOut::Reply(fault(call.call_id, call.context, UNKNOWN_INTERFACE))
    }

    #[tactic(auto, unfolding(crate::specs::Association::bind_answer))]
    fn bind(
        &mut self,
        call_id: u32,
        max_xmit: u16,
        max_recv: u16,
        proposals: Proposals,
        group: Option<u32>,
    ) -> Result<AssocOut, AllocError>
        ensures answer { IfOk result (λ out. (out, self.new) ≡ bind_answer self.old call_id max_xmit max_recv proposals group) }
        ensures unchanged { OnErr result (self.new ≡ self.old) }
        ensures no_call { IfOk result IsNoCall }
    {
        if self.is_bound() {
            return Ok(AssocOut::Reply(bind_nak(self.alloc, call_id, 0)?));
        }
        if are_too_small(max_xmit, max_recv) {
            return Ok(AssocOut::Reply(bind_nak(self.alloc, call_id, 2)?));
        }
        match group {
            None => Ok(AssocOut::Reply(bind_nak(self.alloc, call_id, 0)?)),
            Some(group) => {
                let terms = agree(max_xmit, max_recv, group);
                let verdicts = verdicts_on(self.alloc, proposals.as_slice())?;
                self.accept(terms, &proposals)?;
                Ok(AssocOut::Reply(bind_ack(self.alloc, call_id, terms, verdicts)))
            }
        }
    }

    #[tactic(auto, unfolding(crate::specs::Association::alter_answer))]
    fn alter(&mut self, call_id: u32, proposals: Proposals) -> Result<AssocOut, AllocError>
        ensures answer { IfOk result (λ out. (out, self.new) ≡ alter_answer self.old call_id proposals) }
        ensures unchanged { OnErr result (self.new ≡ self.old) }
        ensures no_call { IfOk result IsNoCall }
    {
        match self.terms {
            None => Ok(AssocOut::Reply(bind_nak(self.alloc, call_id, 0)?)),
            Some(terms) => {
                let verdicts = verdicts_on(self.alloc, proposals.as_slice())?;
                self.accept(terms, &proposals)?;
                Ok(AssocOut::Reply(alter_context_resp(self.alloc, call_id, terms, verdicts)))
            }
        }
    }

    /// Remembers the terms and the contexts that are accepted.
    fn accept(&mut self, terms: Terms, proposals: &Proposals) -> Result<(), AllocError>
        requires { AreTerms terms }
        ensures ok { OnOk result (self.new ≡ bound self.old terms proposals.now) }
        ensures unchanged { OnErr result (self.new ≡ self.old) }
    {
        let ids = accepted_ids(self.alloc, proposals.as_slice())?;
        self.accepted.extend_from_slice(&ids)?;
        self.terms = Some(terms);
        Ok(())
    }

    /// Whether the client was answered by a bind_ack.
    fn is_bound(&self) -> bool
        ensures { result ≡ is_some self.now.terms }
    {
        self.terms.is_some()
    }

    /// Whether calls on the context are taken.
    fn has_accepted(&self, context: u16) -> bool
        ensures accepted { result ≡ list_any (λ id. id == context) self.now.accepted }
        ensures bound { AcceptsBy self.now.terms self.now.accepted }
    {
        self.accepted.iter().any(|id| *id == context)
    }
}

fn are_too_small(max_xmit: u16, max_recv: u16) -> bool
    ensures { result ≡ is_too_small max_xmit max_recv }
{
    max_xmit < LEAST_FRAGMENT || max_recv < LEAST_FRAGMENT
}

/// Each side sends no more than the other takes.
fn agree(max_xmit: u16, max_recv: u16, group: u32) -> Terms
    requires xmit { 1432 ≤ max_xmit }
    requires recv { 1432 ≤ max_recv }
    ensures terms { result ≡ terms_for max_xmit max_recv group }
    ensures in_range { AreTerms result }
{
    Terms {
        max_xmit: max_recv.min(LONGEST_FRAGMENT),
        max_recv: max_xmit.min(LONGEST_FRAGMENT),
        group,
    }
}
