//! A server between two items of a client, and the answer to the next one.

ghost use Rattle.std.specs.Prelude.{◌≡◌, [], ◌∷◌, IfOk, IsTrue, Some, is_some};
ghost use Rattle.rpc_calls.specs.Parts.{ItemFits};
ghost use Rattle.rpc_assoc.specs.State.{group_of};
ghost use Rattle.rpc_assoc.specs.Association.{IsInGroup, SpellsReply};
ghost use Rattle.rpc_pdu.specs.Encoding.{CanSpell};
ghost use Rattle.registry_server.specs.Answers.{answer_to, call_answered, given_group, in_group, replied, taken, text_of};
ghost use Rattle.registry_server.specs.Calls.{called};
ghost use Rattle.registry_server.specs.Servers.{hung_up, new_server};

use crate::replies::reply;
use clus_registry::Registry;
use context_handles::Handles;
use rpc_assoc::{Assoc, AssocOut};
use rpc_calls::{Call, Item};
use rpc_pdu::{Pdu, encode};
use std::alloc::{AllocError, Global};
use std::marker::Model;

/// How many bytes the encoding of the registry may have.
const MOST_SIZE: u32 = 1_048_576;

/// A server of one registry in memory, for one connection at a time.
#[derive(Drop)]
pub struct Server {
    pub(crate) alloc: Global,
    pub(crate) handles: Handles,
    pub(crate) registry: Registry,
    /// How many calls that update were made so far.
    pub(crate) updates: u64,
    association: Assoc,
}

impl Model for Server {
    ghost use Rattle.registry_defs.specs.Contents.{keys_in};
    ghost use Rattle.registry_server.specs.Servers.{IsKept, ServerState};

    ghost Value = { ServerState };

    ghost view = { λ s. record { handles = s.handles; keys = keys_in s.registry; updates = s.updates; association = s.association } };

    ghost invariant = { λ s. IsKept s.registry.cap s.updates };
}

impl Server {
    /// The server of the empty registry, on the node with this number. No connection is bound.
    pub fn new(alloc: Global, node: u16) -> Result<Server, AllocError>
        ensures { IfOk result (λ server. server ≡ new_server node) }
    {
        Ok(Server {
            alloc,
            handles: Handles::new(alloc, node),
            registry: Registry::new(alloc, MOST_SIZE)?,
            updates: 0,
            association: Assoc::new(alloc),
        })
    }

    /// The bytes of all replies to the next item of the connection that is present.
    ///
    /// Where memory ran out the call may have been made: the server isn't to be used any more. The same is answered where a
    /// number is at the end of its type, since nothing else could be done.
    pub fn answer(&mut self, item: Item) -> Result<Vec<u8>, AllocError>
        requires few { ItemFits item }
        ensures replies { IfOk result (λ bytes. bytes.items ≡ text_of (answer_to self.old item).0) }
        ensures state { IfOk result (λ _. self.new ≡ (answer_to self.old item).1) }
    {
        match self.step(item)? {
            AssocOut::Reply(pdu) => encoded(self.alloc, pdu),
            AssocOut::Call(call) => self.answer_call(&call),
            AssocOut::Nothing => Ok(Vec::new(self.alloc)),
        }
    }

    /// Ends the connection that is present; the next item is the first of another one.
    pub fn hang_up(&mut self)
        ensures { self.new ≡ hung_up self.old }
    {
        if let Some(group) = self.association.group() {
            self.handles.leave(group);
        }
        self.association = Assoc::new(self.alloc);
    }

    /// Hands the item to the association, in the group that it gets.
    fn step(&mut self, item: Item) -> Result<AssocOut, AllocError>
        requires few { ItemFits item }
        ensures step { IfOk result (λ out. (out, self.new) ≡ taken self.old item) }
        ensures encoding { IfOk result SpellsReply }
        ensures grouped { IfOk result (λ out. IsInGroup out self.new.association) }
    {
        let group = self.join(&item)?;
        self.association.step(item, group)
    }

    /// Takes the connection into the group that the item asks for, if it does, and answers the group's number.
    fn join(&mut self, item: &Item) -> Result<Option<u32>, AllocError>
        ensures given { IfOk result (λ group. group ≡ given_group self.old item.now) }
        ensures joined { IfOk result (λ group. self.new ≡ in_group self.old group) }
    {
        let Some(asked) = self.association.wants(item) else {
            return Ok(None);
        };
        self.handles.join_group(asked)
    }

    /// The bytes of the replies to a call.
    fn answer_call(&mut self, call: &Call) -> Result<Vec<u8>, AllocError>
        requires grouped { IsTrue (is_some (group_of self.old.association)) }
        ensures replies { IfOk result (λ bytes. bytes.items ≡ text_of (call_answered self.old call.now (group_of self.old.association)).0) }
        ensures state { IfOk result (λ _. self.new ≡ (call_answered self.old call.now (group_of self.old.association)).1) }
    {
        let group = self.group();
        self.answer_in(group, call)
    }

    /// The association group of the connection, which is bound.
    fn group(&self) -> u32
        requires { IsTrue (is_some (group_of self.now.association)) }
        ensures { group_of self.now.association ≡ Some result }
    {
        self.association.group().unwrap()
    }

    /// The same for a connection in this group.
    fn answer_in(&mut self, group: u32, call: &Call) -> Result<Vec<u8>, AllocError>
        ensures replies { IfOk result (λ bytes. bytes.items ≡ text_of (replied call.now (called self.old group call.now)).0) }
        ensures state { IfOk result (λ _. self.new ≡ (replied call.now (called self.old group call.now)).1) }
    {
        let effect = self.call(group, call)?;
        reply(self.alloc, self.association.max_xmit(), call, &effect)
    }
}

fn encoded(alloc: Global, reply: Pdu) -> Result<Vec<u8>, AllocError>
    requires { CanSpell reply }
    ensures { IfOk result (λ bytes. bytes.items ≡ text_of (reply ∷ [])) }
{
    encode(alloc, &reply)
}
