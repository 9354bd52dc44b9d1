//! The members of a view, in the order of their nodes.

ghost use Rattle.std.specs.Prelude.{◌≡◌, IfOk, find, nat_eq, option_copied, position};
ghost use Rattle.gum_messages.specs.Members.{inc_of, index_of, is_locker, spread_of};

use crate::Member;
use std::alloc::{AllocError, Global};
use std::marker::Model;

/// A list of members, which contracts see as that list.
#[derive(Debug, Drop)]
pub struct Members {
    items: Vec<Member>,
}

impl Model for Members {
    ghost use Rattle.std.specs.Prelude.{List};
    ghost use Rattle.gum_messages.specs.declared.member.Member.{Member};

    ghost Value = { List Member };

    ghost view = { λ a. a.items.items };
}

impl Members {
    pub fn new(items: Vec<Member>) -> Members
        ensures { result ≡ items.items }
    {
        Members { items }
    }

    pub fn as_slice(&self) -> &[Member]
        ensures { result.now ≡ self.now }
    {
        self.items.as_slice()
    }

    pub fn into_vec(self) -> Vec<Member>
        ensures { result.items ≡ self }
    {
        let Members { items } = self;
        items
    }

    pub fn copy(&self, alloc: Global) -> Result<Members, AllocError>
        ensures { IfOk result (λ copy. copy ≡ self.now) }
    {
        Ok(Members {
            items: self.items.to_vec(alloc)?,
        })
    }

    /// The node's member.
    pub fn member(&self, node: u16) -> Option<&Member>
        ensures { option_copied result ≡ find (λ m. nat_eq m.node node) self.now }
    {
        self.items.iter().find(|member| member.node == node)
    }

    /// The incarnation with which the node is a member; 0 where it is none.
    #[tactic(auto, using(crate::proofs::Lookup::inc_of_found, crate::proofs::Lookup::inc_of_none))]
    pub fn incarnation(&self, node: u16) -> u64
        ensures { result ≡ inc_of self.now node }
    {
        match self.member(node) {
            Some(member) => member.inc,
            None => 0,
        }
    }

    /// The index of the node's member; the number of members where it is none.
    #[tactic(auto, using(crate::proofs::Lookup::index_of_found, crate::proofs::Lookup::index_of_none))]
    pub fn index_of(&self, node: u16) -> usize
        ensures { result ≡ index_of self.now node }
    {
        match position(self.items.as_slice(), node) {
            Some(index) => index,
            None => self.items.len(),
        }
    }

    /// Whether the node is the locker: the lowest member.
    pub fn is_locker(&self, node: u16) -> bool
        ensures { result ≡ is_locker self.now node }
    {
        match self.items.first() {
            Some(member) => member.node == node,
            None => false,
        }
    }

    /// The members behind the locker, in whose order an update spreads.
    pub fn spreading_order(&self) -> &[Member]
        ensures { result.now ≡ spread_of self.now }
    {
        match self.items.as_slice() {
            [_, others @ ..] => others,
            [] => &[],
        }
    }
}

fn position(members: &[Member], node: u16) -> Option<usize>
    ensures { result ≡ position (λ m. nat_eq m.node node) members.now }
{
    members.iter().position(|member| member.node == node)
}
