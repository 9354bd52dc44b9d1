//! The chain of all views that were declared.

ghost use Rattle.std.specs.Prelude.{◌≡◌, ◌≢◌, ◌⊎◌, [], ◌∷◌, ◌++◌, None, Some, IfErr, MatchResult, OnErr, OnOk, find, option_copied, slice_get};
ghost use Rattle.gum_messages.specs.Members.{inc_of};
ghost use Rattle.view_reconcile.specs.Chains.{IsChain, fault_of, has_left, has_returned, has_stood, is_outdated, last_members, view_in};

use crate::{ChainFault, Member, View};
use std::alloc::Global;
use std::marker::Model;

/// The views that were declared, in their order.
///
/// They are numbered from 1 and none is empty; each incarnation stands in one unbroken run of them, and the incarnations
/// of a node never fall.
#[derive(Debug, Drop)]
pub struct Chain {
    views: Vec<View>,
}

impl Model for Chain {
    ghost use Rattle.std.specs.Prelude.{List};
    ghost use Rattle.gum_messages.specs.declared.view.View.{View};
    ghost use Rattle.view_reconcile.specs.Chains.{IsChain};

    ghost Value = { List View };

    ghost view = { λ c. c.views.items };

    ghost invariant = { λ c. IsChain c.views.items };
}

impl Chain {
    pub fn new(alloc: Global) -> Chain
        ensures { result ≡ [] }
    {
        Chain {
            views: Vec::new(alloc),
        }
    }

    /// Adds a view. Of the faults the first in their order is answered, and of the members that return the first.
    pub fn declare(&mut self, view: View) -> Result<(), ChainFault>
        ensures added { OnOk result (self.new ≡ self.old ++ view ∷ []) }
        ensures unchanged { OnErr result (self.new ≡ self.old) }
        ensures fault { MatchResult result (λ _. fault_of self.old view ≡ None) (λ e. (e ≡ ChainFault.Memory) ⊎ (fault_of self.old view ≡ Some e)) }

        // It is Ok exactly where the chain stays one.
        ensures chain { OnOk result (IsChain (self.old ++ view ∷ [])) }
        ensures no_chain { IfErr result (λ e. e ≢ ChainFault.Memory → ¬ IsChain (self.old ++ view ∷ [])) }
    {
        if let Some(fault) = self.fault(&view) {
            return Err(fault);
        }
        self.views.push(view)?;
        Ok(())
    }

    /// The view of this number.
    pub fn view(&self, number: u32) -> Option<&View>
        ensures { option_copied result ≡ view_in self.now number }
    {
        if number == 0 {
            return None;
        }
        self.views.get(number as usize - 1)
    }

    fn fault(&self, view: &View) -> Option<ChainFault>
        ensures { result ≡ fault_of self.now view.now }
    {
        if view.number() as usize != self.views.len() + 1 {
            return Some(ChainFault::NotNext);
        }
        let members = view.members().as_slice();
        if members.is_empty() {
            return Some(ChainFault::Empty);
        }
        match self.first_returned(members) {
            Some(member) => Some(ChainFault::Returned {
                node: member.node,
                inc: member.inc,
            }),
            None => None,
        }
    }

    fn first_returned<'a>(&self, members: &'a [Member]) -> Option<&'a Member>
        ensures { option_copied result ≡ find (has_returned self.now) members.now }
    {
        members.iter().find(|member| self.has_returned(member))
    }

    /// Whether this member stood in an earlier view and not in the last one, or its node in one with a greater incarnation.
    fn has_returned(&self, member: &Member) -> bool
        ensures { result ≡ has_returned self.now member.now }
    {
        self.has_left(member) || self.is_outdated(member)
    }

    fn has_left(&self, member: &Member) -> bool
        ensures { result ≡ has_left self.now member.now }
    {
        self.has_stood(member) && self.last_incarnation(member.node) != member.inc
    }

    fn has_stood(&self, member: &Member) -> bool
        ensures { result ≡ has_stood self.now member.now }
    {
        self.views.iter().any(|view| view.members().incarnation(member.node) == member.inc)
    }

    fn is_outdated(&self, member: &Member) -> bool
        ensures { result ≡ is_outdated self.now member.now }
    {
        self.views.iter().any(|view| member.inc < view.members().incarnation(member.node))
    }

    /// The incarnation of the node in the last view; 0 where it has none there.
    fn last_incarnation(&self, node: u16) -> u64
        ensures { result ≡ inc_of (last_members self.now) node }
    {
        match self.views.last() {
            Some(view) => view.members().incarnation(node),
            None => 0,
        }
    }
}
