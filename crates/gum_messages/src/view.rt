//! A view of the cluster: its number and its members.

ghost use Rattle.std.specs.Prelude.{◌≡◌, ◌≤◌, IfOk, IfSome, IsNone, IsTrue, ◌↔◌, [], length, All, SomeIff};
ghost use Rattle.gum_messages.specs.Members.{locker_of};
ghost use Rattle.gum_messages.specs.Views.{Ascend, IsView, view_of};

use crate::{Member, Members};
use std::alloc::{AllocError, Global};
use std::marker::Model;

/// A view of the cluster. Its number is at least 1, the nodes of its members ascend strictly within 1 to 16,
/// and each member has an incarnation. Source: Vogels et al., The Design and Architecture of the Microsoft
/// Cluster Service, FTCS 1998.
#[derive(Debug, Drop)]
pub struct View {
    number: u32,
    members: Members,
}

impl Model for View {
    ghost use Rattle.gum_messages.specs.Views.{ViewState, IsView, view_of};

    ghost Value = { ViewState };

    ghost view = { λ v. view_of v.number v.members };

    ghost invariant = { λ v. IsView (view_of v.number v.members) };
}

impl View {
    pub fn new(number: u32, members: Vec<Member>) -> Option<View>
        ensures { SomeIff result (IsView (view_of number members.items)) (view_of number members.items) }
    {
        if number == 0 || !ascend(&members) {
            return None;
        }
        Some(View {
            number,
            members: Members::new(members),
        })
    }

    pub fn number(&self) -> u32
        ensures number { result ≡ self.now.number }
        ensures numbered { 1 ≤ result }
    {
        self.number
    }

    pub fn members(&self) -> &Members
        ensures members { result.now ≡ self.now.members }
        ensures ascending { Ascend 0 result.now }
        ensures few { length result.now ≤ 16 }
    {
        &self.members
    }

    /// The node that orders the updates of this view.
    pub fn locker(&self) -> Option<u16>
        ensures none { IsNone result ↔ (self.now.members ≡ []) }
        ensures first { IfSome result (λ node. node ≡ locker_of self.now.members) }
        ensures lowest { IfSome result (λ node. All (λ m. node ≤ m.node) self.now.members) }
    {
        match self.members.as_slice() {
            [first, ..] => Some(first.node),
            [] => None,
        }
    }

    pub fn copy(&self, alloc: Global) -> Result<View, AllocError>
        ensures { IfOk result (λ copy. copy ≡ self.now) }
    {
        Ok(View {
            number: self.number,
            members: self.members.copy(alloc)?,
        })
    }
}

/// Whether the nodes ascend strictly within 1 to 16, and each member has an incarnation.
fn ascend(members: &[Member]) -> bool
    ensures { IsTrue result ↔ Ascend 0 members.now }
{
    let mut floor = 0;
    for member in members {
        if member.node <= floor || member.node > 16 || member.inc == 0 {
            return false;
        }
        floor = member.node;
    }
    true
}
