//! The table of open handles.

ghost use Rattle.std.specs.Prelude.{◌≡◌, ◌==◌, ◌+◌, ◌<◌, IfOk, OnErr, is_some, position};
ghost use Rattle.std.specs.Option.{option_map};
ghost use Rattle.context_handles.specs.Encoding.{handle_of};
ghost use Rattle.context_handles.specs.Table.{IsSound, closed, fresh, found, group_for, has_member, joined, left, named, of_others, opened, without_one};

use crate::encoding::{handle_of, is_handle_of, serial_in};
use crate::held::{Entry, Held};
use ndr_values::WireHandle;
use std::alloc::{AllocError, Global};
use std::collections::BTreeMap;
use std::marker::Model;

/// The association groups of a node, and the handles that are open in each.
#[derive(Drop)]
pub struct Handles {
    node: u16,
    groups: u32,
    serials: u64,
    members: Vec<u32>,
    entries: BTreeMap<u64, Entry>,
}

impl Model for Handles {
    ghost use Rattle.context_handles.specs.Table.{Table, IsSound};

    ghost Value = { Table };

    ghost view = { λ h. record { node = h.node; groups = h.groups; serials = h.serials; members = h.members.items; entries = h.entries.entries } };

    ghost invariant = { λ h. IsSound h.serials h.entries.entries };
}

impl Handles {
    pub fn new(alloc: Global, node: u16) -> Handles
        ensures { result ≡ fresh node }
    {
        Handles {
            node,
            groups: 0,
            serials: 0,
            members: Vec::new(alloc),
            entries: BTreeMap::new(alloc),
        }
    }

    /// The number of the node.
    pub fn node(&self) -> u16
        ensures { result ≡ self.now.node }
    {
        self.node
    }

    /// How many handles were opened so far.
    pub fn serials(&self) -> u64
        ensures count { result ≡ self.now.serials }
        ensures sound { IsSound self.now.serials self.now.entries }
    {
        self.serials
    }

    /// Takes a connection into the group that it asks for, 0 for a new one, and answers the group's
    /// number. None where it can't have one.
    pub fn join_group(&mut self, asked: u32) -> Result<Option<u32>, AllocError>
        ensures given { IfOk result (λ group. group ≡ group_for self.old asked) }
        ensures joined { IfOk result (λ group. self.new ≡ joined self.old group) }
        ensures unchanged { OnErr result (self.new ≡ self.old) }
    {
        let given = self.group_for(asked);
        if let Some(group) = given {
            self.members.push(group)?;
            self.groups = self.groups.max(group);
        }
        Ok(given)
    }

    fn group_for(&self, asked: u32) -> Option<u32>
        ensures { result ≡ group_for self.now asked }
    {
        if asked == 0 {
            return self.groups.checked_add(1);
        }
        if self.has_member(asked) {
            Some(asked)
        } else {
            None
        }
    }

    fn has_member(&self, group: u32) -> bool
        ensures { result ≡ has_member group self.now.members }
    {
        self.members.contains(&group)
    }

    /// Takes a connection out of its group. With the last one the handles of the group are closed.
    pub fn leave(&mut self, group: u32)
        ensures { self.new ≡ left self.old group }
    {
        remove_one(&mut self.members, group);
        if !self.has_member(group) {
            close_all(&mut self.entries, group);
        }
    }

    /// Opens a handle in a group.
    pub fn open(&mut self, group: u32, held: Held) -> Result<WireHandle, AllocError>
        requires { self.old.serials < 9223372036854775807 }
        ensures given { IfOk result (λ handle. handle ≡ handle_of self.old.node (self.old.serials + 1)) }
        ensures opened { IfOk result (λ handle. self.new ≡ opened self.old group held) }
        ensures unchanged { OnErr result (self.new ≡ self.old) }
    {
        let serial = self.serials + 1;
        self.entries.insert(serial, Entry { group, held })?;
        self.serials = serial;
        Ok(handle_of(self.node, serial))
    }

    /// What the handle stands for, where it is open in this group.
    pub fn find(&self, group: u32, handle: &WireHandle) -> Option<&Held>
        ensures { option_map (λ held. held.now) result ≡ found self.now group handle.now }
    {
        match self.entry(handle) {
            Some(entry) if entry.group == group => Some(&entry.held),
            _ => None,
        }
    }

    /// What the handle stands for, in whatever group it is open.
    fn entry(&self, handle: &WireHandle) -> Option<&Entry>
        ensures { option_map (λ entry. entry.now) result ≡ named self.now handle.now }
    {
        let serial = serial_in(handle);
        if !is_handle_of(self.node, handle, serial) {
            return None;
        }
        self.entries.get(&serial)
    }

    /// Closes the handle, and answers whether it was open in this group.
    pub fn close(&mut self, group: u32, handle: &WireHandle) -> bool
        ensures found { result ≡ is_some (found self.old group handle.now) }
        ensures closed { self.new ≡ closed self.old group handle.now }
    {
        if self.find(group, handle).is_none() {
            return false;
        }
        self.entries.remove(&serial_in(handle));
        true
    }
}

fn remove_one(members: &mut Vec<u32>, group: u32)
    ensures { members.new.items ≡ without_one group members.old.items }
{
    if let Some(place) = place_of(members, group) {
        members.remove(place);
    }
}

fn place_of(members: &[u32], group: u32) -> Option<usize>
    ensures { result ≡ position (λ member. member == group) members.now }
{
    members.iter().position(|member| *member == group)
}

fn close_all(entries: &mut BTreeMap<u64, Entry>, group: u32)
    ensures { entries.new.entries ≡ of_others group entries.old.entries }
{
    entries.retain(|_, entry| entry.group != group);
}
