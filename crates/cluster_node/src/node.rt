//! A node, and what a caller can see of it.

ghost use Rattle.std.specs.Prelude.{◌≡◌, [], IfOk, None, is_some, option_map};
ghost use Rattle.registry_machine.specs.Machine.{replicated};
ghost use Rattle.cluster_node.specs.States as states;

use crate::running::Running;
use client_connections::Connections;
use clus_registry::Registry;
use cluster_member::{Effects, Member};
use std::alloc::{AllocError, Global};
use std::marker::Model;
use update_records::Record;

/// A node of the cluster in one of its incarnations.
///
/// After an error it has stopped: it was out of memory, and no later call does anything.
#[derive(Drop)]
pub struct Node {
    pub(crate) alloc: Global,
    number: u16,
    inc: u64,
    /// None once it has stopped.
    pub(crate) running: Option<Running>,
}

impl Model for Node {
    ghost use Rattle.cluster_node.specs.States.{NodeValue};

    ghost Value = { NodeValue };

    ghost view = { λ n. record { number = n.number; inc = n.inc; running = n.running } };
}

impl Node {
    /// A node begins: without a view, without a registry and without connections.
    pub fn start(alloc: Global, number: u16, inc: u64) -> Node
        ensures { result ≡ states.started number inc }
    {
        Node {
            alloc,
            number,
            inc,
            running: Some(Running {
                member: Member::new(alloc, number, inc),
                clients: Connections::new(alloc, number),
            }),
        }
    }

    pub fn number(&self) -> u16
        ensures { result ≡ self.now.number }
    {
        self.number
    }

    /// The incarnation that was given to [`Node::start`].
    pub fn inc(&self) -> u64
        ensures { result ≡ self.now.inc }
    {
        self.inc
    }

    pub fn is_stopped(&self) -> bool
        ensures { result ≡ states.is_stopped self.now }
    {
        self.running.is_none()
    }

    pub fn is_open(&self) -> bool
        ensures { result ≡ states.is_open self.now }
    {
        match &self.running {
            Some(running) => running.member.is_open(),
            None => false,
        }
    }

    /// Whether the connection is open.
    pub fn is_connected(&self, conn: u32) -> bool
        ensures { result ≡ is_some (states.client_in conn self.now) }
    {
        match &self.running {
            Some(running) => running.clients.is_open(conn),
            None => false,
        }
    }

    /// The numbers of the connections that are open, ascending.
    pub fn connections(&self) -> Result<Vec<u32>, AllocError>
        ensures { IfOk result (λ numbers. numbers.items ≡ states.open_at self.now) }
    {
        match &self.running {
            Some(running) => running.clients.numbers(),
            None => Ok(Vec::new(self.alloc)),
        }
    }

    /// None before the first view, and once the node has stopped.
    pub fn view_number(&self) -> Option<u32>
        ensures { result ≡ states.view_number self.now }
    {
        match &self.running {
            Some(running) => running.member.view_number(),
            None => None,
        }
    }

    /// How many records of the update order its registry has applied.
    pub fn done(&self) -> Option<u64>
        ensures { result ≡ states.done self.now }
    {
        match &self.running {
            Some(running) => running.member.done(),
            None => None,
        }
    }

    pub fn registry(&self) -> Option<&Registry>
        ensures { option_map (λ registry. replicated registry.now) result ≡ states.registry_in self.now }
    {
        match &self.running {
            Some(running) => running.member.registry(),
            None => None,
        }
    }

    pub fn last_record(&self) -> Option<&Record>
        ensures { option_map (λ entry. entry.now) result ≡ states.last_record self.now }
    {
        match &self.running {
            Some(running) => running.member.last_record(),
            None => None,
        }
    }

    /// The node runs no longer.
    pub(crate) fn stop(&mut self)
        ensures { self.new ≡ record self.old { running = None } }
    {
        self.running = None;
    }

    pub(crate) fn silence(&self) -> Effects
        ensures { result ≡ [] }
    {
        Effects::new(Vec::new(self.alloc))
    }
}
