use client_connections::Connections;
use cluster_member::Member;
use std::marker::Model;

/// A node while it runs.
#[derive(Drop)]
pub(crate) struct Running {
    pub(crate) member: Member,
    pub(crate) clients: Connections,
}

impl Model for Running {
    ghost use Rattle.cluster_node.specs.States.{RunningNode};

    ghost Value = { RunningNode };

    ghost view = { λ r. record { member = r.member; clients = r.clients } };
}
