//! Where the node stands that an event reaches.

ghost use Rattle.std.specs.Prelude.{◌≡◌};
ghost use Rattle.std.specs.Option.{option_flatten};
ghost use Rattle.gum_messages.specs.Places.{at_place};
ghost use Rattle.cluster_worlds.specs.Happening.{addressee, node_with, reached, served_at};
ghost use Rattle.cluster_worlds.specs.Worlds.{home_of, node_at};
ghost use Rattle.cluster_replay.specs.Slots.{IsIndex};

use crate::world::World;
use cluster_node::Node;
use cluster_worlds::Inner;
use disk_core::CrashDisk;

impl<D: CrashDisk + Drop> World<D> {
    pub(crate) fn reached(&self, inner: &Inner) -> Option<usize>
        ensures { IsIndex result (reached inner.now self.now.world) self.now.world.nodes }
    {
        match inner {
            Inner::Install { node, .. } => self.index_of(*node),
            Inner::Bytes { conn, .. } => self.server_of(*conn),
            Inner::HangUp(conn) => self.server_of(*conn),
            Inner::Deliver(number) => self.receiver_of(*number),
            Inner::Tick(node) => self.index_of(*node),
            Inner::Checkpoint(node) => self.index_of(*node),
        }
    }

    pub(crate) fn index_of(&self, node: u16) -> Option<usize>
        ensures { IsIndex result (node_at node self.now.world) self.now.world.nodes }
    {
        index_in(self.nodes.as_slice(), node)
    }

    /// Where the node stands at which a connection is open.
    fn server_of(&self, conn: u32) -> Option<usize>
        ensures { IsIndex result (served_at conn (home_of conn self.now.world) self.now.world) self.now.world.nodes }
    {
        match self.conns.get(&conn) {
            None => None,
            Some(node) => server_in(self.nodes.as_slice(), *node, conn),
        }
    }

    fn receiver_of(&self, number: u64) -> Option<usize>
        ensures { IsIndex result (addressee (at_place self.now.world.pool number) self.now.world) self.now.world.nodes }
    {
        match self.journal.message(number) {
            None => None,
            Some(message) => index_in(self.nodes.as_slice(), message.to),
        }
    }
}

fn index_in(nodes: &[Option<Node>], node: u16) -> Option<usize>
    ensures { IsIndex result (option_flatten (at_place nodes.now node)) nodes.now }
{
    if node == 0 {
        return None;
    }
    let index = node as usize - 1;
    match nodes.get(index) {
        Some(Some(_)) => Some(index),
        Some(None) => None,
        None => None,
    }
}

fn server_in(nodes: &[Option<Node>], node: u16, conn: u32) -> Option<usize>
    ensures { IsIndex result (node_with conn (option_flatten (at_place nodes.now node))) nodes.now }
{
    if node == 0 {
        return None;
    }
    let index = node as usize - 1;
    match nodes.get(index) {
        Some(Some(node)) if node.is_connected(conn) => Some(index),
        _ => None,
    }
}
