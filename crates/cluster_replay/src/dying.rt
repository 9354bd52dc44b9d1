//! How a node dies.

ghost use Rattle.std.specs.Prelude.{◌≡◌, ◌++◌, ◌∷◌, None, IfOk, IfSome, OnOk, map};
ghost use Rattle.cluster_rules.specs.declared.effect.CloseCause.TheVariants as causes;
ghost use Rattle.cluster_worlds.specs.Telling.{told_death};
ghost use Rattle.cluster_replay.specs.Slots.{death_at};

use cluster_node::Node;
use cluster_rules::CloseCause;
use cluster_worlds::Told;
use std::alloc::{AllocError, Global};

/// What is told where the node in a place dies: each connection that is open is closed, by ascending numbers.
pub(crate) fn tell_death(alloc: Global, slot: &Option<Node>) -> Result<Vec<Told>, AllocError>
    ensures { IfOk result (λ told. told.items ≡ death_at slot.now) }
{
    match slot {
        None => Ok(Vec::new(alloc)),
        Some(node) => tell_closed(alloc, node),
    }
}

fn tell_closed(alloc: Global, node: &Node) -> Result<Vec<Told>, AllocError>
    ensures { IfOk result (λ told. told.items ≡ told_death node.now) }
{
    let conns = node.connections()?;
    closed(alloc, &conns)
}

fn closed(alloc: Global, conns: &[u32]) -> Result<Vec<Told>, AllocError>
    ensures { IfOk result (λ told. told.items ≡ map (λ conn. Told.Closed conn causes.NodeStopped) conns.now) }
{
    let mut told = Vec::new(alloc);
    'conns: for conn in conns {
        told.push(Told::Closed {
            conn: *conn,
            cause: CloseCause::NodeStopped,
        })?;
    }
    Ok(told)
}

/// The node runs no longer.
pub(crate) fn vacate(slot: &mut Option<Node>)
    ensures { slot.new ≡ None }
{
    *slot = None;
}
