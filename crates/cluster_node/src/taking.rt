//! What clients are answered, and the updates that they queue.

ghost use Rattle.std.specs.Prelude.{◌≡◌, IfOk, IfSome, option_map};
ghost use Rattle.update_records.specs.Validity.{IsValid};
ghost use Rattle.registry_defs.specs.Contents.{keys_in};
ghost use Rattle.cluster_rules.specs.Nodes.{done_of};
ghost use Rattle.client_connections.specs.Finishing.{batched};
ghost use Rattle.cluster_node.specs.Acting.{Continues, HearsPiece, Submits, keys_if_open};
ghost use Rattle.cluster_node.specs.Events.{Refuses};

use client_connections::{Connections, Taken};
use clus_registry::Registry;
use cluster_member::Member;
use cluster_rules::Effect;
use std::alloc::{AllocError, Global};
use update_records::Update;

/// A piece of a connection's stream comes.
pub(crate) fn hear(
    member: &mut Member,
    clients: &mut Connections,
    conn: u32,
    piece: &[u8],
) -> Result<Vec<Effect>, AllocError>
    ensures { IfOk result (λ effects. HearsPiece conn piece.now member.old clients.old member.new clients.new effects.items) }
{
    let taken = clients.hear(conn, piece, served(member), done(member))?;
    submit(member, taken)
}

/// A connection goes on behind its update.
pub(crate) fn go_on(
    member: &mut Member,
    clients: &mut Connections,
    conn: u32,
) -> Result<Vec<Effect>, AllocError>
    ensures { IfOk result (λ effects. Continues conn member.old clients.old member.new clients.new effects.items) }
{
    let taken = clients.take(conn, served(member), done(member))?;
    submit(member, taken)
}

/// The update that a connection queued is submitted, where it queued one.
fn submit(member: &mut Member, taken: Taken) -> Result<Vec<Effect>, AllocError>
    requires valid { IfSome taken.update IsValid }
    ensures { IfOk result (λ effects. Submits taken.update taken.effects.items member.old member.new effects.items) }
{
    let Taken {
        mut effects,
        update,
    } = taken;
    match update {
        None => Ok(effects),
        Some(update) => {
            let mut more = member.submit(update)?.effects.into_vec();
            effects.append(&mut more)?;
            Ok(effects)
        }
    }
}

/// A batch is refused, or waits for its update.
pub(crate) fn batch(
    alloc: Global,
    member: &mut Member,
    clients: &mut Connections,
    update: Update,
) -> Result<Vec<Effect>, AllocError>
    requires valid { IsValid update }
    ensures clients { IfOk result (λ _. clients.new ≡ (batched member.old.rules.core.is_open clients.old).0) }
    ensures submits { IfOk result (λ effects. Refuses (batched member.old.rules.core.is_open clients.old).1 update member.old member.new effects.items) }
{
    match clients.batch(member.is_open())? {
        Some(refused) => {
            let mut effects = Vec::new(alloc);
            effects.push(refused)?;
            Ok(effects)
        }
        None => Ok(member.submit(update)?.effects.into_vec()),
    }
}

/// The node's own registry, where it is open.
fn served(member: &Member) -> Option<&Registry>
    ensures { option_map (λ registry. keys_in registry.now) result ≡ keys_if_open member.now.rules }
{
    if member.is_open() {
        member.registry()
    } else {
        None
    }
}

/// How many records it has applied.
fn done(member: &Member) -> u64
    ensures { result ≡ done_of member.now.rules }
{
    member.done().unwrap_or(0)
}
