//! What a node does behind an event of its member.

ghost use Rattle.std.specs.Prelude.{◌≡◌, ◌∷◌, ◌++◌, List, IfOk};
ghost use Rattle.cluster_rules.specs.Worlds.{acked};
ghost use Rattle.cluster_rules.specs.declared.effect.Effect as effect;
ghost use Rattle.cluster_rules.specs.declared.effect.Effect.TheVariants.{Halted};
ghost use Rattle.client_connections.specs.Clients.{closings};
ghost use Rattle.client_connections.specs.Finishing.{finished};
ghost use Rattle.cluster_node.specs.Acting.{Acts, ContinuesAt, Finishes, FollowsTo, answered_with};
ghost use Rattle.cluster_node.specs.Acknowledged.{IsAck, IsAckAt, acks};

use crate::running::Running;
use crate::taking::go_on;
use client_connections::Connections;
use cluster_member::{Effects, Member, Stop, Told};
use cluster_rules::{Effect, HaltCause};
use registry_defs::Outcome;
use std::alloc::{AllocError, Global};

/// What a node that follows an event of its member tells, and whether it goes on.
#[derive(Debug, Drop)]
pub(crate) enum Followed {
    GoesOn(Effects),
    Stops(Effects),
}

/// What follows of an event of the member. `request` was that of the queue's head.
pub(crate) fn follow(
    alloc: Global,
    running: &mut Running,
    request: u64,
    came: Result<Told, Stop>,
) -> Result<Followed, AllocError>
    ensures { IfOk result (λ followed. FollowsTo came request running.old running.new followed) }
{
    match came {
        Ok(told) => {
            let effects = act(&mut running.member, &mut running.clients, request, told)?;
            Ok(Followed::GoesOn(Effects::new(effects)))
        }
        Err(Stop::Halted(cause)) => {
            Ok(Followed::Stops(halted(alloc, &mut running.clients, cause)?))
        }
        Err(Stop::Memory) => Err(AllocError),
    }
}

/// The node stops, and each connection is closed.
fn halted(alloc: Global, clients: &mut Connections, cause: HaltCause) -> Result<Effects, AllocError>
    ensures { IfOk result (λ effects. effects ≡ Halted cause ∷ closings clients.old.conns) }
{
    let mut effects = Vec::new(alloc);
    effects.push(Effect::Halted(cause))?;
    let mut closed = clients.stop()?;
    effects.append(&mut closed)?;
    Ok(Effects::new(effects))
}

/// The member told this.
fn act(
    member: &mut Member,
    clients: &mut Connections,
    request: u64,
    told: Told,
) -> Result<Vec<Effect>, AllocError>
    ensures { IfOk result (λ effects. Acts (acked told.effects) request member.old clients.old told member.new clients.new effects.items) }
{
    let Told { effects, outcome } = told;
    let effects = effects.into_vec();
    match acknowledgement(&effects) {
        None => Ok(effects),
        Some(ack) => finish(member, clients, request, ack, effects, outcome),
    }
}

/// Where among effects the head is acknowledged, and the place of its record.
#[derive(Clone, Copy, Debug)]
pub(crate) struct Ack {
    pub(crate) index: usize,
    pub(crate) place: u64,
}

/// The update of the head came to its outcome: its client is answered, and the connection goes on.
fn finish(
    member: &mut Member,
    clients: &mut Connections,
    request: u64,
    ack: Ack,
    effects: Vec<Effect>,
    outcome: Option<Outcome>,
) -> Result<Vec<Effect>, AllocError>
    requires at { IsAckAt ack.index ack.place effects.items }
    ensures { IfOk result (λ told. Finishes (finished clients.old.common.waiting request ack.place outcome clients.old) member.old effects.items
        member.new clients.new told.items) }
{
    let end = clients.finish(request, ack.place, outcome)?;
    let answered = answered(effects, ack, end.effect)?;
    continued(member, clients, end.resumes, answered)
}

/// The answer is told right behind the acknowledgement.
fn answered(
    mut effects: Vec<Effect>,
    ack: Ack,
    answer: Option<Effect>,
) -> Result<Vec<Effect>, AllocError>
    requires at { IsAckAt ack.index ack.place effects.items }
    ensures { IfOk result (λ told. told.items ≡ answered_with answer effects.items) }
{
    if let Some(answer) = answer {
        effects.insert(ack.index + 1, answer)?;
    }
    Ok(effects)
}

/// What a connection tells that goes on stands behind all else.
fn continued(
    member: &mut Member,
    clients: &mut Connections,
    resumes: Option<u32>,
    mut effects: Vec<Effect>,
) -> Result<Vec<Effect>, AllocError>
    ensures { IfOk result (λ told. (more : List effect.Effect) × ContinuesAt resumes member.old clients.old member.new clients.new more × (told.items ≡ effects.items ++ more)) }
{
    match resumes {
        None => Ok(effects),
        Some(conn) => {
            let mut more = go_on(member, clients, conn)?;
            effects.append(&mut more)?;
            Ok(effects)
        }
    }
}

/// Where the head is acknowledged, if it is.
fn acknowledgement(effects: &[Effect]) -> Option<Ack>
    ensures { IsAck result effects.now }
{
    let mut index = 0;
    'effects: for effect in effects {
        if let Some(place) = acks(effect) {
            return Some(Ack { index, place });
        }
        index += 1;
    }
    None
}

/// The place of the record that an effect acknowledges.
fn acks(effect: &Effect) -> Option<u64>
    ensures { result ≡ acks effect.now }
{
    match effect {
        Effect::Acked { place, .. } => Some(*place),
        Effect::Send(_) => None,
        Effect::Reply { .. } => None,
        Effect::Closed { .. } => None,
        Effect::Opened { .. } => None,
        Effect::Batched { .. } => None,
        Effect::Halted(_) => None,
    }
}
