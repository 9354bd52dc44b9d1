//! What a user is told of a line that can't be played.

ghost use Rattle.std.specs.Prelude.{◌≡◌, IfOk, string_bytes};
ghost use Rattle.script_text.specs.Refusals.{bad_column_text, bad_event_text, chain_text, refusal_text};

use cluster_worlds::BadEvent;
use std::alloc::{AllocError, Global};
use view_reconcile::ChainFault;

/// The text of a line whose words don't fit, from that column on, without a line feed.
#[tactic(auto, unfolding(crate::specs::Refusals::bad_column_text))]
pub fn bad_column(alloc: Global, line: u32, column: u32) -> Result<String, AllocError>
    ensures { IfOk result (λ text. string_bytes text ≡ bad_column_text line column) }
{
    format!(in alloc; "bad script: line {line}, column {column}")
}

/// The text of a line whose event is refused, without a line feed.
#[tactic(auto, unfolding(crate::specs::Refusals::bad_event_text))]
pub fn bad_event(alloc: Global, line: u32, fault: &BadEvent) -> Result<String, AllocError>
    ensures { IfOk result (λ text. string_bytes text ≡ bad_event_text line fault.now) }
{
    let refusal = refusal_text(alloc, fault)?;
    format!(in alloc; "bad script: line {line}: {refusal}")
}

#[tactic(auto, unfolding(crate::specs::Refusals::refusal_text))]
fn refusal_text(alloc: Global, fault: &BadEvent) -> Result<String, AllocError>
    ensures { IfOk result (λ text. string_bytes text ≡ refusal_text fault.now) }
{
    match fault {
        BadEvent::NotRunning { node } => format!(in alloc; "not running {node}"),
        BadEvent::Running { node } => format!(in alloc; "running {node}"),
        BadEvent::NotStarted { node, inc } => format!(in alloc; "not started {node}.{inc}"),
        BadEvent::UnknownView { view } => format!(in alloc; "unknown view {view}"),
        BadEvent::UnknownMessage { number } => format!(in alloc; "unknown message {number}"),
        BadEvent::UnknownConnection { conn } => format!(in alloc; "unknown connection {conn}"),
        BadEvent::UsedConnection { conn } => format!(in alloc; "used connection {conn}"),
        BadEvent::Chain(fault) => chain_text(alloc, fault),
    }
}

#[tactic(auto, unfolding(crate::specs::Refusals::chain_text))]
fn chain_text(alloc: Global, fault: &ChainFault) -> Result<String, AllocError>
    ensures { IfOk result (λ text. string_bytes text ≡ chain_text fault.now) }
{
    match fault {
        ChainFault::NotNext => String::from_str(alloc, "view not next"),
        ChainFault::Empty => String::from_str(alloc, "view empty"),
        ChainFault::Returned { node, inc } => format!(in alloc; "returned {node}.{inc}"),
        ChainFault::Memory => String::from_str(alloc, "no memory"),
    }
}
