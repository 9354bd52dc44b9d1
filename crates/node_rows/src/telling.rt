//! What rows print.
ghost use Rattle.std.specs.Prelude.{IsTrue};
ghost use Rattle.gum_messages.specs.Messages.{FitsPiece};

use cluster_node::Node;
use cluster_rules::{CloseCause, Effect, HaltCause};
use gum_messages::{Body, Message, encode};
use row_words::RowFault;
use std::alloc::Global;

/// What a node tells of itself, as a line.
pub(crate) fn node_text(alloc: Global, node: &Node) -> Result<String, RowFault> {
    let number = node.number();
    let inc = node.inc();
    let stands = standing(node);
    let view = count_text(alloc, node.view_number().map(u64::from))?;
    let done = count_text(alloc, node.done())?;
    let last = count_text(alloc, node.last_record().map(|record| record.place))?;
    let size = count_text(
        alloc,
        node.registry().map(|registry| u64::from(registry.size())),
    )?;
    Ok(format!(in alloc;
        "node {number} inc {inc} view {view} {stands} done {done} last {last} size {size}\n"
    )?)
}

fn standing(node: &Node) -> &'static str {
    if node.is_stopped() {
        "stopped"
    } else if node.is_open() {
        "open"
    } else {
        "closed"
    }
}

fn count_text(alloc: Global, count: Option<u64>) -> Result<String, RowFault> {
    match count {
        Some(count) => Ok(format!(in alloc; "{count}")?),
        None => Ok(String::from_str(alloc, "none")?),
    }
}

/// A line for each effect.
pub(crate) fn effects_text(alloc: Global, effects: &[Effect]) -> Result<String, RowFault> {
    let mut text = String::new(alloc);
    for effect in effects {
        text.push_str(&line_of(alloc, effect)?)?;
    }
    Ok(text)
}

fn line_of(alloc: Global, effect: &Effect) -> Result<String, RowFault> {
    match effect {
        Effect::Send(message) => message_line(alloc, message),
        Effect::Opened { view } => Ok(format!(in alloc; "opened {view}\n")?),
        Effect::Acked { view, place } => Ok(format!(in alloc; "acked {view} {place}\n")?),
        Effect::Reply { conn, point, bytes } => {
            let point = point_text(alloc, *point)?;
            let bytes = hex::encode(alloc, bytes.as_slice())?;
            Ok(format!(in alloc; "reply {conn}{point} {bytes}\n")?)
        }
        Effect::Batched {
            req,
            point,
            status,
            index,
        } => {
            let point = point_text(alloc, *point)?;
            Ok(format!(in alloc; "batched {req} {status} {index}{point}\n")?)
        }
        Effect::Closed { conn, cause } => closed_line(alloc, *conn, *cause),
        Effect::Halted(cause) => halted_line(alloc, *cause),
    }
}

fn point_text(alloc: Global, point: Option<u64>) -> Result<String, RowFault> {
    match point {
        Some(point) => Ok(format!(in alloc; " point {point}")?),
        None => Ok(String::new(alloc)),
    }
}

fn message_line(alloc: Global, message: &Message) -> Result<String, RowFault> {
    if !fits(message) {
        return Err(RowFault::Bad);
    }
    let kind = kind_text(&message.body);
    let to = message.to;
    let bytes = hex::encode(alloc, &encode(alloc, message)?)?;
    Ok(format!(in alloc; "send {kind} {to} {bytes}\n")?)
}

/// Whether the length of a piece has an encoding.
fn fits(message: &Message) -> bool
    ensures { IsTrue result → FitsPiece message.now.body }
{
    match &message.body {
        Body::Piece { bytes, .. } => bytes.as_slice().len() <= 65_535,
        _ => true,
    }
}

fn kind_text(body: &Body) -> &'static str {
    match body {
        Body::Ask { .. } => "ask",
        Body::Granted { .. } => "granted",
        Body::Apply { .. } => "apply",
        Body::Applied { .. } => "applied",
        Body::Release { .. } => "release",
        Body::Offer { .. } => "offer",
        Body::Need { .. } => "need",
        Body::Piece { .. } => "piece",
        Body::Ready => "ready",
        Body::OpenView => "openview",
    }
}

fn closed_line(alloc: Global, conn: u32, cause: CloseCause) -> Result<String, RowFault> {
    let word = match cause {
        CloseCause::Pdu { place } => return Ok(format!(in alloc; "closed {conn} Pdu {place}\n")?),
        CloseCause::Peer => "Peer",
        CloseCause::Interleaved => "Interleaved",
        CloseCause::StubTooLong => "StubTooLong",
        CloseCause::Backlog => "Backlog",
        CloseCause::Verifier => "Verifier",
        CloseCause::NodeStopped => "NodeStopped",
        CloseCause::Limit => "Limit",
    };
    Ok(format!(in alloc; "closed {conn} {word}\n")?)
}

fn halted_line(alloc: Global, cause: HaltCause) -> Result<String, RowFault> {
    match cause {
        HaltCause::Disk => Ok(String::from_str(alloc, "halted Disk\n")?),
        HaltCause::Fenced { held } => Ok(format!(in alloc; "halted Fenced {held}\n")?),
        HaltCause::Image { place } => Ok(format!(in alloc; "halted Image {place}\n")?),
    }
}
