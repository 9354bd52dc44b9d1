//! The line of each told value.

ghost use Rattle.std.specs.Prelude.{◌≡◌, ◌∷◌, [], IfOk, string_bytes};
ghost use Rattle.std.specs.Fmt.{decimal};
ghost use Rattle.cluster_worlds.specs.declared.told.Told.TheVariants as trace;
ghost use Rattle.script_text.specs.Lines.{rest_of_line};
ghost use Rattle.script_text.specs.Prints.{close_words, fields_of, halt_words, kind_of, prints};

use crate::words::{hex_word, number_or_dash};
use cluster_rules::{CloseCause, HaltCause};
use cluster_worlds::Told;
use gum_messages::{Body, Message};
use std::alloc::{AllocError, Global};

/// The line that is printed of what a world tells, with its line feed.
pub fn print_effect(alloc: Global, told: &Told) -> Result<Vec<u8>, AllocError>
    ensures { IfOk result (λ line. line.items ≡ prints told.now) }
{
    Ok(line_of(alloc, told)?.into_bytes())
}

fn line_of(alloc: Global, told: &Told) -> Result<String, AllocError>
    ensures { IfOk result (λ line. string_bytes line ≡ prints told.now) }
{
    match told {
        Told::Order { place, spelling } => order_line(alloc, *place, spelling.as_slice()),
        Told::Sent { number, message } => sent_line(alloc, *number, message),
        Told::Reply { conn, point, bytes } => reply_line(alloc, *conn, *point, bytes.as_slice()),
        Told::Closed { conn, cause } => closed_line(alloc, *conn, *cause),
        Told::Acked { node, view, place } => ack_line(alloc, *node, *view, *place),
        Told::Opened { node, view } => opened_line(alloc, *node, *view),
        Told::Batched {
            node,
            req,
            point,
            status,
            index,
        } => batched_line(alloc, *node, *req, *point, *status, *index),
        Told::Halted { node, cause } => halted_line(alloc, *node, *cause),
    }
}

#[tactic(auto, unfolding(crate::specs::Prints::prints))]
fn order_line(alloc: Global, place: u64, spelling: &[u8]) -> Result<String, AllocError>
    ensures { IfOk result (λ line. string_bytes line ≡ prints (trace.Order place spelling.now)) }
{
    let spelling = hex_word(alloc, spelling)?;
    format!(in alloc; "order {place} {spelling}\n")
}

#[tactic(auto, unfolding(crate::specs::Prints::prints))]
fn reply_line(
    alloc: Global,
    conn: u32,
    point: Option<u64>,
    bytes: &[u8],
) -> Result<String, AllocError>
    ensures { IfOk result (λ line. string_bytes line ≡ prints (trace.Reply conn point bytes.now)) }
{
    let point = number_or_dash(alloc, point)?;
    let bytes = hex_word(alloc, bytes)?;
    format!(in alloc; "reply {conn} {point} {bytes}\n")
}

#[tactic(auto, unfolding(crate::specs::Prints::prints))]
fn ack_line(alloc: Global, node: u16, view: u32, place: u64) -> Result<String, AllocError>
    ensures { IfOk result (λ line. string_bytes line ≡ prints (trace.Acked node view place)) }
{
    format!(in alloc; "ack {node} {view} {place}\n")
}

#[tactic(auto, unfolding(crate::specs::Prints::prints))]
fn opened_line(alloc: Global, node: u16, view: u32) -> Result<String, AllocError>
    ensures { IfOk result (λ line. string_bytes line ≡ prints (trace.Opened node view)) }
{
    format!(in alloc; "opened {node} {view}\n")
}

#[tactic(auto, unfolding(crate::specs::Prints::prints))]
fn batched_line(
    alloc: Global,
    node: u16,
    req: u64,
    point: Option<u64>,
    status: u32,
    index: u32,
) -> Result<String, AllocError>
    ensures { IfOk result (λ line. string_bytes line ≡ prints (trace.Batched node req point status index)) }
{
    let point = number_or_dash(alloc, point)?;
    format!(in alloc; "batched {node} {req} {point} {status} {index}\n")
}

#[tactic(auto, unfolding(crate::specs::Prints::prints))]
fn halted_line(alloc: Global, node: u16, cause: HaltCause) -> Result<String, AllocError>
    ensures { IfOk result (λ line. string_bytes line ≡ prints (trace.Halted node cause)) }
{
    let cause = halt_words(alloc, cause)?;
    format!(in alloc; "halt {node}{cause}")
}

#[tactic(auto, unfolding(crate::specs::Prints::halt_words))]
fn halt_words(alloc: Global, cause: HaltCause) -> Result<String, AllocError>
    ensures { IfOk result (λ words. string_bytes words ≡ rest_of_line (halt_words cause)) }
{
    match cause {
        HaltCause::Disk => String::from_str(alloc, " disk\n"),
        HaltCause::Fenced { held } => format!(in alloc; " fenced {held}\n"),
        HaltCause::Image { place } => format!(in alloc; " image {place}\n"),
    }
}

#[tactic(auto, unfolding(crate::specs::Prints::prints))]
fn closed_line(alloc: Global, conn: u32, cause: CloseCause) -> Result<String, AllocError>
    ensures { IfOk result (λ line. string_bytes line ≡ prints (trace.Closed conn cause)) }
{
    let cause = close_words(alloc, cause)?;
    format!(in alloc; "closed {conn}{cause}")
}

#[tactic(auto, unfolding(crate::specs::Prints::close_words))]
fn close_words(alloc: Global, cause: CloseCause) -> Result<String, AllocError>
    ensures { IfOk result (λ words. string_bytes words ≡ rest_of_line (close_words cause)) }
{
    match cause {
        CloseCause::Peer => String::from_str(alloc, " peer\n"),
        CloseCause::Pdu { place } => format!(in alloc; " pdu {place}\n"),
        CloseCause::Interleaved => String::from_str(alloc, " interleaved\n"),
        CloseCause::StubTooLong => String::from_str(alloc, " stub\n"),
        CloseCause::Backlog => String::from_str(alloc, " backlog\n"),
        CloseCause::Verifier => String::from_str(alloc, " verifier\n"),
        CloseCause::NodeStopped => String::from_str(alloc, " stopped\n"),
        CloseCause::Limit => String::from_str(alloc, " limit\n"),
    }
}

#[tactic(auto, unfolding(crate::specs::Prints::prints))]
fn sent_line(alloc: Global, number: u64, message: &Message) -> Result<String, AllocError>
    ensures { IfOk result (λ line. string_bytes line ≡ prints (trace.Sent number message.now)) }
{
    let Message {
        view,
        from,
        to,
        body,
    } = message;
    let kind = kind_of(body);
    let fields = fields_of(alloc, body)?;
    format!(in alloc; "send {number} {kind} {view} {from} {to}{fields}")
}

#[tactic(auto, unfolding(crate::specs::Prints::kind_of))]
fn kind_of(body: &Body) -> &'static str
    ensures { result.now ≡ kind_of body.now }
{
    match body {
        Body::Ask { .. } => "ask",
        Body::Granted { .. } => "granted",
        Body::Apply { .. } => "apply",
        Body::Applied { .. } => "applied",
        Body::Release { .. } => "release",
        Body::Offer { .. } => "offer",
        Body::Need { .. } => "need",
        Body::Piece { .. } => "piece",
        Body::Ready => "ready",
        Body::OpenView => "openview",
    }
}

#[tactic(auto, unfolding(crate::specs::Prints::fields_of))]
fn fields_of(alloc: Global, body: &Body) -> Result<String, AllocError>
    ensures { IfOk result (λ words. string_bytes words ≡ rest_of_line (fields_of body.now)) }
{
    match body {
        Body::Ask { req, .. } => field(alloc, *req),
        Body::Granted { entry } => two_fields(alloc, entry.id.req, entry.place),
        Body::Apply { entry } => field(alloc, entry.place),
        Body::Applied { place } => field(alloc, *place),
        Body::Release { req } => field(alloc, *req),
        Body::Offer { count, .. } => field(alloc, *count),
        Body::Need { offset } => field(alloc, u64::from(*offset)),
        Body::Piece { offset, bytes, .. } => {
            two_fields(alloc, u64::from(*offset), bytes.as_slice().len() as u64)
        }
        Body::Ready | Body::OpenView => String::from_str(alloc, "\n"),
    }
}

fn field(alloc: Global, number: u64) -> Result<String, AllocError>
    ensures { IfOk result (λ words. string_bytes words ≡ rest_of_line (decimal number ∷ [])) }
{
    format!(in alloc; " {number}\n")
}

fn two_fields(alloc: Global, first: u64, second: u64) -> Result<String, AllocError>
    ensures { IfOk result (λ words. string_bytes words ≡ rest_of_line (decimal first ∷ decimal second ∷ [])) }
{
    format!(in alloc; " {first} {second}\n")
}
