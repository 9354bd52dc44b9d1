ghost use Rattle.std.specs.Prelude.{◌≡◌, ◌<◌, ◌^◌, IfOk, OnOk};
ghost use Rattle.wire_fields.specs.declared.endian.Endian.TheVariants.{Little};
ghost use Rattle.update_records.specs.Entry.{IsId, IsRecord, record_text};
ghost use Rattle.update_records.specs.Outcomes.{Appends};
ghost use Rattle.update_records.specs.Validity.{IsValid};
ghost use Rattle.gum_messages.specs.declared.body.Body.TheVariants as body;
ghost use Rattle.gum_messages.specs.Messages.{FitsPiece, HasIds, HasLastId, IsBody, IsKept, IsLast, IsMessage, IsNumbered};
ghost use Rattle.gum_messages.specs.Spelling.{body_text, head_text, kind_of, last_text, message_text};

use crate::body::Body;
use crate::message::Message;
use std::alloc::{AllocError, Global};
use update_records::{Record, Update, encode_update};
use wire_fields::{Endian, Octets, Put};

/// The one encoding of the message.
pub fn encode(alloc: Global, message: &Message) -> Result<Vec<u8>, AllocError>
    requires { FitsPiece message.now.body }
    ensures written { IfOk result (λ bytes. bytes.items ≡ message_text message.now) }
    // So its decoding gives the message again, where its numbers are those of nodes and a view.
    ensures limits { OnOk result (IsNumbered message.now → IsMessage message.now) }
{
    let mut put = Put::new(alloc, Endian::Little);
    put_head(&mut put, message)?;
    put_body(&mut put, alloc, &message.body)?;
    Ok(put.into_bytes())
}

#[tactic(auto, unfolding(crate::specs::Spelling::head_text))]
fn put_head(put: &mut Put, message: &Message) -> Result<(), AllocError>
    requires { put.old.endian ≡ Little }
    ensures written { Appends result put.old put.new (head_text (kind_of message.now.body) message.now.view message.now.from message.now.to) }
    ensures kept { IsKept message.now.body }
    ensures view { message.now.view < 2 ^ 32 }
{
    let view = message.view;
    put.u8(kind_of(&message.body))?;
    put.u32(view)?;
    put.u16(message.from)?;
    put.u16(message.to)
}

fn kind_of(body: &Body) -> u8
    ensures { result ≡ kind_of body.now }
{
    match body {
        Body::Ask { .. } => 1,
        Body::Granted { .. } => 2,
        Body::Apply { .. } => 3,
        Body::Applied { .. } => 4,
        Body::Release { .. } => 5,
        Body::Offer { .. } => 6,
        Body::Need { .. } => 7,
        Body::Piece { .. } => 8,
        Body::Ready => 9,
        Body::OpenView => 10,
    }
}

fn put_body(put: &mut Put, alloc: Global, body: &Body) -> Result<(), AllocError>
    requires order { put.old.endian ≡ Little }
    requires kept { IsKept body.now }
    requires fits { FitsPiece body.now }
    ensures written { Appends result put.old put.new (body_text body.now) }
    ensures limits { OnOk result (HasIds body.now → IsBody body.now) }
{
    match body {
        Body::Ask { req, update } => put_ask(put, alloc, *req, update),
        Body::Granted { entry } => put_granted(put, alloc, entry),
        Body::Apply { entry } => put_apply(put, alloc, entry),
        Body::Applied { place } => put_applied(put, *place),
        Body::Release { req } => put_release(put, *req),
        Body::Offer { count, cap, last } => put_offer(put, alloc, *count, *cap, last),
        Body::Need { offset } => put_need(put, *offset),
        Body::Piece {
            total,
            offset,
            bytes,
        } => put_piece(put, *total, *offset, bytes),
        Body::Ready | Body::OpenView => Ok(()),
    }
}

#[tactic(auto, unfolding(crate::specs::Spelling::body_text))]
fn put_ask(put: &mut Put, alloc: Global, req: u64, update: &Update) -> Result<(), AllocError>
    requires order { put.old.endian ≡ Little }
    requires valid { IsValid update.now }
    ensures written { Appends result put.old put.new (body_text (body.Ask req update.now)) }
    ensures limits { OnOk result (IsBody (body.Ask req update.now)) }
{
    let text = encode_update(alloc, update)?;
    put.u64(req)?;
    put.bytes(&text)
}

fn put_record(put: &mut Put, alloc: Global, entry: &Record) -> Result<(), AllocError>
    requires order { put.old.endian ≡ Little }
    ensures written { Appends result put.old put.new (record_text entry.now) }
    ensures limits { OnOk result (IsId entry.now.id → IsRecord entry.now) }
{
    let text = update_records::encode(alloc, entry)?;
    put.bytes(&text)
}

#[tactic(auto, unfolding(crate::specs::Spelling::body_text))]
fn put_granted(put: &mut Put, alloc: Global, entry: &Record) -> Result<(), AllocError>
    requires order { put.old.endian ≡ Little }
    ensures written { Appends result put.old put.new (body_text (body.Granted entry.now)) }
    ensures limits { OnOk result (IsId entry.now.id → IsBody (body.Granted entry.now)) }
{
    put_record(put, alloc, entry)
}

#[tactic(auto, unfolding(crate::specs::Spelling::body_text))]
fn put_apply(put: &mut Put, alloc: Global, entry: &Record) -> Result<(), AllocError>
    requires order { put.old.endian ≡ Little }
    ensures written { Appends result put.old put.new (body_text (body.Apply entry.now)) }
    ensures limits { OnOk result (IsId entry.now.id → IsBody (body.Apply entry.now)) }
{
    put_record(put, alloc, entry)
}

#[tactic(auto, unfolding(crate::specs::Spelling::body_text))]
fn put_applied(put: &mut Put, place: u64) -> Result<(), AllocError>
    requires { put.old.endian ≡ Little }
    ensures written { Appends result put.old put.new (body_text (body.Applied place)) }
    ensures limits { IsBody (body.Applied place) }
{
    put.u64(place)
}

#[tactic(auto, unfolding(crate::specs::Spelling::body_text))]
fn put_release(put: &mut Put, req: u64) -> Result<(), AllocError>
    requires { put.old.endian ≡ Little }
    ensures written { Appends result put.old put.new (body_text (body.Release req)) }
    ensures limits { IsBody (body.Release req) }
{
    put.u64(req)
}

fn put_last(put: &mut Put, alloc: Global, last: &Option<Record>) -> Result<(), AllocError>
    requires { put.old.endian ≡ Little }
    ensures written { Appends result put.old put.new (last_text last.now) }
    ensures limits { OnOk result (HasLastId last.now → IsLast last.now) }
{
    match last {
        None => put.u32(0),
        Some(entry) => {
            let text = update_records::encode(alloc, entry)?;
            put.u32(text.len() as u32)?;
            put.bytes(&text)
        }
    }
}

#[tactic(auto, unfolding(crate::specs::Spelling::body_text))]
fn put_offer(
    put: &mut Put,
    alloc: Global,
    count: u64,
    cap: u32,
    last: &Option<Record>,
) -> Result<(), AllocError>
    requires order { put.old.endian ≡ Little }
    requires kept { IsKept (body.Offer count cap last.now) }
    ensures written { Appends result put.old put.new (body_text (body.Offer count cap last.now)) }
    ensures limits { OnOk result (HasLastId last.now → IsBody (body.Offer count cap last.now)) }
{
    put.u64(count)?;
    put.u32(cap)?;
    put_last(put, alloc, last)
}

#[tactic(auto, unfolding(crate::specs::Spelling::body_text))]
fn put_need(put: &mut Put, offset: u32) -> Result<(), AllocError>
    requires { put.old.endian ≡ Little }
    ensures written { Appends result put.old put.new (body_text (body.Need offset)) }
    ensures limits { IsBody (body.Need offset) }
{
    put.u32(offset)
}

#[tactic(auto, unfolding(crate::specs::Spelling::body_text))]
fn put_piece(put: &mut Put, total: u32, offset: u32, bytes: &Octets) -> Result<(), AllocError>
    requires order { put.old.endian ≡ Little }
    requires fits { FitsPiece (body.Piece total offset bytes.now) }
    ensures written { Appends result put.old put.new (body_text (body.Piece total offset bytes.now)) }
    ensures limits { IsBody (body.Piece total offset bytes.now) }
{
    let bytes = bytes.as_slice();
    put.u32(total)?;
    put.u32(offset)?;
    put.u32(bytes.len() as u32)?;
    put.bytes(bytes)
}
