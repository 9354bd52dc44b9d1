ghost use Rattle.std.specs.Prelude.{◌≡◌, ◌+◌, ◌<◌, ◌≤◌, ◌^◌, length, take, IfOk};
ghost use Rattle.wire_fields.specs.Reading.{after, bytes_at};
ghost use Rattle.update_records.specs.Checked.{whole};
ghost use Rattle.update_records.specs.Grammar.{record_of, update_of};
ghost use Rattle.update_records.specs.Outcomes.{Takes, Ends};
ghost use Rattle.update_records.specs.Outcomes as inner;
ghost use Rattle.gum_messages.specs.Faults.{Decodes, IsInReach, shifted};
ghost use Rattle.gum_messages.specs.Grammar.{applied_at, apply_at, ask_at, body_at, granted_at, head_at, last_at, message_at, message_of, need_at, offer_at, part_at, piece_at, release_at, rest_at, sent_of, update_body_at, view_body_at};
ghost use Rattle.gum_messages.specs.Messages.{FitsPiece, IsMessage, Sent};
ghost use Rattle.gum_messages.specs.Spelling.{message_text};

use crate::body::Body;
use crate::fault::MessageFault;
use crate::head::Head;
use crate::message::Message;
use std::alloc::Global;
use update_records::{
    Record, RecordFault, Update, decode_update, u8_between, u16_between, u32_between, u32_field,
    u64_between, u64_field,
};
use wire_fields::{Endian, Fields, Octets};

const NO_END: usize = usize::MAX;

const LAST_PLACE: u64 = 9_223_372_036_854_775_807;

const LEAST_CAP: u32 = 4_096;

const MOST_CAP: u32 = 16_777_216;

const MOST_RECORD_BYTES: u32 = 57_344;

/// The message that the bytes encode, all of the bytes.
pub fn decode(alloc: Global, bytes: &[u8]) -> Result<Message, MessageFault>
    // What is read is a message, and is encoded so.
    ensures found { IfOk result (λ message. IsMessage message × (bytes.now ≡ message_text message)) }
    // So it can be encoded again.
    ensures fits { IfOk result (λ message. FitsPiece message.body) }
    // What is encoded so is read, unless memory runs out.
    ensures only { (message : Sent) → IsMessage message → bytes.now ≡ message_text message → Decodes result (Ok message) }
    // Which field is at fault.
    ensures fault { Decodes result (message_of bytes.now) }
{
    read(alloc, bytes)
}

fn read(alloc: Global, bytes: &[u8]) -> Result<Message, MessageFault>
    ensures { Decodes result (message_of bytes.now) }
{
    Ok(read_message(alloc, bytes)?)
}

#[tactic(auto, unfolding(crate::specs::Grammar::message_of))]
fn read_message(alloc: Global, bytes: &[u8]) -> Result<Message, RecordFault>
    ensures { inner.Decodes result (message_of bytes.now) }
{
    let mut fields = Fields::new(bytes, Endian::Little);
    let (head, body) = message(alloc, &mut fields)?;
    ends(&fields)?;
    Ok(Message {
        view: head.view,
        from: head.from,
        to: head.to,
        body,
    })
}

#[tactic(auto, unfolding(crate::specs::Grammar::message_at))]
fn message(alloc: Global, fields: &mut Fields<'_>) -> Result<(Head, Body), RecordFault>
    ensures { Takes (λ message. sent_of message.0 message.1) result (message_at fields.old) fields.new }
{
    let head = head(fields)?;
    let body = body(alloc, fields, head.kind)?;
    Ok((head, body))
}

#[tactic(auto, unfolding(crate::specs::Grammar::head_at))]
fn head(fields: &mut Fields<'_>) -> Result<Head, RecordFault>
    ensures { Takes (λ head. head) result (head_at fields.old) fields.new }
{
    let kind = u8_between(fields, 1, 10, NO_END)?;
    let view = u32_between(fields, 1, u32::MAX, NO_END)?;
    let from = u16_between(fields, 1, 16, NO_END)?;
    let to = u16_between(fields, 1, 16, NO_END)?;
    Ok(Head {
        kind,
        view,
        from,
        to,
    })
}

fn body(alloc: Global, fields: &mut Fields<'_>, kind: u8) -> Result<Body, RecordFault>
    ensures { Takes (λ body. body) result (body_at kind fields.old) fields.new }
{
    if 5 < kind {
        return view_body(alloc, fields, kind);
    }
    update_body(alloc, fields, kind)
}

/// The messages of Global Update.
#[tactic(auto, unfolding(crate::specs::Grammar::update_body_at))]
fn update_body(alloc: Global, fields: &mut Fields<'_>, kind: u8) -> Result<Body, RecordFault>
    ensures { Takes (λ body. body) result (update_body_at kind fields.old) fields.new }
{
    match kind {
        1 => ask(alloc, fields),
        2 => granted(alloc, fields),
        3 => apply(alloc, fields),
        4 => applied(fields),
        _ => release(fields),
    }
}

/// The messages by which members join a view.
#[tactic(auto, unfolding(crate::specs::Grammar::view_body_at))]
fn view_body(alloc: Global, fields: &mut Fields<'_>, kind: u8) -> Result<Body, RecordFault>
    ensures { Takes (λ body. body) result (view_body_at kind fields.old) fields.new }
{
    match kind {
        6 => offer(alloc, fields),
        7 => need(fields),
        8 => piece(alloc, fields),
        9 => Ok(Body::Ready),
        _ => Ok(Body::OpenView),
    }
}

#[tactic(auto, unfolding(crate::specs::Grammar::ask_at))]
fn ask(alloc: Global, fields: &mut Fields<'_>) -> Result<Body, RecordFault>
    ensures { Takes (λ body. body) result (ask_at fields.old) fields.new }
{
    let req = u64_field(fields, NO_END)?;
    let update = update(alloc, fields)?;
    Ok(Body::Ask { req, update })
}

#[tactic(auto, unfolding(crate::specs::Grammar::granted_at))]
fn granted(alloc: Global, fields: &mut Fields<'_>) -> Result<Body, RecordFault>
    ensures { Takes (λ body. body) result (granted_at fields.old) fields.new }
{
    let count = fields.left();
    let entry = record(alloc, fields, count)?;
    Ok(Body::Granted { entry })
}

#[tactic(auto, unfolding(crate::specs::Grammar::apply_at))]
fn apply(alloc: Global, fields: &mut Fields<'_>) -> Result<Body, RecordFault>
    ensures { Takes (λ body. body) result (apply_at fields.old) fields.new }
{
    let count = fields.left();
    let entry = record(alloc, fields, count)?;
    Ok(Body::Apply { entry })
}

#[tactic(auto, unfolding(crate::specs::Grammar::applied_at))]
fn applied(fields: &mut Fields<'_>) -> Result<Body, RecordFault>
    ensures { Takes (λ body. body) result (applied_at fields.old) fields.new }
{
    let place = u64_field(fields, NO_END)?;
    Ok(Body::Applied { place })
}

#[tactic(auto, unfolding(crate::specs::Grammar::release_at))]
fn release(fields: &mut Fields<'_>) -> Result<Body, RecordFault>
    ensures { Takes (λ body. body) result (release_at fields.old) fields.new }
{
    let req = u64_field(fields, NO_END)?;
    Ok(Body::Release { req })
}

#[tactic(auto, unfolding(crate::specs::Grammar::offer_at))]
fn offer(alloc: Global, fields: &mut Fields<'_>) -> Result<Body, RecordFault>
    ensures { Takes (λ body. body) result (offer_at fields.old) fields.new }
{
    let count = u64_between(fields, 0, LAST_PLACE, NO_END)?;
    let cap = u32_between(fields, LEAST_CAP, MOST_CAP, NO_END)?;
    let bytes = u32_between(fields, 0, MOST_RECORD_BYTES, NO_END)?;
    let last = last(alloc, fields, bytes as usize)?;
    Ok(Body::Offer { count, cap, last })
}

/// The last record of an Offer, where it has one. A message that ends before the record's stated length is at fault
/// where the record is, or else at its own end.
#[tactic(auto, unfolding(crate::specs::Grammar::last_at))]
fn last(alloc: Global, fields: &mut Fields<'_>, count: usize) -> Result<Option<Record>, RecordFault>
    ensures { Takes (λ last. last) result (last_at count fields.old) fields.new }
{
    if count == 0 {
        return Ok(None);
    }
    let left = fields.left();
    if left < count {
        record(alloc, fields, left)?;
        return Err(RecordFault::Bad {
            place: fields.place(),
        });
    }
    let entry = record(alloc, fields, count)?;
    Ok(Some(entry))
}

#[tactic(auto, unfolding(crate::specs::Grammar::need_at))]
fn need(fields: &mut Fields<'_>) -> Result<Body, RecordFault>
    ensures { Takes (λ body. body) result (need_at fields.old) fields.new }
{
    let offset = u32_field(fields, NO_END)?;
    Ok(Body::Need { offset })
}

#[tactic(auto, unfolding(crate::specs::Grammar::piece_at))]
fn piece(alloc: Global, fields: &mut Fields<'_>) -> Result<Body, RecordFault>
    ensures { Takes (λ body. body) result (piece_at fields.old) fields.new }
{
    let total = u32_field(fields, NO_END)?;
    let offset = u32_field(fields, NO_END)?;
    let count = u32_field(fields, NO_END)?;
    let bytes = octets(alloc, fields, count as usize)?;
    Ok(Body::Piece {
        total,
        offset,
        bytes,
    })
}

fn octets(alloc: Global, fields: &mut Fields<'_>, count: usize) -> Result<Octets, RecordFault>
    ensures { Takes (λ bytes. bytes) result (whole fields.old.place (bytes_at count fields.old)) fields.new }
{
    let place = fields.place();
    match fields.take(count) {
        Ok(bytes) => Ok(Octets::new(bytes.to_vec(alloc)?)),
        Err(_) => Err(RecordFault::Bad { place }),
    }
}

/// The record that the next bytes are by themselves.
fn record(alloc: Global, fields: &mut Fields<'_>, count: usize) -> Result<Record, RecordFault>
    requires { count ≤ length fields.old.left }
    ensures { Takes (λ entry. entry) result (part_at record_of count fields.old) fields.new }
{
    let (start, bytes) = part(fields, count);
    match update_records::decode(alloc, bytes) {
        Ok(entry) => Ok(entry),
        Err(fault) => Err(shifted(fault, start)),
    }
}

/// The update that all bytes left are by themselves.
fn update(alloc: Global, fields: &mut Fields<'_>) -> Result<Update, RecordFault>
    ensures { Takes (λ update. update) result (rest_at update_of fields.old) fields.new }
{
    let count = fields.left();
    let (start, bytes) = part(fields, count);
    match decode_update(alloc, bytes) {
        Ok(update) => Ok(update),
        Err(fault) => Err(shifted(fault, start)),
    }
}

/// The next bytes, and the place where they start.
fn part<'a>(fields: &mut Fields<'a>, count: usize) -> (usize, &'a [u8])
    requires { count ≤ length fields.old.left }
    ensures start { result.0 ≡ fields.old.place }
    ensures bytes { result.1.now ≡ take count fields.old.left }
    ensures behind { fields.new ≡ after count fields.old }
    ensures room { result.0 + length result.1.now < 2 ^ 64 }
{
    let Ok(bytes) = fields.take(count) else {
        unreachable!()
    };
    (fields.place() - bytes.len(), bytes)
}

/// The fault of a part, counted from the first byte of the message.
fn shifted(fault: RecordFault, start: usize) -> RecordFault
    requires { IsInReach start fault }
    ensures { result ≡ shifted start fault }
{
    match fault {
        RecordFault::Bad { place } => RecordFault::Bad {
            place: start + place,
        },
        RecordFault::Memory => RecordFault::Memory,
    }
}

/// Bytes behind the message are at fault at the first of them.
fn ends(fields: &Fields<'_>) -> Result<(), RecordFault>
    ensures { Ends result fields.now }
{
    if fields.left() != 0 {
        return Err(RecordFault::Bad {
            place: fields.place(),
        });
    }
    Ok(())
}
