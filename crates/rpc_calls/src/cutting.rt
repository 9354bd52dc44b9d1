//! A stub as fragments that its receiver takes.

ghost use Rattle.std.specs.Prelude.{◌≡◌, ◌+◌, ◌<◌, ◌≤◌, ◌^◌, ◌-◌, All, IfOk, length};
ghost use Rattle.wire_fields.specs.declared.endian.Endian.TheVariants.{Little};
ghost use Rattle.rpc_pdu.specs.Encoding.{CanSpell};
ghost use Rattle.rpc_calls.specs.Cutting.{cut_by, piece_of};

use crate::sent::Sent;
use rpc_pdu::{Head, Pdu};
use std::alloc::{AllocError, Global};
use wire_fields::{Endian, Octets};

/// How many bytes of a fragment aren't stub.
const FRONT_LENGTH: usize = 24;
/// Each fragment but the last has a multiple of so many bytes of stub (C706 12.6.4.9).
const ALIGNMENT: usize = 8;

/// The fragments of a stub, none longer than `max_xmit` bytes.
pub(crate) fn cut(
    alloc: Global,
    sent: Sent,
    max_xmit: u16,
    stub: &[u8],
) -> Result<Vec<Pdu>, AllocError>
    requires least { 1432 ≤ max_xmit }
    requires greatest { max_xmit ≤ 5840 }
    requires size { length stub.now < 2 ^ 32 }
    ensures cut { IfOk result (λ pdus. pdus.items ≡ cut_by (piece_of sent) (max_xmit - 24) 1 stub.now) }
    ensures spells { IfOk result (λ pdus. All CanSpell pdus.items) }
{
    let most = max_xmit as usize - FRONT_LENGTH;
    let room = most / ALIGNMENT * ALIGNMENT;
    let mut pdus = Vec::new(alloc);
    let mut first = Head::FIRST_FRAGMENT;
    let mut place = 0;
    'pieces: while stub.len() - place > most {
        let rest = &stub[place..];
        pdus.push(fragment(alloc, sent, first, rest.len() as u32, &rest[..room])?)?;
        first = 0;
        place += room;
    }
    let rest = &stub[place..];
    let last = first + Head::LAST_FRAGMENT;
    pdus.push(fragment(alloc, sent, last, rest.len() as u32, rest)?)?;
    Ok(pdus)
}

/// One fragment.
fn fragment(
    alloc: Global,
    sent: Sent,
    flags: u8,
    alloc_hint: u32,
    stub: &[u8],
) -> Result<Pdu, AllocError>
    ensures { IfOk result (λ pdu. pdu ≡ piece_of sent flags alloc_hint stub.now) }
{
    let piece = Octets::new(stub.to_vec(alloc)?);
    Ok(match sent {
        Sent::Request {
            call_id,
            context,
            opnum,
        } => Pdu::Request {
            head: head(call_id, flags),
            alloc_hint,
            context,
            opnum,
            object: None,
            stub: piece,
        },
        Sent::Response { call_id, context } => Pdu::Response {
            head: head(call_id, flags),
            alloc_hint,
            context,
            cancels: 0,
            stub: piece,
        },
    })
}

fn head(call_id: u32, flags: u8) -> Head
    ensures { result ≡ record { endian = Little; minor = 0; flags = flags; call_id = call_id } }
{
    Head {
        endian: Endian::Little,
        minor: 0,
        flags,
        call_id,
    }
}
