//! The bind, and the answer that is awaited to it.

ghost use Rattle.std.specs.Prelude.{◌≡◌, ◌≤◌, IfOk, IfSome};
ghost use Rattle.rpc_assoc.specs.Answers.{head_of};
ghost use Rattle.rpc_assoc.specs.Verdicts.{clusapi, ndr, same_syntax};
ghost use Rattle.client_exchange.specs.Requests.{bind, bind_text};
ghost use Rattle.client_exchange.specs.Replies.{accepted_by, accepted_size, are_ndr, is_ndr};
ghost use Rattle.client_exchange.specs.Stages.{greatest, least};

use rpc_calls::Item;
use rpc_pdu::{Head, Pdu, Proposal, Proposals, Syntax, Syntaxes, Verdict, encode};
use std::alloc::{AllocError, Global};
use uuid::Uuid;
use wire_fields::Endian;

/// The longest fragment that is sent or taken, as long as nothing else is agreed on.
pub(crate) const GREATEST: u16 = 5840;
/// The longest fragment that each side must take at least (C706 12.6.3.6).
const LEAST: u16 = 1432;
/// The call id of the bind.
pub(crate) const BIND_ID: u32 = 1;

/// The bind, which begins a client's connection, as bytes.
#[tactic(auto, unfolding(crate::specs::Requests::bind_text))]
pub fn bind_text(alloc: Global) -> Result<Vec<u8>, AllocError>
    ensures { IfOk result (λ bytes. bytes.items ≡ bind_text) }
{
    encode(alloc, &bind(alloc)?)
}

fn bind(alloc: Global) -> Result<Pdu, AllocError>
    ensures { IfOk result (λ pdu. pdu ≡ bind) }
{
    let mut transfers = Vec::new(alloc);
    transfers.push(ndr())?;
    let mut proposals = Vec::new(alloc);
    proposals.push(Proposal {
        id: 0,
        abstract_syntax: clusapi(),
        transfers: Syntaxes::new(transfers),
    })?;
    Ok(Pdu::Bind {
        head: Head {
            endian: Endian::Little,
            minor: 0,
            flags: Head::ONE_FRAGMENT,
            call_id: BIND_ID,
        },
        max_xmit: GREATEST,
        max_recv: GREATEST,
        group: 0,
        proposals: Proposals::new(proposals),
    })
}

/// b97db8b2-4c63-11cf-bff6-08002be23f2f, version 3.0 ([MS-CMRP] 1.9).
#[tactic(auto, unfolding(rpc_assoc::specs::Verdicts::clusapi))]
fn clusapi() -> Syntax
    ensures { result ≡ clusapi }
{
    Syntax {
        id: Uuid::from_bytes([
            0xb9, 0x7d, 0xb8, 0xb2, 0x4c, 0x63, 0x11, 0xcf, 0xbf, 0xf6, 0x08, 0x00, 0x2b, 0xe2,
            0x3f, 0x2f,
        ]),
        version: 3,
    }
}

/// 8a885d04-1ceb-11c9-9fe8-08002b104860, version 2.0 (C706, 14.2).
#[tactic(auto, unfolding(rpc_assoc::specs::Verdicts::ndr))]
fn ndr() -> Syntax
    ensures { result ≡ ndr }
{
    Syntax {
        id: Uuid::from_bytes([
            0x8a, 0x88, 0x5d, 0x04, 0x1c, 0xeb, 0x11, 0xc9, 0x9f, 0xe8, 0x08, 0x00, 0x2b, 0x10,
            0x48, 0x60,
        ]),
        version: 2,
    }
}

/// The longest fragment that is sent from now on, where the item accepts the bind.
pub(crate) fn accepted_size(item: &Item) -> Option<u16>
    ensures size { result ≡ accepted_size item.now }
    ensures least { IfSome result (λ size. least ≤ size) }
    ensures most { IfSome result (λ size. size ≤ greatest) }
{
    match item {
        Item::Single(pdu) => accepted_by(pdu),
        Item::Call(_) | Item::BadBind { .. } => None,
    }
}

fn accepted_by(pdu: &Pdu) -> Option<u16>
    ensures size { result ≡ accepted_by pdu.now }
    ensures least { IfSome result (λ size. least ≤ size) }
    ensures most { IfSome result (λ size. size ≤ greatest) }
{
    let Pdu::BindAck {
        head,
        max_xmit,
        max_recv,
        verdicts,
        ..
    } = pdu
    else {
        return None;
    };
    if head.call_id != BIND_ID || *max_xmit < LEAST || *max_recv < LEAST {
        return None;
    }
    if !are_ndr(verdicts.as_slice()) {
        return None;
    }
    Some((*max_recv).min(GREATEST))
}

/// Whether the one context is accepted, in the one transfer syntax.
fn are_ndr(verdicts: &[Verdict]) -> bool
    ensures { result ≡ are_ndr verdicts.now }
{
    match verdicts {
        [verdict] => is_ndr(verdict),
        _ => false,
    }
}

fn is_ndr(verdict: &Verdict) -> bool
    ensures { result ≡ is_ndr verdict.now }
{
    verdict.result == 0 && verdict.reason == 0 && is_same(&verdict.syntax, &ndr())
}

#[tactic(auto, unfolding(rpc_assoc::specs::Verdicts::same_syntax))]
fn is_same(a: &Syntax, b: &Syntax) -> bool
    ensures { result ≡ same_syntax a.now b.now }
{
    a.id.as_bytes() == b.id.as_bytes() && a.version == b.version
}
