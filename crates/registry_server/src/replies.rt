//! The bytes of the replies to a call.

ghost use Rattle.std.specs.Prelude.{◌≡◌, ◌-◌, ◌<◌, ◌≤◌, ◌^◌, All, IfOk, length};
ghost use Rattle.rpc_pdu.specs.Encoding.{CanSpell};
ghost use Rattle.rpc_calls.specs.Cutting.{reply_pieces};
ghost use Rattle.registry_server.specs.Answers.{text_of};
ghost use Rattle.registry_server.specs.Calls.{HasEncoding, HasShortResults};
ghost use Rattle.registry_server.specs.Replies.{replies_to};

use crate::effect::Effect;
use clusapi_stubs::write_out;
use rpc_assoc::fault;
use rpc_calls::{Call, cut_reply};
use rpc_pdu::{Pdu, encode};
use std::alloc::{AllocError, Global};

/// The replies that hand on what a call came to, none longer than `max_xmit` bytes.
pub(crate) fn reply(
    alloc: Global,
    max_xmit: u16,
    call: &Call,
    effect: &Effect,
) -> Result<Vec<u8>, AllocError>
    requires least { 1432 ≤ max_xmit }
    requires most { max_xmit ≤ 5840 }
    requires encoding { HasEncoding effect.now }
    requires short { HasShortResults effect.now }
    ensures { IfOk result (λ bytes. bytes.items ≡ text_of (replies_to max_xmit call.now effect.now)) }
{
    match effect {
        Effect::Results(out) => {
            let stub = write_out(alloc, out)?;
            cut(alloc, max_xmit, call, &stub)
        }
        Effect::Fault(status) => encode(alloc, &fault(call.call_id, call.context, *status)),
    }
}

/// The responses that hand on the results.
fn cut(alloc: Global, max_xmit: u16, call: &Call, stub: &[u8]) -> Result<Vec<u8>, AllocError>
    requires least { 1432 ≤ max_xmit }
    requires most { max_xmit ≤ 5840 }
    requires size { length stub.now < 2 ^ 32 }
    ensures { IfOk result (λ bytes. bytes.items ≡ text_of (reply_pieces call.now.call_id call.now.context (max_xmit - 24) stub.now)) }
{
    let pieces = cut_reply(alloc, call.call_id, call.context, max_xmit, stub)?;
    encode_all(alloc, &pieces)
}

fn encode_all(alloc: Global, pdus: &[Pdu]) -> Result<Vec<u8>, AllocError>
    requires { All CanSpell pdus.now }
    ensures { IfOk result (λ bytes. bytes.items ≡ text_of pdus.now) }
{
    let mut bytes = Vec::new(alloc);
    for pdu in pdus {
        bytes.extend_from_slice(&encode(alloc, pdu)?)?;
    }
    Ok(bytes)
}
