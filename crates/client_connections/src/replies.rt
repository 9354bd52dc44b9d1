//! The bytes of replies.

ghost use Rattle.std.specs.Prelude.{◌≡◌, ◌∷◌, [], ◌-◌, ◌<◌, ◌≤◌, ◌^◌, All, IfOk, length};
ghost use Rattle.rpc_pdu.specs.Encoding.{CanSpell};
ghost use Rattle.rpc_calls.specs.Cutting.{reply_pieces};
ghost use Rattle.clusapi_stubs.specs.Outputs as outputs;
ghost use Rattle.clusapi_methods.specs.Sizes.{IsShort};
ghost use Rattle.registry_server.specs.Answers.{text_of};
ghost use Rattle.client_connections.specs.Items.{fault_text, results_text};

use clusapi_stubs::{Out, write_out};
use rpc_assoc::fault;
use rpc_calls::cut_reply;
use rpc_pdu::{Pdu, encode};
use std::alloc::{AllocError, Global};
use wire_fields::Octets;

/// The replies that hand results on, none longer than `max_xmit` bytes.
pub(crate) fn results_text(
    alloc: Global,
    max_xmit: u16,
    call_id: u32,
    context: u16,
    out: &Out,
) -> Result<Octets, AllocError>
    requires least { 1432 ≤ max_xmit }
    requires most { max_xmit ≤ 5840 }
    requires encoding { outputs.CanSpell out.now }
    requires short { IsShort out.now }
    ensures { IfOk result (λ bytes. bytes ≡ results_text max_xmit call_id context out.now) }
{
    let stub = write_out(alloc, out)?;
    cut(alloc, max_xmit, call_id, context, &stub)
}

/// The responses that hand a stub on.
fn cut(
    alloc: Global,
    max_xmit: u16,
    call_id: u32,
    context: u16,
    stub: &[u8],
) -> Result<Octets, AllocError>
    requires least { 1432 ≤ max_xmit }
    requires most { max_xmit ≤ 5840 }
    requires size { length stub.now < 2 ^ 32 }
    ensures { IfOk result (λ bytes. bytes ≡ text_of (reply_pieces call_id context (max_xmit - 24) stub.now)) }
{
    let pieces = cut_reply(alloc, call_id, context, max_xmit, stub)?;
    encode_all(alloc, &pieces)
}

fn encode_all(alloc: Global, pdus: &[Pdu]) -> Result<Octets, AllocError>
    requires { All CanSpell pdus.now }
    ensures { IfOk result (λ bytes. bytes ≡ text_of pdus.now) }
{
    let mut bytes = Vec::new(alloc);
    for pdu in pdus {
        bytes.extend_from_slice(&encode(alloc, pdu)?)?;
    }
    Ok(Octets::new(bytes))
}

/// The reply to a call that isn't executed.
pub(crate) fn fault_text(
    alloc: Global,
    call_id: u32,
    context: u16,
    status: u32,
) -> Result<Octets, AllocError>
    ensures { IfOk result (λ bytes. bytes ≡ fault_text call_id context status) }
{
    encoded(alloc, &fault(call_id, context, status))
}

/// The bytes of one PDU.
pub(crate) fn encoded(alloc: Global, reply: &Pdu) -> Result<Octets, AllocError>
    requires { CanSpell reply.now }
    ensures { IfOk result (λ bytes. bytes ≡ text_of (reply.now ∷ [])) }
{
    Ok(Octets::new(encode(alloc, reply)?))
}
