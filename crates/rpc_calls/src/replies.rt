ghost use Rattle.std.specs.Prelude.{◌≡◌, ◌<◌, ◌≤◌, ◌^◌, ◌-◌, All, IfOk, length};
ghost use Rattle.rpc_pdu.specs.Encoding.{CanSpell};
ghost use Rattle.rpc_calls.specs.Cutting.{reply_pieces};

use crate::cutting::cut;
use crate::sent::Sent;
use rpc_pdu::Pdu;
use std::alloc::{AllocError, Global};

/// The responses that hand a call's output on, none longer than `max_xmit` bytes.
pub fn cut_reply(
    alloc: Global,
    call_id: u32,
    context: u16,
    max_xmit: u16,
    stub: &[u8],
) -> Result<Vec<Pdu>, AllocError>
    requires least { 1432 ≤ max_xmit }
    requires greatest { max_xmit ≤ 5840 }
    requires size { length stub.now < 2 ^ 32 }
    ensures cut { IfOk result (λ pdus. pdus.items ≡ reply_pieces call_id context (max_xmit - 24) stub.now) }
    ensures spells { IfOk result (λ pdus. All CanSpell pdus.items) }
{
    cut(alloc, Sent::Response { call_id, context }, max_xmit, stub)
}
