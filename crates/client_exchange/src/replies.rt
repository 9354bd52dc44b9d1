//! What an item says to a request.

ghost use Rattle.std.specs.Prelude.{◌≡◌, IfOk, IfSome};
ghost use Rattle.client_exchange.specs.Replies.{ReplyFits, fault_in, reply_in, results_in};

use clusapi_stubs::{InFault, Out, read_out};
use rpc_calls::{Call, Item};
use rpc_pdu::Pdu;
use std::alloc::{AllocError, Global};

/// The answer to a request.
#[derive(Debug, Drop)]
pub enum Reply {
    Results(Out),
    /// The call failed with this status.
    Fault(u32),
}

/// The answer that the item is to the request of this method with this call id; none where it is another item.
pub(crate) fn reply_in(
    alloc: Global,
    opnum: u16,
    call_id: u32,
    item: &Item,
) -> Result<Option<Reply>, AllocError>
    ensures reply { IfOk result (λ reply. reply ≡ reply_in opnum call_id item.now) }
    ensures fits { IfOk result (λ reply. IfSome reply ReplyFits) }
{
    match item {
        Item::Call(call) => results_in(alloc, opnum, call_id, call),
        Item::Single(pdu) => Ok(fault_in(call_id, pdu)),
        Item::BadBind { .. } => Ok(None),
    }
}

fn results_in(
    alloc: Global,
    opnum: u16,
    call_id: u32,
    call: &Call,
) -> Result<Option<Reply>, AllocError>
    ensures reply { IfOk result (λ reply. reply ≡ results_in opnum call_id call.now) }
    ensures fits { IfOk result (λ reply. IfSome reply ReplyFits) }
{
    if call.call_id != call_id {
        return Ok(None);
    }
    match read_out(alloc, opnum, call.endian, call.stub.as_slice()) {
        Ok(out) => Ok(Some(Reply::Results(out))),
        Err(InFault::Memory) => Err(AllocError),
        Err(InFault::Opnum) | Err(InFault::Ndr(_)) => Ok(None),
    }
}

fn fault_in(call_id: u32, pdu: &Pdu) -> Option<Reply>
    ensures reply { result ≡ fault_in call_id pdu.now }
    ensures fits { IfSome result ReplyFits }
{
    match pdu {
        Pdu::Fault { head, status, .. } => {
            if head.call_id != call_id {
                return None;
            }
            Some(Reply::Fault(*status))
        }
        _ => None,
    }
}
