use crate::call::Call;
use rpc_pdu::Pdu;

/// What stands in a stream.
#[derive(Debug, Drop)]
pub enum Item {
    /// A call, where its last fragment stands.
    Call(Call),
    /// A PDU that isn't a fragment of a call.
    Single(Pdu),
    /// A bind that is no PDU, but that is answered all the same: by a bind_nak with this reason.
    BadBind { call_id: u32, reason: u16 },
}
