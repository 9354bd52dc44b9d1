//! The PDUs that answer a client.

ghost use Rattle.std.specs.Prelude.{◌≡◌, IfOk};
ghost use Rattle.rpc_assoc.specs.Answers.{accepts_bind, accepts_alter, fault_on, head_of, nak};

use crate::terms::Terms;
use rpc_pdu::{Head, Pdu, Verdicts, Versions};
use std::alloc::{AllocError, Global};
use wire_fields::{Endian, Octets};

fn answer_head(call_id: u32, flags: u8) -> Head
    ensures { result ≡ head_of call_id flags }
{
    Head {
        endian: Endian::Little,
        minor: 0,
        flags,
        call_id,
    }
}

pub(crate) fn bind_nak(alloc: Global, call_id: u32, reason: u16) -> Result<Pdu, AllocError>
    ensures { IfOk result (λ reply. reply ≡ nak call_id reason) }
{
    let mut versions = Vec::new(alloc);
    versions.push((5u8, 0u8))?;
    Ok(Pdu::BindNak {
        head: answer_head(call_id, Head::ONE_FRAGMENT),
        reason,
        versions: Versions::new(versions),
    })
}

pub(crate) fn bind_ack(alloc: Global, call_id: u32, terms: Terms, verdicts: Verdicts) -> Pdu
    ensures { result ≡ accepts_bind call_id terms verdicts }
{
    Pdu::BindAck {
        head: answer_head(call_id, Head::ONE_FRAGMENT),
        max_xmit: terms.max_xmit,
        max_recv: terms.max_recv,
        group: terms.group,
        address: Octets::new(Vec::new(alloc)),
        verdicts,
    }
}

pub(crate) fn alter_context_resp(
    alloc: Global,
    call_id: u32,
    terms: Terms,
    verdicts: Verdicts,
) -> Pdu
    ensures { result ≡ accepts_alter call_id terms verdicts }
{
    Pdu::AlterContextResp {
        head: answer_head(call_id, Head::ONE_FRAGMENT),
        max_xmit: terms.max_xmit,
        max_recv: terms.max_recv,
        group: terms.group,
        address: Octets::new(Vec::new(alloc)),
        verdicts,
    }
}

/// The fault that answers a call which wasn't executed, for the reason that the status names
/// (C706, 12.6.4.7).
pub fn fault(call_id: u32, context: u16, status: u32) -> Pdu
    ensures { result ≡ fault_on call_id context status }
{
    Pdu::Fault {
        head: answer_head(call_id, Head::ONE_FRAGMENT | Head::DID_NOT_EXECUTE),
        alloc_hint: 0,
        context,
        cancels: 0,
        status,
    }
}
