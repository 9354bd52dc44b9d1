//! A fragment's bytes as a PDU.

ghost use Rattle.std.specs.Prelude.{IfErr, IfOk, Ok};
ghost use Rattle.rpc_pdu.specs.declared.pdu.Pdu.{Pdu};
ghost use Rattle.rpc_pdu.specs.Encoding.{CountsFit};
ghost use Rattle.rpc_pdu.specs.Grammar.{IsPdu, MayFail};
ghost use Rattle.rpc_pdu.specs.Reading.{Decodes, pdu_at};

use crate::bodies::body;
use crate::header::{HEADER_LENGTH, header};
use crate::pdu::Pdu;
use crate::pdu_fault::PduFault;
use std::alloc::Global;
use wire_fields::Fields;

/// The PDU that the bytes of one whole fragment spell. Where they spell none, the first check that
/// they fail names the fault: those of the header in their order, then the length of the body.
pub fn decode(alloc: Global, bytes: &[u8]) -> Result<Pdu, PduFault>
    ensures found { IfOk result (λ pdu. IsPdu bytes.now pdu) }
    ensures counts { IfOk result CountsFit }
    // No other PDU is read from these bytes, and it is read unless memory runs out.
    ensures only { (pdu : Pdu) → IsPdu bytes.now pdu → Decodes result (Ok pdu) }
    ensures fault { IfErr result (λ fault. MayFail bytes.now fault) }
{
    read(alloc, bytes)
}

#[tactic(auto, unfolding(crate::specs::Reading::pdu_at))]
fn read(alloc: Global, bytes: &[u8]) -> Result<Pdu, PduFault>
    ensures { Decodes result (pdu_at bytes.now) }
{
    let (kind, head) = header(bytes)?;
    let mut fields = Fields::new(&bytes[HEADER_LENGTH..], head.endian);
    body(alloc, kind, head, &mut fields)
}
