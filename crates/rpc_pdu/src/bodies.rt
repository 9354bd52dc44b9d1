//! Bodies of PDUs, read behind the header (C706 12.6.4).

ghost use Rattle.std.specs.Prelude.{◌≡◌, ◌<◌};
ghost use Rattle.wire_fields.specs.Reading.{Gives, times};
ghost use Rattle.rpc_pdu.specs.Reading.{Reads, Takes, bind_ack_at, bind_at, bind_nak_at, body_at, fault_at, object_at, padding_behind, proposal_at, request_at, response_at, rest_at, syntax_at, verdict_at, version_at};

use crate::head::Head;
use crate::pdu::Pdu;
use crate::pdu_fault::PduFault;
use crate::pdu_type::PduType;
use crate::proposal::Proposal;
use crate::proposals::Proposals;
use crate::syntax::Syntax;
use crate::syntaxes::Syntaxes;
use crate::verdict::Verdict;
use crate::verdicts::Verdicts;
use crate::versions::Versions;
use std::alloc::Global;
use uuid::Uuid;
use wire_fields::{Fields, Octets, Short};

/// The body that bind and alter_context have.
#[derive(Drop)]
pub(crate) struct BindBody {
    max_xmit: u16,
    max_recv: u16,
    group: u32,
    proposals: Proposals,
}

impl BindBody {
    fn into_bind(self, head: Head) -> Pdu
        ensures { result ≡ Pdu.Bind head self.max_xmit self.max_recv self.group self.proposals }
    {
        let BindBody {
            max_xmit,
            max_recv,
            group,
            proposals,
        } = self;
        Pdu::Bind {
            head,
            max_xmit,
            max_recv,
            group,
            proposals,
        }
    }

    fn into_alter_context(self, head: Head) -> Pdu
        ensures { result ≡ Pdu.AlterContext head self.max_xmit self.max_recv self.group self.proposals }
    {
        let BindBody {
            max_xmit,
            max_recv,
            group,
            proposals,
        } = self;
        Pdu::AlterContext {
            head,
            max_xmit,
            max_recv,
            group,
            proposals,
        }
    }
}

/// The body that bind_ack and alter_context_resp have.
#[derive(Drop)]
pub(crate) struct BindAckBody {
    max_xmit: u16,
    max_recv: u16,
    group: u32,
    address: Octets,
    verdicts: Verdicts,
}

impl BindAckBody {
    fn into_bind_ack(self, head: Head) -> Pdu
        ensures { result ≡ Pdu.BindAck head self.max_xmit self.max_recv self.group self.address self.verdicts }
    {
        let BindAckBody {
            max_xmit,
            max_recv,
            group,
            address,
            verdicts,
        } = self;
        Pdu::BindAck {
            head,
            max_xmit,
            max_recv,
            group,
            address,
            verdicts,
        }
    }

    fn into_alter_context_resp(self, head: Head) -> Pdu
        ensures { result ≡ Pdu.AlterContextResp head self.max_xmit self.max_recv self.group self.address self.verdicts }
    {
        let BindAckBody {
            max_xmit,
            max_recv,
            group,
            address,
            verdicts,
        } = self;
        Pdu::AlterContextResp {
            head,
            max_xmit,
            max_recv,
            group,
            address,
            verdicts,
        }
    }
}

/// A PDU of this type and head, whose body are all of the fields.
#[tactic(auto, unfolding(crate::specs::Reading::body_at))]
pub(crate) fn body(
    alloc: Global,
    kind: PduType,
    head: Head,
    fields: &mut Fields<'_>,
) -> Result<Pdu, PduFault>
    ensures { Reads result (body_at kind head fields.old) }
{
    match kind {
        PduType::Request => request(alloc, head, fields),
        PduType::Response => response(alloc, head, fields),
        PduType::Fault => fault(head, fields),
        PduType::Bind => Ok(bind(alloc, fields)?.into_bind(head)),
        PduType::BindAck => Ok(bind_ack(alloc, fields)?.into_bind_ack(head)),
        PduType::BindNak => bind_nak(alloc, head, fields),
        PduType::AlterContext => Ok(bind(alloc, fields)?.into_alter_context(head)),
        PduType::AlterContextResp => Ok(bind_ack(alloc, fields)?.into_alter_context_resp(head)),
        PduType::Shutdown if fields.left() == 0 => Ok(Pdu::Shutdown { head }),
        PduType::CoCancel if fields.left() == 0 => Ok(Pdu::CoCancel { head }),
        PduType::Orphaned if fields.left() == 0 => Ok(Pdu::Orphaned { head }),
        PduType::Shutdown | PduType::CoCancel | PduType::Orphaned => Err(PduFault::BadLength),
    }
}

#[tactic(auto, unfolding(crate::specs::Reading::request_at))]
fn request(alloc: Global, head: Head, fields: &mut Fields<'_>) -> Result<Pdu, PduFault>
    ensures { Reads result (request_at head fields.old) }
{
    let alloc_hint = fields.u32()?;
    let context = fields.u16()?;
    let opnum = fields.u16()?;
    let object = object_in(&head, fields)?;
    let stub = rest(alloc, fields)?;
    Ok(Pdu::Request {
        head,
        alloc_hint,
        context,
        opnum,
        object,
        stub,
    })
}

#[tactic(auto, unfolding(crate::specs::Reading::response_at))]
fn response(alloc: Global, head: Head, fields: &mut Fields<'_>) -> Result<Pdu, PduFault>
    ensures { Reads result (response_at head fields.old) }
{
    let alloc_hint = fields.u32()?;
    let context = fields.u16()?;
    let cancels = fields.u8()?;
    fields.take(1)?;
    let stub = rest(alloc, fields)?;
    Ok(Pdu::Response {
        head,
        alloc_hint,
        context,
        cancels,
        stub,
    })
}

#[tactic(auto, unfolding(crate::specs::Reading::fault_at))]
fn fault(head: Head, fields: &mut Fields<'_>) -> Result<Pdu, PduFault>
    ensures { Reads result (fault_at head fields.old) }
{
    let alloc_hint = fields.u32()?;
    let context = fields.u16()?;
    let cancels = fields.u8()?;
    fields.take(1)?;
    let status = fields.u32()?;
    fields.take(4)?;
    Ok(Pdu::Fault {
        head,
        alloc_hint,
        context,
        cancels,
        status,
    })
}

#[tactic(auto, unfolding(crate::specs::Reading::bind_at))]
fn bind(alloc: Global, fields: &mut Fields<'_>) -> Result<BindBody, PduFault>
    ensures { Reads result (bind_at fields.old) }
{
    let max_xmit = fields.u16()?;
    let max_recv = fields.u16()?;
    let group = fields.u32()?;
    let count = fields.u8()?;
    fields.take(3)?;
    let proposals = Proposals::new(proposals_in(alloc, count, fields)?);
    if fields.left() != 0 {
        return Err(PduFault::BadLength);
    }
    Ok(BindBody {
        max_xmit,
        max_recv,
        group,
        proposals,
    })
}

#[tactic(auto, unfolding(crate::specs::Reading::bind_ack_at))]
fn bind_ack(alloc: Global, fields: &mut Fields<'_>) -> Result<BindAckBody, PduFault>
    ensures { Reads result (bind_ack_at fields.old) }
{
    let max_xmit = fields.u16()?;
    let max_recv = fields.u16()?;
    let group = fields.u32()?;
    let size = fields.u16()?;
    let address = Octets::new(Vec::from_slice(alloc, fields.take(size as usize)?)?);
    fields.take(padding(size))?;
    let count = fields.u8()?;
    fields.take(3)?;
    let verdicts = Verdicts::new(verdicts_in(alloc, count, fields)?);
    if fields.left() > 0 {
        return Err(PduFault::BadLength);
    }
    Ok(BindAckBody {
        max_xmit,
        max_recv,
        group,
        address,
        verdicts,
    })
}

#[tactic(auto, unfolding(crate::specs::Reading::bind_nak_at))]
fn bind_nak(alloc: Global, head: Head, fields: &mut Fields<'_>) -> Result<Pdu, PduFault>
    ensures { Reads result (bind_nak_at head fields.old) }
{
    let reason = fields.u16()?;
    let count = fields.u8()?;
    let versions = Versions::new(versions_in(alloc, count, fields)?);
    Ok(Pdu::BindNak {
        head,
        reason,
        versions,
    })
}

#[tactic(auto, unfolding(crate::specs::Reading::object_at))]
fn object_in(head: &Head, fields: &mut Fields<'_>) -> Result<Option<Uuid>, Short>
    ensures { Gives (λ object. object) result (object_at head.now.flags fields.old) fields.old fields.new }
{
    if !head.has(Head::OBJECT) {
        return Ok(None);
    }
    Ok(Some(fields.uuid()?))
}

#[tactic(auto, unfolding(crate::specs::Reading::rest_at))]
fn rest(alloc: Global, fields: &mut Fields<'_>) -> Result<Octets, PduFault>
    ensures { Takes (λ stub. stub) result (rest_at fields.old) fields.new }
{
    let count = fields.left();
    let stub = fields.take(count)?;
    Ok(Octets::new(Vec::from_slice(alloc, stub)?))
}

/// How many bytes lie between a secondary address of this length and what follows.
pub(crate) fn padding(size: u16) -> usize
    ensures gap { result ≡ padding_behind size }
    ensures small { result < 4 }
{
    let past = (26 + size as usize) % 4;
    if past == 0 { 0 } else { 4 - past }
}

fn proposals_in(
    alloc: Global,
    count: u8,
    fields: &mut Fields<'_>,
) -> Result<Vec<Proposal>, PduFault>
    ensures { Takes (λ items. items.items) result (times count proposal_at fields.old) fields.new }
{
    let mut items = Vec::new(alloc);
    for _ in 0..count {
        items.push(proposal(alloc, fields)?)?;
    }
    Ok(items)
}

#[tactic(auto, unfolding(crate::specs::Reading::proposal_at))]
fn proposal(alloc: Global, fields: &mut Fields<'_>) -> Result<Proposal, PduFault>
    ensures { Takes (λ proposal. proposal) result (proposal_at fields.old) fields.new }
{
    let id = fields.u16()?;
    let count = fields.u8()?;
    fields.take(1)?;
    let abstract_syntax = syntax(fields)?;
    let transfers = Syntaxes::new(syntaxes_in(alloc, count, fields)?);
    Ok(Proposal {
        id,
        abstract_syntax,
        transfers,
    })
}

fn syntaxes_in(alloc: Global, count: u8, fields: &mut Fields<'_>) -> Result<Vec<Syntax>, PduFault>
    ensures { Takes (λ items. items.items) result (times count syntax_at fields.old) fields.new }
{
    let mut items = Vec::new(alloc);
    for _ in 0..count {
        items.push(syntax(fields)?)?;
    }
    Ok(items)
}

#[tactic(auto, unfolding(crate::specs::Reading::syntax_at))]
fn syntax(fields: &mut Fields<'_>) -> Result<Syntax, PduFault>
    ensures { Takes (λ syntax. syntax) result (syntax_at fields.old) fields.new }
{
    let id = fields.uuid()?;
    let version = fields.u32()?;
    Ok(Syntax { id, version })
}

fn verdicts_in(alloc: Global, count: u8, fields: &mut Fields<'_>) -> Result<Vec<Verdict>, PduFault>
    ensures { Takes (λ items. items.items) result (times count verdict_at fields.old) fields.new }
{
    let mut items = Vec::new(alloc);
    for _ in 0..count {
        items.push(verdict(fields)?)?;
    }
    Ok(items)
}

#[tactic(auto, unfolding(crate::specs::Reading::verdict_at))]
fn verdict(fields: &mut Fields<'_>) -> Result<Verdict, PduFault>
    ensures { Takes (λ verdict. verdict) result (verdict_at fields.old) fields.new }
{
    let result = fields.u16()?;
    let reason = fields.u16()?;
    let syntax = syntax(fields)?;
    Ok(Verdict {
        result,
        reason,
        syntax,
    })
}

fn versions_in(alloc: Global, count: u8, fields: &mut Fields<'_>) -> Result<Vec<(u8, u8)>, PduFault>
    ensures { Takes (λ items. items.items) result (times count version_at fields.old) fields.new }
{
    let mut items = Vec::new(alloc);
    for _ in 0..count {
        items.push(version(fields)?)?;
    }
    Ok(items)
}

#[tactic(auto, unfolding(crate::specs::Reading::version_at))]
fn version(fields: &mut Fields<'_>) -> Result<(u8, u8), PduFault>
    ensures { Takes (λ version. version) result (version_at fields.old) fields.new }
{
    let major = fields.u8()?;
    let minor = fields.u8()?;
    Ok((major, minor))
}
