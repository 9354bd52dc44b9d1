//! A PDU as a fragment's bytes.

ghost use Rattle.std.specs.Prelude.{◌≡◌, ◌+◌, ◌<◌, ◌≤◌, ◌++◌, All, IfOk, IfSome, OnOk, length, replicate};
ghost use Rattle.std.specs.List.{AllByRecursion, flat_map};
ghost use Rattle.wire_fields.specs.declared.endian.Endian.TheVariants.{Little};
ghost use Rattle.wire_fields.specs.Written.{Adds};
ghost use Rattle.rpc_pdu.specs.Encoding.{CanSpell, CountsFit, BodyInRange, HeadInRange, ProposalInRange, SyntaxInRange, VerdictInRange, VersionInRange, bind_ack_text, bind_nak_text, bind_text, body_text, fault_text, frame_text, in_little, object_text, proposal_text, request_text, response_text, spelling, syntax_text, verdict_text, version_text};
ghost use Rattle.rpc_pdu.specs.Grammar.{IsPdu};
ghost use Rattle.rpc_pdu.specs.Reading.{padding_behind};
ghost use Rattle.rpc_pdu.specs.Writing.{Appends};

use crate::bodies::padding;
use crate::head::Head;
use crate::header::{HEADER_LENGTH, LITTLE_ENDIAN_MARK, VERSION};
use crate::pdu::Pdu;
use crate::pdu_type::PduType;
use crate::proposal::Proposal;
use crate::syntax::Syntax;
use crate::verdict::Verdict;
use std::alloc::{AllocError, Global};
use uuid::Uuid;
use wire_fields::{Endian, Put};

/// The canonical encoding of a PDU, in little-endian order whatever its head says.
#[tactic(auto, unfolding(crate::specs::Encoding::spelling))]
pub fn encode(alloc: Global, pdu: &Pdu) -> Result<Vec<u8>, AllocError>
    requires { CanSpell pdu.now }
    ensures canonical { IfOk result (λ bytes. bytes.items ≡ spelling pdu.now) }
    // So `decode` gives the PDU back, in little-endian order.
    ensures reads_back { IfOk result (λ bytes. IsPdu bytes.items (in_little pdu.now)) }
{
    let body = body(alloc, pdu)?;
    frame(alloc, pdu.pdu_type(), &pdu.head(), &body)
}

#[tactic(auto, unfolding(crate::specs::Encoding::frame_text))]
fn frame(alloc: Global, kind: PduType, head: &Head, body: &[u8]) -> Result<Vec<u8>, AllocError>
    requires { 16 + length body.now ≤ 65535 }
    ensures text { IfOk result (λ bytes. bytes.items ≡ frame_text kind head.now body.now) }
    ensures range { OnOk result (HeadInRange head.now) }
{
    let mut put = Put::new(alloc, Endian::Little);
    let front = [
        VERSION,
        head.minor,
        kind.number(),
        head.flags,
        LITTLE_ENDIAN_MARK,
        0,
        0,
        0,
    ];
    put.bytes(&front)?;
    put.u16((HEADER_LENGTH + body.len()) as u16)?;
    put.u16(0)?;
    put.u32(head.call_id)?;
    put.bytes(body)?;
    Ok(put.into_bytes())
}

fn body(alloc: Global, pdu: &Pdu) -> Result<Vec<u8>, AllocError>
    requires { CountsFit pdu.now }
    ensures text { IfOk result (λ bytes. bytes.items ≡ body_text pdu.now) }
    ensures range { OnOk result (BodyInRange pdu.now) }
{
    match pdu {
        Pdu::Request {
            head: _,
            alloc_hint,
            context,
            opnum,
            object,
            stub,
        } => {
            request(
                alloc,
                *alloc_hint,
                *context,
                *opnum,
                object,
                stub.as_slice(),
            )
        }
        Pdu::Response {
            head: _,
            alloc_hint,
            context,
            cancels,
            stub,
        } => { response(alloc, *alloc_hint, *context, *cancels, stub.as_slice()) }
        Pdu::Fault {
            head: _,
            alloc_hint,
            context,
            cancels,
            status,
        } => { fault(alloc, *alloc_hint, *context, *cancels, *status) }
        Pdu::Bind {
            head: _,
            max_xmit,
            max_recv,
            group,
            proposals,
        }
        | Pdu::AlterContext {
            head: _,
            max_xmit,
            max_recv,
            group,
            proposals,
        } => { bind(alloc, *max_xmit, *max_recv, *group, proposals.as_slice()) }
        Pdu::BindAck {
            head: _,
            max_xmit,
            max_recv,
            group,
            address,
            verdicts,
        }
        | Pdu::AlterContextResp {
            head: _,
            max_xmit,
            max_recv,
            group,
            address,
            verdicts,
        } => {
            bind_ack(
                alloc,
                *max_xmit,
                *max_recv,
                *group,
                address.as_slice(),
                verdicts.as_slice(),
            )
        }
        Pdu::BindNak {
            head: _,
            reason,
            versions,
        } => bind_nak(alloc, *reason, versions.as_slice()),
        Pdu::Shutdown { .. } | Pdu::CoCancel { .. } | Pdu::Orphaned { .. } => Ok(Vec::new(alloc)),
    }
}

#[tactic(auto, unfolding(crate::specs::Encoding::request_text))]
fn request(
    alloc: Global,
    alloc_hint: u32,
    context: u16,
    opnum: u16,
    object: &Option<Uuid>,
    stub: &[u8],
) -> Result<Vec<u8>, AllocError>
    ensures text { IfOk result (λ bytes. bytes.items ≡ request_text alloc_hint context opnum object.now stub.now) }
    ensures range { OnOk result (IfSome object.now (λ id. length id ≡ 16)) }
{
    let mut put = Put::new(alloc, Endian::Little);
    put.u32(alloc_hint)?;
    put.u16(context)?;
    put.u16(opnum)?;
    put_object(&mut put, object)?;
    put.bytes(stub)?;
    Ok(put.into_bytes())
}

fn put_object(put: &mut Put, object: &Option<Uuid>) -> Result<(), AllocError>
    requires { put.old.endian ≡ Little }
    ensures text { Adds result put.old put.new (object_text object.now) }
    ensures range { IfSome object.now (λ id. length id ≡ 16) }
{
    match object {
        None => put.bytes(&[]),
        Some(id) => {
            whole(id.as_bytes());
            put.uuid(id)
        }
    }
}

#[tactic(auto, unfolding(crate::specs::Encoding::response_text))]
fn response(
    alloc: Global,
    alloc_hint: u32,
    context: u16,
    cancels: u8,
    stub: &[u8],
) -> Result<Vec<u8>, AllocError>
    ensures { IfOk result (λ bytes. bytes.items ≡ response_text alloc_hint context cancels stub.now) }
{
    let mut put = Put::new(alloc, Endian::Little);
    put.u32(alloc_hint)?;
    put.u16(context)?;
    put.u8(cancels)?;
    put.bytes(&[0])?;
    put.bytes(stub)?;
    Ok(put.into_bytes())
}

#[tactic(auto, unfolding(crate::specs::Encoding::fault_text))]
fn fault(
    alloc: Global,
    alloc_hint: u32,
    context: u16,
    cancels: u8,
    status: u32,
) -> Result<Vec<u8>, AllocError>
    ensures { IfOk result (λ bytes. bytes.items ≡ fault_text alloc_hint context cancels status) }
{
    let mut put = Put::new(alloc, Endian::Little);
    put.u32(alloc_hint)?;
    put.u16(context)?;
    put.u8(cancels)?;
    put.bytes(&[0])?;
    put.u32(status)?;
    put.bytes(&[0, 0, 0, 0])?;
    Ok(put.into_bytes())
}

#[tactic(auto, unfolding(crate::specs::Encoding::bind_text))]
fn bind(
    alloc: Global,
    max_xmit: u16,
    max_recv: u16,
    group: u32,
    proposals: &[Proposal],
) -> Result<Vec<u8>, AllocError>
    requires count { length proposals.now < 256 }
    requires transfers { AllByRecursion (λ p. length p.transfers < 256) proposals.now }
    ensures text { IfOk result (λ bytes. bytes.items ≡ bind_text max_xmit max_recv group proposals.now) }
    ensures range { OnOk result (AllByRecursion ProposalInRange proposals.now) }
{
    let mut put = Put::new(alloc, Endian::Little);
    put.u16(max_xmit)?;
    put.u16(max_recv)?;
    put.u32(group)?;
    put.u8(proposals.len() as u8)?;
    put.bytes(&[0, 0, 0])?;
    put_proposals(&mut put, proposals)?;
    Ok(put.into_bytes())
}

#[tactic(auto, unfolding(crate::specs::Encoding::bind_ack_text))]
fn bind_ack(
    alloc: Global,
    max_xmit: u16,
    max_recv: u16,
    group: u32,
    address: &[u8],
    verdicts: &[Verdict],
) -> Result<Vec<u8>, AllocError>
    requires address { length address.now < 65536 }
    requires count { length verdicts.now < 256 }
    ensures text { IfOk result (λ bytes. bytes.items ≡ bind_ack_text max_xmit max_recv group address.now verdicts.now) }
    ensures range { OnOk result (AllByRecursion VerdictInRange verdicts.now) }
{
    let mut put = Put::new(alloc, Endian::Little);
    put.u16(max_xmit)?;
    put.u16(max_recv)?;
    put.u32(group)?;
    put.u16(address.len() as u16)?;
    put.bytes(address)?;
    put_padding(&mut put, address.len() as u16)?;
    put.u8(verdicts.len() as u8)?;
    put.bytes(&[0, 0, 0])?;
    put_verdicts(&mut put, verdicts)?;
    Ok(put.into_bytes())
}

fn put_padding(put: &mut Put, size: u16) -> Result<(), AllocError>
    ensures { Adds result put.old put.new (replicate (padding_behind size) 0) }
{
    let zeros = [0; 4];
    put.bytes(&zeros[..padding(size)])
}

#[tactic(auto, unfolding(crate::specs::Encoding::bind_nak_text))]
fn bind_nak(alloc: Global, reason: u16, versions: &[(u8, u8)]) -> Result<Vec<u8>, AllocError>
    requires { length versions.now < 256 }
    ensures text { IfOk result (λ bytes. bytes.items ≡ bind_nak_text reason versions.now) }
    ensures range { OnOk result (AllByRecursion VersionInRange versions.now) }
{
    let mut put = Put::new(alloc, Endian::Little);
    put.u16(reason)?;
    put.u8(versions.len() as u8)?;
    put_versions(&mut put, versions)?;
    Ok(put.into_bytes())
}

fn put_proposals(put: &mut Put, proposals: &[Proposal]) -> Result<(), AllocError>
    requires endian { put.old.endian ≡ Little }
    requires transfers { AllByRecursion (λ p. length p.transfers < 256) proposals.now }
    ensures text { Appends result put.old put.new (flat_map proposal_text proposals.now) }
    ensures range { OnOk result (AllByRecursion ProposalInRange proposals.now) }
{
    for proposal in proposals {
        put_proposal(put, proposal)?;
    }
    Ok(())
}

#[tactic(auto, unfolding(crate::specs::Encoding::proposal_text))]
fn put_proposal(put: &mut Put, proposal: &Proposal) -> Result<(), AllocError>
    requires endian { put.old.endian ≡ Little }
    requires count { length proposal.now.transfers < 256 }
    ensures text { Appends result put.old put.new (proposal_text proposal.now) }
    ensures range { OnOk result (ProposalInRange proposal.now) }
{
    let transfers = proposal.transfers.as_slice();
    put.u16(proposal.id)?;
    put.u8(transfers.len() as u8)?;
    put.bytes(&[0])?;
    put_syntax(put, &proposal.abstract_syntax)?;
    put_syntaxes(put, transfers)
}

fn put_syntaxes(put: &mut Put, syntaxes: &[Syntax]) -> Result<(), AllocError>
    requires { put.old.endian ≡ Little }
    ensures text { Appends result put.old put.new (flat_map syntax_text syntaxes.now) }
    ensures range { OnOk result (AllByRecursion SyntaxInRange syntaxes.now) }
{
    for syntax in syntaxes {
        put_syntax(put, syntax)?;
    }
    Ok(())
}

#[tactic(auto, unfolding(crate::specs::Encoding::syntax_text))]
fn put_syntax(put: &mut Put, syntax: &Syntax) -> Result<(), AllocError>
    requires { put.old.endian ≡ Little }
    ensures text { Appends result put.old put.new (syntax_text syntax.now) }
    ensures range { OnOk result (SyntaxInRange syntax.now) }
{
    whole(syntax.id.as_bytes());
    put.uuid(&syntax.id)?;
    put.u32(syntax.version)
}

/// The bytes of an identifier are as many as it has, which a clause can't say of its type.
fn whole(bytes: &[u8; 16])
    ensures { length bytes.now ≡ 16 }
{}

fn put_verdicts(put: &mut Put, verdicts: &[Verdict]) -> Result<(), AllocError>
    requires { put.old.endian ≡ Little }
    ensures text { Appends result put.old put.new (flat_map verdict_text verdicts.now) }
    ensures range { OnOk result (AllByRecursion VerdictInRange verdicts.now) }
{
    for verdict in verdicts {
        put_verdict(put, verdict)?;
    }
    Ok(())
}

#[tactic(auto, unfolding(crate::specs::Encoding::verdict_text))]
fn put_verdict(put: &mut Put, verdict: &Verdict) -> Result<(), AllocError>
    requires { put.old.endian ≡ Little }
    ensures text { Appends result put.old put.new (verdict_text verdict.now) }
    ensures range { OnOk result (VerdictInRange verdict.now) }
{
    put.u16(verdict.result)?;
    put.u16(verdict.reason)?;
    put_syntax(put, &verdict.syntax)
}

fn put_versions(put: &mut Put, versions: &[(u8, u8)]) -> Result<(), AllocError>
    requires { put.old.endian ≡ Little }
    ensures text { Appends result put.old put.new (flat_map version_text versions.now) }
    ensures range { OnOk result (AllByRecursion VersionInRange versions.now) }
{
    for version in versions {
        put_version(put, version)?;
    }
    Ok(())
}

#[tactic(auto, unfolding(crate::specs::Encoding::version_text))]
fn put_version(put: &mut Put, version: &(u8, u8)) -> Result<(), AllocError>
    requires { put.old.endian ≡ Little }
    ensures text { Appends result put.old put.new (version_text version.now) }
    ensures range { OnOk result (VersionInRange version.now) }
{
    put.u8(version.0)?;
    put.u8(version.1)
}
