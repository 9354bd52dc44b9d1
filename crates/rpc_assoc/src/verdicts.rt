//! The answer to each context that a client proposes.

ghost use Rattle.std.specs.Prelude.{◌≡◌, map, filter, IfOk};
ghost use Rattle.std.specs.List.{list_any};
ghost use Rattle.rpc_assoc.specs.Verdicts.{accepted_in, is_accepted, ndr, refusal_for, same_syntax, verdict_of};

use crate::syntaxes::{clusapi_syntax, is_same, ndr_syntax, zero_syntax};
use rpc_pdu::{Proposal, Syntax, Verdict, Verdicts};
use std::alloc::{AllocError, Global};

pub(crate) fn verdicts_on(alloc: Global, proposals: &[Proposal]) -> Result<Verdicts, AllocError>
    ensures { IfOk result (λ verdicts. verdicts ≡ map verdict_of proposals.now) }
{
    Ok(Verdicts::new(each_verdict(alloc, proposals)?))
}

fn each_verdict(alloc: Global, proposals: &[Proposal]) -> Result<Vec<Verdict>, AllocError>
    ensures { IfOk result (λ verdicts. verdicts.items ≡ map verdict_of proposals.now) }
{
    proposals
        .iter()
        .map(|proposal| verdict(proposal))
        .collect(alloc)
}

pub(crate) fn accepted_ids(alloc: Global, proposals: &[Proposal]) -> Result<Vec<u16>, AllocError>
    ensures { IfOk result (λ ids. ids.items ≡ accepted_in proposals.now) }
{
    proposals
        .iter()
        .filter(|proposal| accepts(proposal))
        .map(|proposal| proposal.id)
        .collect(alloc)
}

/// Whether the context would be accepted.
fn accepts(proposal: &Proposal) -> bool
    ensures { result ≡ is_accepted proposal.now }
{
    verdict(proposal).result == 0
}

#[tactic(auto, unfolding(crate::specs::Verdicts::verdict_of))]
fn verdict(proposal: &Proposal) -> Verdict
    ensures { result ≡ verdict_of proposal.now }
{
    if !is_same(&proposal.abstract_syntax, &clusapi_syntax()) {
        return refusal(1);
    }
    if !offers_ndr(proposal.transfers.as_slice()) {
        return refusal(2);
    }
    Verdict {
        result: 0,
        reason: 0,
        syntax: ndr_syntax(),
    }
}

/// A provider's rejection for this reason (C706, 12.6.3.1).
fn refusal(reason: u16) -> Verdict
    ensures { result ≡ refusal_for reason }
{
    Verdict {
        result: 2,
        reason,
        syntax: zero_syntax(),
    }
}

fn offers_ndr(transfers: &[Syntax]) -> bool
    ensures { result ≡ list_any (same_syntax ndr) transfers.now }
{
    let ndr = ndr_syntax();
    transfers.iter().any(|transfer| is_same(&ndr, transfer))
}
