//! A call: its parameters are read, it is planned, and what was planned is done, but for an update.

ghost use Rattle.std.specs.Prelude.{◌≡◌, ◌+◌, ◌<◌, ◌≤◌, IfOk, IsTrue, Ok, option_map};
ghost use Rattle.registry_defs.specs.Contents.{keys_in};
ghost use Rattle.clusapi_stubs.specs.Inputs.{size_fits};
ghost use Rattle.clusapi_stubs.specs.Parameters.{input_in};
ghost use Rattle.clusapi_methods.specs.Calls.{TextLacksZero};
ghost use Rattle.clusapi_methods.specs.Finishing.{CanFollow};
ghost use Rattle.registry_server.specs.Calls.{PlansShort};
ghost use Rattle.registry_server.specs.Parameters.{IsFaultOf, IsRead, IsSized, or_status};
ghost use Rattle.client_connections.specs.Items.{GivesNoHandle, HasEncoding, HasShortResults, IsSendable, called, called_with, most_taken, performed};

use crate::took::CallEnd;
use clus_registry::Registry;
use clusapi_methods::{Planned, closed, fault_status, opened, plan};
use clusapi_stubs::{In, InFault, read_in};
use context_handles::Handles;
use rpc_calls::Call;
use std::alloc::{AllocError, Global};

/// Makes a call of a connection in this group. There is a registry where the node is open.
pub(crate) fn call(
    alloc: Global,
    handles: &mut Handles,
    group: u32,
    registry: Option<&Registry>,
    call: &Call,
) -> Result<CallEnd, AllocError>
    requires room { handles.old.serials < most_taken }
    ensures end { IfOk result (λ end. (end, handles.new) ≡ called (option_map (λ kept. keys_in kept.now) registry.entry) handles.old group call.now) }
    ensures encoding { IfOk result HasEncoding }
    ensures short { IfOk result HasShortResults }
    ensures sendable { IfOk result IsSendable }
    ensures room { handles.new.serials ≤ handles.old.serials + 1 }
    ensures sends { IfOk result (λ end. GivesNoHandle end handles.old.serials handles.new.serials) }
{
    match input(alloc, call)? {
        Err(status) => Ok(CallEnd::Fault(status)),
        Ok(input) => planned(alloc, handles, group, registry, &input),
    }
}

#[tactic(auto, using(registry_server::proofs::ParameterLaws::plans_short))]
fn planned(
    alloc: Global,
    handles: &mut Handles,
    group: u32,
    registry: Option<&Registry>,
    input: &In,
) -> Result<CallEnd, AllocError>
    requires room { handles.old.serials < most_taken }
    requires text { TextLacksZero input.now }
    requires size { IsTrue (size_fits input.now) }
    ensures end { IfOk result (λ end. (end, handles.new) ≡ called_with (option_map (λ kept. keys_in kept.now) registry.entry) handles.old group (Ok input.now)) }
    ensures encoding { IfOk result HasEncoding }
    ensures short { IfOk result HasShortResults }
    ensures sendable { IfOk result IsSendable }
    ensures room { handles.new.serials ≤ handles.old.serials + 1 }
    ensures sends { IfOk result (λ end. GivesNoHandle end handles.old.serials handles.new.serials) }
{
    let planned = plan(alloc, input, handles, group, registry)?;
    perform(handles, group, planned)
}

fn perform(handles: &mut Handles, group: u32, planned: Planned) -> Result<CallEnd, AllocError>
    requires room { handles.old.serials < most_taken }
    requires follows { CanFollow planned }
    requires short { PlansShort planned }
    ensures end { IfOk result (λ end. (end, handles.new) ≡ performed handles.old group planned) }
    ensures encoding { IfOk result HasEncoding }
    ensures short { IfOk result HasShortResults }
    ensures sendable { IfOk result IsSendable }
    ensures room { handles.new.serials ≤ handles.old.serials + 1 }
    ensures sends { IfOk result (λ end. GivesNoHandle end handles.old.serials handles.new.serials) }
{
    match planned {
        Planned::Answer { out, reads } => Ok(CallEnd::Results { out, reads }),
        Planned::Open { opnum, held, reads } => {
            let handle = handles.open(group, held)?;
            Ok(CallEnd::Results {
                out: opened(opnum, handle),
                reads,
            })
        }
        Planned::Close { opnum, handle } => {
            handles.close(group, &handle);
            Ok(CallEnd::Results {
                out: closed(opnum),
                reads: false,
            })
        }
        Planned::Send(update) => Ok(CallEnd::Sends(update)),
        Planned::Fault(status) => Ok(CallEnd::Fault(status)),
    }
}

/// The parameters of a call, or the status of the fault where its stub doesn't give them.
fn input(alloc: Global, call: &Call) -> Result<Result<In, u32>, AllocError>
    ensures read { IfOk result (λ input. input ≡ or_status (input_in call.now.opnum call.now.endian call.now.stub)) }
    ensures text { IfOk result IsRead }
    ensures size { IfOk result IsSized }
{
    match read_in(alloc, call.opnum, call.endian, call.stub.as_slice()) {
        Ok(input) => Ok(Ok(input)),
        Err(fault) => status(&fault),
    }
}

fn status(fault: &InFault) -> Result<Result<In, u32>, AllocError>
    ensures { IfOk result (IsFaultOf fault.now) }
{
    match fault_status(fault) {
        Some(status) => Ok(Err(status)),
        None => Err(AllocError),
    }
}
