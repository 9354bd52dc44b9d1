//! A call: its parameters are read, it is planned, and what was planned is done.

ghost use Rattle.std.specs.Prelude.{◌≡◌, IfOk, IsTrue, Ok};
ghost use Rattle.update_records.specs.Validity.{IsValid};
ghost use Rattle.context_handles.specs.Table.{opened};
ghost use Rattle.clusapi_stubs.specs.Inputs.{size_fits};
ghost use Rattle.clusapi_stubs.specs.Parameters.{input_in};
ghost use Rattle.clusapi_methods.specs.Calls.{TextLacksZero};
ghost use Rattle.clusapi_methods.specs.Finishing.{CanFollow, IsFor, IsUpdateOf};
ghost use Rattle.registry_server.specs.Calls.{HasEncoding, HasShortResults, PlansShort, called, called_with, next_handle, performed, updated, with_handles};
ghost use Rattle.registry_server.specs.Parameters.{IsFaultOf, IsRead, IsSized, or_status};

use crate::effect::Effect;
use crate::server::Server;
use clusapi_methods::{Planned, closed, fault_status, finish, opened, opened_by, plan};
use clusapi_stubs::{In, InFault, read_in};
use context_handles::Held;
use ndr_values::WireHandle;
use rpc_calls::Call;
use std::alloc::{AllocError, Global};
use update_records::Update;

/// How many updates are counted and how many handles are given at most.
const MOST_NUMBER: u64 = 9_223_372_036_854_775_807;

impl Server {
    /// Makes a call of a connection in this group.
    pub(crate) fn call(&mut self, group: u32, call: &Call) -> Result<Effect, AllocError>
        ensures effect { IfOk result (λ effect. (effect, self.new) ≡ called self.old group call.now) }
        ensures encoding { IfOk result HasEncoding }
        ensures short { IfOk result HasShortResults }
    {
        match input(self.alloc, call)? {
            Err(status) => Ok(Effect::Fault(status)),
            Ok(input) => self.planned(group, &input),
        }
    }

    #[tactic(auto, using(crate::proofs::ParameterLaws::plans_short))]
    fn planned(&mut self, group: u32, input: &In) -> Result<Effect, AllocError>
        requires text { TextLacksZero input.now }
        requires size { IsTrue (size_fits input.now) }
        ensures effect { IfOk result (λ effect. (effect, self.new) ≡ called_with self.old group (Ok input.now)) }
        ensures encoding { IfOk result HasEncoding }
        ensures short { IfOk result HasShortResults }
    {
        let registry = Some(&self.registry);
        let planned = plan(self.alloc, input, &self.handles, group, registry)?;
        self.perform(group, input, planned)
    }

    fn perform(&mut self, group: u32, input: &In, planned: Planned) -> Result<Effect, AllocError>
        requires follows { CanFollow planned }
        requires short { PlansShort planned }
        requires update { IsFor input.now planned }
        ensures effect { IfOk result (λ effect. (effect, self.new) ≡ performed self.old group input.now planned) }
        ensures encoding { IfOk result HasEncoding }
        ensures short { IfOk result HasShortResults }
    {
        match planned {
            Planned::Answer { out, .. } => Ok(Effect::Results(out)),
            Planned::Open { opnum, held, .. } => {
                let handle = self.open(group, held)?;
                Ok(Effect::Results(opened(opnum, handle)))
            }
            Planned::Close { opnum, handle } => {
                self.handles.close(group, &handle);
                Ok(Effect::Results(closed(opnum)))
            }
            Planned::Send(update) => self.update(group, input, &update),
            Planned::Fault(status) => Ok(Effect::Fault(status)),
        }
    }

    /// Makes the update of a call, which is counted whatever comes of it.
    fn update(&mut self, group: u32, input: &In, update: &Update) -> Result<Effect, AllocError>
        requires valid { IsValid update.now }
        requires kind { IsUpdateOf input.now update.now }
        ensures effect { IfOk result (λ effect. (effect, self.new) ≡ updated self.old group input.now update.now) }
        ensures encoding { IfOk result HasEncoding }
        ensures short { IfOk result HasShortResults }
    {
        if self.updates == MOST_NUMBER {
            return Err(AllocError);
        }
        let place = self.updates + 1;
        let outcome = self.registry.apply(place, 0, update)?;
        self.updates = place;
        let handle = match opened_by(self.alloc, update, &outcome)? {
            None => None,
            Some(held) => Some(self.open(group, held)?),
        };
        Ok(Effect::Results(finish(input, &outcome, handle)))
    }

    fn open(&mut self, group: u32, held: Held) -> Result<WireHandle, AllocError>
        ensures given { IfOk result (λ handle. handle ≡ next_handle self.old) }
        ensures opened { IfOk result (λ _. self.new ≡ with_handles self.old (opened self.old.handles group held)) }
    {
        if self.handles.serials() == MOST_NUMBER {
            return Err(AllocError);
        }
        self.handles.open(group, held)
    }
}

/// The parameters of a call, or the status of the fault where its stub doesn't give them.
fn input(alloc: Global, call: &Call) -> Result<Result<In, u32>, AllocError>
    ensures read { IfOk result (λ input. input ≡ or_status (input_in call.now.opnum call.now.endian call.now.stub)) }
    ensures text { IfOk result IsRead }
    ensures size { IfOk result IsSized }
{
    match read_in(alloc, call.opnum, call.endian, call.stub.as_slice()) {
        Ok(input) => Ok(Ok(input)),
        Err(fault) => status(&fault),
    }
}

fn status(fault: &InFault) -> Result<Result<In, u32>, AllocError>
    ensures { IfOk result (IsFaultOf fault.now) }
{
    match fault_status(fault) {
        Some(status) => Ok(Err(status)),
        None => Err(AllocError),
    }
}
