//! The end of a call that updates the registry.

ghost use Rattle.std.specs.Prelude.{◌≡◌, IfOk};
ghost use Rattle.update_records.specs.Validity.{IsValid};
ghost use Rattle.clusapi_stubs.specs.Outputs.{CanSpell};
ghost use Rattle.clusapi_methods.specs.Finishing.{IsFinishable, closed_as, created, finished, finished_as, opened_as, opened_by};
ghost use Rattle.clusapi_methods.specs.Sizes.{IsShort};

use crate::arguments::joined;
use crate::refusals::null_handle;
use clus_registry::Outcome;
use clusapi_stubs::{In, Out};
use context_handles::{Held, Kind};
use ndr_values::WireHandle;
use std::alloc::{AllocError, Global};
use update_records::Update;

/// What a handle is to be opened on, once the update came to this outcome: the key of a Create that was made.
pub fn opened_by(
    alloc: Global,
    update: &Update,
    outcome: &Outcome,
) -> Result<Option<Held>, AllocError>
    requires { IsValid update.now }
    ensures { IfOk result (λ held. held ≡ opened_by update.now outcome.now) }
{
    match update {
        Update::Create { key, subkey, .. } if outcome.status == 0 => Ok(Some(Held {
            kind: Kind::Key,
            path: joined(alloc, key, subkey)?,
            birth: outcome.birth,
        })),
        _ => Ok(None),
    }
}

/// The results of a call that updates, from the outcome of its update. Where it created a key, the handle was opened on
/// what [`opened_by`] gives. No memory.
pub fn finish(input: &In, outcome: &Outcome, handle: Option<WireHandle>) -> Out
    requires { IsFinishable input.now outcome.now handle }
    ensures results { result ≡ finished input.now outcome.now handle }
    ensures encoding { CanSpell result }
    ensures short { IsShort result }
{
    match input {
        In::CreateKey { .. } => finished(29, outcome, handle),
        In::SetValue { .. } => finished(32, outcome, handle),
        In::DeleteValue { .. } => finished(33, outcome, handle),
        // No other call updates.
        _ => finished(35, outcome, handle),
    }
}

/// The same for a method that updates, by its operation number.
pub fn finished(opnum: u16, outcome: &Outcome, handle: Option<WireHandle>) -> Out
    ensures results { result ≡ finished_as opnum outcome.now handle }
    ensures encoding { CanSpell result }
    ensures short { IsShort result }
{
    let status = outcome.status;
    match opnum {
        29 => created(outcome, handle),
        32 => Out::SetValue {
            rpc_status: 0,
            status,
        },
        33 => Out::DeleteValue {
            rpc_status: 0,
            status,
        },
        _ => Out::DeleteKey {
            rpc_status: 0,
            status,
        },
    }
}

fn created(outcome: &Outcome, handle: Option<WireHandle>) -> Out
    ensures results { result ≡ created outcome.now handle }
    ensures encoding { CanSpell result }
    ensures short { IsShort result }
{
    match handle {
        Some(handle) => Out::CreateKey {
            disposition: outcome.disposition,
            status: 0,
            rpc_status: 0,
            handle,
        },
        None => Out::CreateKey {
            disposition: 0,
            status: outcome.status,
            rpc_status: 0,
            handle: null_handle(),
        },
    }
}

/// The results of a call that opened a handle, by its operation number.
pub fn opened(opnum: u16, handle: WireHandle) -> Out
    ensures results { result ≡ opened_as opnum handle }
    ensures encoding { CanSpell result }
    ensures short { IsShort result }
{
    match opnum {
        0 => Out::OpenCluster { status: 0, handle },
        28 => Out::GetRootKey {
            status: 0,
            rpc_status: 0,
            handle,
        },
        _ => Out::OpenKey {
            status: 0,
            rpc_status: 0,
            handle,
        },
    }
}

/// The results of a call that closed its handle, by its operation number.
pub fn closed(opnum: u16) -> Out
    ensures results { result ≡ closed_as opnum }
    ensures encoding { CanSpell result }
    ensures short { IsShort result }
{
    let handle = null_handle();
    match opnum {
        1 => Out::CloseCluster { handle, status: 0 },
        _ => Out::CloseKey { handle, status: 0 },
    }
}
