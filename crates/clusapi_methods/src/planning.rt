//! The answer of a call, or what has to be done before it can be answered.

ghost use Rattle.std.specs.Prelude.{◌≡◌, false, IfOk, Some, option_map};
ghost use Rattle.registry_defs.specs.Contents.{keys_in};
ghost use Rattle.clusapi_methods.specs.declared.planned.Planned.TheVariants.{Open};
ghost use Rattle.clusapi_methods.specs.Calls.{TextLacksZero};
ghost use Rattle.clusapi_methods.specs.Finishing.{CanFollow, IsFor};
ghost use Rattle.clusapi_methods.specs.Plans.{planned_at, planned_for, root_as};
ghost use Rattle.clusapi_methods.specs.Sizes.{FollowsBounded, IsShortFor};

use crate::handles::{find, handle_in, root_as};
use crate::planned::Planned;
use crate::{reading, updating};
use clus_registry::Registry;
use clusapi_stubs::In;
use context_handles::{Handles, Held, Kind};
use std::alloc::{AllocError, Global};

/// Neither this handle nor what it stands for is known (C706, appendix E: `nca_s_fault_context_mismatch`).
const CONTEXT_MISMATCH: u32 = 0x1C00_001A;

/// Checks a call of a connection in this group, and reads the registry for it. There is a registry where the node is open.
pub fn plan(
    alloc: Global,
    input: &In,
    handles: &Handles,
    group: u32,
    registry: Option<&Registry>,
) -> Result<Planned, AllocError>
    requires text { TextLacksZero input.now }
    ensures planned { IfOk result (λ planned. planned ≡ planned_for input.now handles.now group (option_map (λ kept. keys_in kept.now) registry.entry)) }
    ensures follows { IfOk result CanFollow }
    ensures update { IfOk result (IsFor input.now) }
    // A call that `read_in` gives has a size that fits.
    ensures short { IfOk result (IsShortFor input.now) }
{
    let node = handles.node();
    match handle_in(input) {
        None => perform(alloc, input, &root_as(alloc, Kind::Cluster), node, registry),
        Some((kind, handle)) => match find(handles, group, kind, &handle) {
            None => Ok(Planned::Fault(CONTEXT_MISMATCH)),
            Some(held) => perform(alloc, input, held, node, registry),
        },
    }
}

/// The call on what its handle was opened on.
fn perform(
    alloc: Global,
    input: &In,
    held: &Held,
    node: u16,
    registry: Option<&Registry>,
) -> Result<Planned, AllocError>
    requires text { TextLacksZero input.now }
    ensures planned { IfOk result (λ planned. planned ≡ planned_at (Some held.now) input.now node (option_map (λ kept. keys_in kept.now) registry.entry)) }
    ensures follows { IfOk result CanFollow }
    ensures short { IfOk result (IsShortFor input.now) }
{
    by_method(alloc, input, held, node, registry)
}

/// The same, by the method.
fn by_method(
    alloc: Global,
    input: &In,
    held: &Held,
    node: u16,
    registry: Option<&Registry>,
) -> Result<Planned, AllocError>
    requires text { TextLacksZero input.now }
    ensures planned { IfOk result (λ planned. planned ≡ planned_at (Some held.now) input.now node (option_map (λ kept. keys_in kept.now) registry.entry)) }
    ensures bounded { IfOk result FollowsBounded }
{
    match input {
        In::OpenCluster => Ok(opened(alloc, 0, Kind::Cluster)),
        In::CloseCluster { handle } => Ok(Planned::Close {
            opnum: 1,
            handle: *handle,
        }),
        In::GetClusterName => reading::cluster_names(alloc, input, node, registry),
        In::GetRootKey { .. } => Ok(opened(alloc, 28, Kind::Key)),
        In::CreateKey {
            subkey,
            options,
            ..
        } => updating::create_key(alloc, input, held, subkey, *options, registry),
        In::OpenKey { subkey, .. } => reading::open_key(alloc, input, held, subkey, registry),
        In::EnumKey { index, .. } => reading::enum_key(alloc, input, held, *index, registry),
        In::SetValue {
            name,
            kind,
            bytes,
            ..
        } => updating::set_value(alloc, input, held, name, *kind, bytes, registry),
        In::DeleteValue { name, .. } => updating::delete_value(alloc, input, held, name, registry),
        In::QueryValue { name, cb_data, .. } => {
            reading::query_value(alloc, input, held, name, *cb_data, registry)
        }
        In::DeleteKey { subkey, .. } => updating::delete_key(alloc, input, held, subkey, registry),
        In::EnumValue { index, cb_data, .. } => {
            reading::enum_value(alloc, input, held, *index, *cb_data, registry)
        }
        In::CloseKey { handle } => Ok(Planned::Close {
            opnum: 37,
            handle: *handle,
        }),
        In::QueryInfoKey { .. } => reading::query_info_key(alloc, input, held, registry),
    }
}

/// A new handle on the cluster or on its root key.
fn opened(alloc: Global, opnum: u16, kind: Kind) -> Planned
    ensures planned { result ≡ Open opnum (root_as kind) false }
    ensures bounded { FollowsBounded result }
{
    Planned::Open {
        opnum,
        held: root_as(alloc, kind),
        reads: false,
    }
}
