//! What a call is about.

ghost use Rattle.std.specs.Prelude.{◌≡◌, ◌&&◌, option_map};
ghost use Rattle.context_handles.specs.Table.{found};
ghost use Rattle.clusapi_methods.specs.Calls.{handle_in};
ghost use Rattle.clusapi_methods.specs.Plans.{is_kind, of_kind, root_as};

use clus_names::Path;
use clusapi_stubs::In;
use context_handles::{Handles, Held, Kind};
use ndr_values::WireHandle;
use std::alloc::Global;

/// The handle of a call, and what it must have been opened on.
pub(crate) fn handle_in(input: &In) -> Option<(Kind, WireHandle)>
    ensures { result ≡ handle_in input.now }
{
    match input {
        In::OpenCluster | In::GetClusterName | In::GetRootKey { .. } => None,
        In::CloseCluster { handle } => Some((Kind::Cluster, *handle)),
        In::CreateKey { handle, .. }
        | In::OpenKey { handle, .. }
        | In::EnumKey { handle, .. }
        | In::SetValue { handle, .. }
        | In::DeleteValue { handle, .. }
        | In::QueryValue { handle, .. }
        | In::DeleteKey { handle, .. }
        | In::EnumValue { handle, .. }
        | In::CloseKey { handle }
        | In::QueryInfoKey { handle } => Some((Kind::Key, *handle)),
    }
}

/// What the handle is open on in the group, where it is of this kind.
pub(crate) fn find<'a>(
    handles: &'a Handles,
    group: u32,
    kind: Kind,
    handle: &WireHandle,
) -> Option<&'a Held>
    ensures { option_map (λ held. held.now) result ≡ of_kind kind (found handles.now group handle.now) }
{
    match handles.find(group, handle) {
        Some(held) if is_kind(kind, held.kind) => Some(held),
        _ => None,
    }
}

fn is_kind(wanted: Kind, kind: Kind) -> bool
    ensures { result ≡ is_kind wanted kind }
{
    matches!(
        (wanted, kind),
        (Kind::Cluster, Kind::Cluster) | (Kind::Key, Kind::Key)
    )
}

/// The cluster, or its root key.
pub(crate) fn root_as(alloc: Global, kind: Kind) -> Held
    ensures { result ≡ root_as kind }
{
    Held {
        kind,
        path: Path::root(alloc),
        birth: 0,
    }
}
