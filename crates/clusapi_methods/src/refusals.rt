//! Calls that are answered by a status other than 0.

ghost use Rattle.std.specs.Prelude.{◌≡◌, IfOk, replicate};
ghost use Rattle.clusapi_methods.specs.declared.planned.Planned.TheVariants.{Answer};
ghost use Rattle.clusapi_methods.specs.Refusals.{null_handle, refused};
ghost use Rattle.clusapi_methods.specs.Sizes.{FollowsBounded, IsBounded};

use crate::planned::Planned;
use clusapi_stubs::{In, Out};
use ndr_values::WireHandle;
use std::alloc::{AllocError, Global};
use uuid::Uuid;
use wire_fields::Octets;

pub(crate) fn null_handle() -> WireHandle
    ensures { result ≡ null_handle }
{
    WireHandle {
        attributes: 0,
        id: Uuid::nil(),
    }
}

/// The call is refused with the status.
pub(crate) fn refuse(
    alloc: Global,
    status: u32,
    input: &In,
    reads: bool,
) -> Result<Planned, AllocError>
    ensures planned { IfOk result (λ planned. planned ≡ Answer (refused status input.now) reads) }
    ensures bounded { IfOk result FollowsBounded }
{
    Ok(Planned::Answer {
        out: refused(alloc, status, input)?,
        reads,
    })
}

fn refused(alloc: Global, status: u32, input: &In) -> Result<Out, AllocError>
    ensures results { IfOk result (λ out. out ≡ refused status input.now) }
    ensures bounded { IfOk result IsBounded }
{
    let handle = null_handle();
    Ok(match input {
        In::OpenCluster => Out::OpenCluster { status, handle },
        In::CloseCluster { .. } => Out::CloseCluster { handle, status },
        In::GetClusterName => Out::GetClusterName {
            cluster: None,
            node: None,
            status,
        },
        In::GetRootKey { .. } => Out::GetRootKey {
            status,
            rpc_status: 0,
            handle,
        },
        In::CreateKey { .. } => Out::CreateKey {
            disposition: 0,
            status,
            rpc_status: 0,
            handle,
        },
        In::OpenKey { .. } => Out::OpenKey {
            status,
            rpc_status: 0,
            handle,
        },
        In::EnumKey { .. } => Out::EnumKey {
            name: None,
            written: 0,
            rpc_status: 0,
            status,
        },
        In::SetValue { .. } => Out::SetValue {
            rpc_status: 0,
            status,
        },
        In::DeleteValue { .. } => Out::DeleteValue {
            rpc_status: 0,
            status,
        },
        In::QueryValue { cb_data, .. } => Out::QueryValue {
            kind: 0,
            bytes: zeros(alloc, *cb_data)?,
            required: 0,
            rpc_status: 0,
            status,
        },
        In::DeleteKey { .. } => Out::DeleteKey {
            rpc_status: 0,
            status,
        },
        In::EnumValue { .. } => Out::EnumValue {
            name: None,
            kind: 0,
            bytes: Octets::new(Vec::new(alloc)),
            cb_data: 0,
            total: 0,
            rpc_status: 0,
            status,
        },
        In::CloseKey { .. } => Out::CloseKey { handle, status },
        In::QueryInfoKey { .. } => Out::QueryInfoKey {
            subkeys: 0,
            longest_subkey: 0,
            values: 0,
            longest_name: 0,
            longest_data: 0,
            security: 0,
            written: 0,
            rpc_status: 0,
            status,
        },
    })
}

pub(crate) fn zeros(alloc: Global, count: u32) -> Result<Octets, AllocError>
    ensures { IfOk result (λ bytes. bytes ≡ replicate count 0) }
{
    Ok(Octets::new(vec![in alloc; 0; count as usize]?))
}
