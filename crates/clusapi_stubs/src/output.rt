use clus_names::Units;
use ndr_values::WireHandle;
use wire_fields::Octets;

/// The results of a method. A text that is None is sent as a null pointer.
#[derive(Debug, Drop)]
pub enum Out {
    OpenCluster {
        status: u32,
        handle: WireHandle,
    },
    CloseCluster {
        handle: WireHandle,
        status: u32,
    },
    GetClusterName {
        cluster: Option<Units>,
        node: Option<Units>,
        status: u32,
    },
    GetRootKey {
        status: u32,
        rpc_status: u32,
        handle: WireHandle,
    },
    CreateKey {
        disposition: u32,
        status: u32,
        rpc_status: u32,
        handle: WireHandle,
    },
    OpenKey {
        status: u32,
        rpc_status: u32,
        handle: WireHandle,
    },
    EnumKey {
        name: Option<Units>,
        written: u64,
        rpc_status: u32,
        status: u32,
    },
    SetValue {
        rpc_status: u32,
        status: u32,
    },
    DeleteValue {
        rpc_status: u32,
        status: u32,
    },
    QueryValue {
        kind: u32,
        bytes: Octets,
        required: u32,
        rpc_status: u32,
        status: u32,
    },
    DeleteKey {
        rpc_status: u32,
        status: u32,
    },
    EnumValue {
        name: Option<Units>,
        kind: u32,
        bytes: Octets,
        cb_data: u32,
        total: u32,
        rpc_status: u32,
        status: u32,
    },
    CloseKey {
        handle: WireHandle,
        status: u32,
    },
    QueryInfoKey {
        subkeys: u32,
        longest_subkey: u32,
        values: u32,
        longest_name: u32,
        longest_data: u32,
        security: u32,
        written: u64,
        rpc_status: u32,
        status: u32,
    },
}
