use clus_names::Units;
use ndr_values::WireHandle;
use wire_fields::Octets;

/// A call of a method, with its parameters.
#[derive(Debug, Drop)]
pub enum In {
    OpenCluster,
    CloseCluster {
        handle: WireHandle,
    },
    GetClusterName,
    GetRootKey {
        sam: u32,
    },
    CreateKey {
        handle: WireHandle,
        subkey: Units,
        options: u32,
        sam: u32,
        /// The referent of the security attributes, which aren't read.
        security: u32,
    },
    OpenKey {
        handle: WireHandle,
        subkey: Units,
        sam: u32,
    },
    EnumKey {
        handle: WireHandle,
        index: u32,
    },
    SetValue {
        handle: WireHandle,
        name: Units,
        kind: u32,
        bytes: Octets,
        cb_data: u32,
    },
    DeleteValue {
        handle: WireHandle,
        name: Units,
    },
    QueryValue {
        handle: WireHandle,
        name: Units,
        cb_data: u32,
    },
    DeleteKey {
        handle: WireHandle,
        subkey: Units,
    },
    EnumValue {
        handle: WireHandle,
        index: u32,
        cb_data: u32,
    },
    CloseKey {
        handle: WireHandle,
    },
    QueryInfoKey {
        handle: WireHandle,
    },
}
