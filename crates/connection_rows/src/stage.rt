use client_connections::Connections;
use clus_registry::Registry;
use row_words::Names;
use std::alloc::Global;

/// The cap of a node's registry.
pub(crate) const CAP: u32 = 1_048_576;

/// A node without its protocol.
#[derive(Drop)]
pub(crate) struct Stage {
    pub(crate) alloc: Global,
    pub(crate) names: Names,
    pub(crate) connections: Connections,
    /// The registry, where the node is open.
    pub(crate) registry: Option<Registry>,
    /// How many records it has.
    pub(crate) done: u64,
}

impl Stage {
    pub(crate) fn new(alloc: Global) -> Stage {
        Stage {
            alloc,
            names: Names::new(alloc),
            connections: Connections::new(alloc, 1),
            registry: None,
            done: 0,
        }
    }
}
