use clus_names::Path;

/// What a handle was opened on.
#[derive(Clone, Copy, Debug, PartialEq, Eq)]
pub enum Kind {
    Cluster,
    Key,
}

/// What a handle stands for. A handle of a cluster has the root path and birth 0.
#[derive(Debug, Drop)]
pub struct Held {
    pub kind: Kind,
    pub path: Path,
    /// The creation number of the key, which tells it from a later key at the same path.
    pub birth: u64,
}

/// What is open in a group.
#[derive(Debug, Drop)]
pub(crate) struct Entry {
    pub(crate) group: u32,
    pub(crate) held: Held,
}
