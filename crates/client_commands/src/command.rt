use clus_names::Units;
use wire_fields::Octets;

/// What a client is asked to do.
#[derive(Debug, Drop)]
pub enum Command {
    /// The names of the cluster and of the node.
    Name,
    /// Makes the key and those above it.
    Make {
        path: Units,
    },
    /// Removes the key.
    Drop {
        path: Units,
    },
    /// Gives the value its type and data.
    Set {
        path: Units,
        name: Units,
        kind: u32,
        bytes: Octets,
    },
    /// Removes the value.
    Unset {
        path: Units,
        name: Units,
    },
    /// The value's type and data.
    Get {
        path: Units,
        name: Units,
    },
    /// The names of the keys below.
    Keys {
        path: Units,
    },
    /// The key's values.
    Values {
        path: Units,
    },
}
