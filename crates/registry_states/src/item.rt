//! What a state tells, one thing after the other.

use clus_names::Units;
use registry_tree::Value;

/// A key without its values and what stands below it; the root has no name.
#[derive(Drop)]
pub(crate) struct Head {
    pub part: Units,
    pub birth: u64,
    pub written: u64,
    /// How many values follow.
    pub values: u32,
}

/// A state is the root's head, its values, and the count of its subkeys, behind which each of them stands in the same way.
#[derive(Drop)]
pub(crate) enum Item {
    Head(Head),
    Value(Value),
    Subkeys(u32),
}
