use clus_names::Units;
use registry_tree::Value;

/// A line of a registry's text, but the first one.
#[derive(Drop)]
pub(crate) enum Line {
    /// A key begins: its name, its creation number, and when it was last changed.
    Key {
        part: Units,
        birth: u64,
        written: u64,
    },
    /// A value of the key that began last.
    Value(Value),
    /// A key ends.
    Up,
}
