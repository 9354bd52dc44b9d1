use clus_names::Name;
use wire_fields::Octets;

/// A value of a key.
#[derive(Debug, Drop)]
pub struct Value {
    pub name: Name,
    pub kind: u32,
    pub bytes: Octets,
}
