use uuid::Uuid;

/// An interface or a transfer syntax, with its version: the major version in the low half.
#[derive(Clone, Copy, Debug, PartialEq, Eq)]
pub struct Syntax {
    pub id: Uuid,
    pub version: u32,
}
