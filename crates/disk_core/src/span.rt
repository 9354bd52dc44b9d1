//! Ranges of bytes.

/// A range of bytes of a disk.
#[derive(Clone, Copy, Debug, PartialEq, Eq)]
pub struct Span {
    pub at: u64,
    pub len: u64,
}
