//! The update lock.

/// Who holds the update lock, with which request, and where that request was logged.
#[derive(Clone, Copy, Debug, PartialEq, Eq)]
pub struct Lock {
    pub node: u16,
    pub req: u64,
    pub place: u64,
}
