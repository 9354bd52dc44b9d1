//! What a disk answers to a call that it refuses.

/// The fault of a disk.
#[derive(Clone, Copy, Debug, PartialEq, Eq)]
pub enum DiskFault {
    /// The call failed, and the disk counted it.
    Failed,
    /// The disk holds a greater fencing token than the call carried, and has changed nothing.
    Fenced { held: u32 },
}
