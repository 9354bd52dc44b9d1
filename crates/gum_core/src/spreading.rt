//! How far an update has spread.

/// The record of the queue's head is being sent to the members behind the locker, one after the other.
#[derive(Clone, Copy, Debug, PartialEq, Eq)]
pub struct Spreading {
    /// The record's place.
    pub place: u64,
    /// Which of these members is waited for, from 0.
    pub at: usize,
}
