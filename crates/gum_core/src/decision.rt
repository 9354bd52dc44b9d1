//! What a node does next for an update.

/// What an event of Global Update asks the node to do.
#[derive(Clone, Copy, Debug, PartialEq, Eq)]
pub enum Decision {
    Nothing,
    /// Ask the locker for the queue's head, whose request this is.
    Ask {
        req: u64,
    },
    /// Log the update of this request, apply it, and tell the core by [`Core::logged`](crate::Core::logged).
    Write {
        from: u16,
        req: u64,
    },
    /// Tell the member that its update was logged at this place.
    Grant {
        to: u16,
        req: u64,
        place: u64,
    },
    /// Send the record at this place to this member.
    Spread {
        to: u16,
        place: u64,
    },
    /// Each member has applied the request: acknowledge it, release the lock, and ask for the next one.
    Finish {
        req: u64,
        place: u64,
        next: Option<u64>,
    },
    /// The lock is free.
    Free,
    /// Release the lock again for a request that was finished before.
    ReleaseAgain {
        req: u64,
    },
    /// Apply the record, and say so.
    Take,
    /// Say again that the record was applied.
    Again,
}
