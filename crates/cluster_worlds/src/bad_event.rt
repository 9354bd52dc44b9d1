//! Why an event can't happen.

use view_reconcile::ChainFault;

/// Why a world refuses an event.
#[derive(Clone, Copy, Debug, PartialEq, Eq)]
pub enum BadEvent {
    NotRunning { node: u16 },
    /// The node that was to be started runs.
    Running { node: u16 },
    /// A member of the view that was to be declared, whose node wasn't started so often.
    NotStarted { node: u16, inc: u64 },
    /// No view of this number was declared.
    UnknownView { view: u32 },
    /// No message of this number was sent.
    UnknownMessage { number: u64 },
    UnknownConnection { conn: u32 },
    /// A connection had this number before.
    UsedConnection { conn: u32 },
    /// The view that was to be declared doesn't continue the chain.
    Chain(ChainFault),
}
