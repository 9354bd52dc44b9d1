//! How far a node is in its view.

/// How far a node is in its view.
#[derive(Clone, Copy, Debug, PartialEq, Eq)]
pub enum Stage {
    /// It waits for the locker's Offer, or has no view.
    Waiting,
    /// It pulls the locker's state and has this many bytes.
    Pulling { taken: u32 },
    /// It is about to apply the Offer's record, or to take a whole state.
    Taking,
    /// It has what the locker's log has, and waits for the view to open.
    Ready,
    /// The view is open at this node.
    Open,
}
