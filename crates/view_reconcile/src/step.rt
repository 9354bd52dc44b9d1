//! What a node does next on its way into a view.

/// What an event of joining asks the node to do.
#[derive(Clone, Copy, Debug, PartialEq, Eq)]
pub enum Step {
    Nothing,
    /// Tell the locker that the node is ready; at a locker there is nobody to tell.
    Ready,
    /// Apply the record of the Offer, and answer by [`Reconcile::taken`](crate::Reconcile::taken).
    ApplyLast,
    /// Ask for the state from this offset on; at the locker: take the recovered state, and answer by `taken`.
    Pull { offset: u32 },
    /// Decode the state that was pulled, and answer by `taken`.
    Whole,
    /// Open the view, and tell the other members where this node is the locker.
    Open,
    /// Tell this member again that the view is open.
    OpenAgain { to: u16 },
    /// Send the Offer to each member that is waited for; there are this many.
    OfferTo { count: u32 },
}
