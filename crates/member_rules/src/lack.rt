//! What a node lacks of the log.

/// What a node lacks of the log that was recovered or offered.
#[derive(Clone, Copy, Debug, PartialEq, Eq)]
pub enum Lack {
    Nothing,
    /// The last record alone, which is known.
    Last,
    State,
}
