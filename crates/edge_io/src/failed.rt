use thiserror::Error;

/// The one fault of the outside: a call on it failed.
#[derive(Clone, Copy, Debug, PartialEq, Eq, Error)]
#[error("the outside failed")]
pub struct Failed;
