//! Why an event has come to nothing.

use crate::bad_event::BadEvent;

/// Why a step of a world answers nothing.
#[derive(Clone, Copy, Debug, PartialEq, Eq)]
pub enum StepFault {
    /// The event can't happen, and the world is as it was.
    BadEvent(BadEvent),
    /// Memory ran out.
    Memory,
}
