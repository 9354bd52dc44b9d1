//! The world of real nodes: what may happen in it, and what it tells.
//!
//! Nodes with their clients, the messages between them, the chain of views and one disk that crashes. What happens next
//! is a choice of whoever writes the events: which message comes, whether again or never, which node dies and where, and
//! which call of the disk fails. The code has the types; the definitions stand in `specs/`.
#![tactic(auto)]

mod bad_event;
mod event;
mod inner;
mod step_fault;
mod told;

pub use bad_event::BadEvent;
pub use event::Event;
pub use inner::Inner;
pub use step_fault::StepFault;
pub use told::Told;
