//! The rules of a node, the world of the protocol that they make, and what is promised of it.
//! The definitions stand in `specs/`; the code has the types that they share with a node.
#![tactic(auto)]

mod effect;
mod offering;

pub use effect::{CloseCause, Effect, HaltCause};
pub use offering::Offering;
