//! Registries from their one encoding, which is called a state and may come in pieces.
#![tactic(auto)]

mod ahead;
mod assembling;
mod build;
mod fault;
mod item;
mod laws;
mod read_fault;
mod reading;
mod standing;
mod taking;
mod turning;

pub use build::TreeBuild;
pub use fault::StateFault;
pub use laws::{what_is_read_is_spelled, what_is_spelled_is_read};
