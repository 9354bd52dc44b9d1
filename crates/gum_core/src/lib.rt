//! Global Update: the decisions by which the members of a view apply the same updates in the same order.
#![tactic(auto)]

mod decision;
mod global_update;
mod lock;
mod spreading;
#[cfg(test)]
mod tests;

pub use decision::Decision;
pub use global_update::Core;
pub use lock::Lock;
pub use spreading::Spreading;
