//! Views of the cluster, the chain of the views that were declared, and how a node joins its view.
#![tactic(auto)]

mod chain;
mod chain_fault;
mod reconcile;
mod stage;
mod step;

pub use chain::Chain;
pub use chain_fault::ChainFault;

#[cfg(test)]
mod tests;

pub use gum_messages::{Member, Members, View};
pub use reconcile::Reconcile;
pub use stage::Stage;
pub use step::Step;
