//! The registry of the cluster: keys with values under names that ignore the case of ASCII letters, within a bounded size.
//!
//! Contracts see a registry as its cap and a finite map from paths to keys, and say what each call gives in the words of
//! `registry_defs`.
#![tactic(auto)]

mod applying;
mod changing;
mod empty;
mod outcomes;
mod reading;
mod registry;
mod state_build;

pub use empty::{EMPTY_STATE, empty_state_is_of_the_root_alone};
pub use registry::Registry;
pub use registry_defs::{Info, Outcome};
pub use registry_states::StateFault;
pub use state_build::StateBuild;

#[cfg(test)]
mod state_tests;
#[cfg(test)]
mod tests;
