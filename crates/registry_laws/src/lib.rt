//! What the protocol promises of the registry: the laws of `cluster_laws`, where what is replicated is the registry as the
//! machine of `registry_machine`.
#![tactic(auto)]

mod laws;
mod replicated;

pub use laws::{
    registry_is_answered, registry_is_kept, registry_is_recovered, registry_is_safe,
    registry_is_steady, registry_is_the_fold,
};
pub use replicated::ReplicatedRegistry;
