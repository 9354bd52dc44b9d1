//! The registry as the deterministic machine that the cluster replicates: what a record of the update order makes of it, and
//! its bytes. The definitions stand in `specs/`; they are tied to the calls of `clus_registry`.
#![tactic(auto)]

mod laws;

pub use laws::{
    calls_do_as_the_machine, order_keeps_the_limits, registry_is_a_machine, replay_is_the_fold,
};
