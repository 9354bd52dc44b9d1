//! What holds of every run of real nodes over one disk: each run is one of the protocol, and so its promises hold.
//!
//! The world is that of `cluster_worlds`: nodes as their code makes them, messages that may come late, again or never, and
//! a disk whose calls fail and which crashes with any node at any moment. The laws speak of every list of events that the
//! types of the code hold (`IsTypedEvent`), and of every capacity of the log.
#![tactic(auto)]

mod laws;

pub use laws::{every_world_is_kept, every_world_is_safe, order_grows, runs_go_on};
