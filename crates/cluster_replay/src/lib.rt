//! A cluster of real nodes in one process, over one disk that crashes: whatever events are asked for, each comes to what
//! the definition of the world says.
#![tactic(auto)]

mod dying;
mod events;
mod finding;
mod journal;
mod ordered;
mod reacting;
mod reading;
mod refusing;
mod slots;
mod stepping;
mod world;

pub use cluster_worlds::{BadEvent, Event, Inner, StepFault, Told};
pub use ordered::OrderedRecord;
pub use world::World;
pub use world_laws::{every_world_is_kept, every_world_is_safe, order_grows, runs_go_on};
