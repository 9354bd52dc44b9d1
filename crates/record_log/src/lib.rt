//! The update order over the quorum log: it is recovered, a record is added to it, and a checkpoint is written.
#![tactic(auto)]

mod adding;
mod fault;
mod opening;
mod record_log;
mod recovered;

pub use fault::{AddFault, RecordFault};
pub use record_log::RecordLog;
pub use recovered::Recovered;
