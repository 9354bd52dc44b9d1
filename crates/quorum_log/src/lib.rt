//! The quorum log: a list of records behind a state, which survives a crash at any moment of a write.
#![tactic(auto)]

mod appending;
mod checking;
mod checkpointing;
mod fault;
mod formatting;
pub mod found;
mod laws;
pub mod layout;
pub mod log;
mod opening;
mod reading;
mod writing;

pub use fault::{AppendFault, OpenFault};
pub use formatting::format;
pub use found::{Found, FoundRecord, FoundRecords};
pub use laws::{
    held_log_is_good, held_log_is_one, image_has_one_fault, record_fits_after_checkpoint,
};
pub use layout::{MOST_RECORD, MOST_RECORDS, image_size};
pub use log::Log;
