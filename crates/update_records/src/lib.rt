//! Updates of the registry and records of the update order, and their one spelling as bytes.
//!
//! An update is a change of one kind or a batch of changes. A record is an update at its place of the order, with the
//! time at which it was taken and the request that asked for it.
#![tactic(auto)]

mod change;
mod changes;
mod decoding;
mod encoding;
mod fault;
mod reading;
mod update;
mod update_id;
mod update_record;
mod writing;

pub use change::Change;
pub use changes::Changes;
pub use decoding::{decode, decode_first, decode_update};
pub use encoding::{encode, encode_update};
pub use fault::RecordFault;
pub use reading::{u8_between, u16_between, u32_between, u32_field, u64_between, u64_field};
pub use update::Update;
pub use update_id::UpdateId;
pub use update_record::Record;
pub use writing::{put_counted, put_data};
