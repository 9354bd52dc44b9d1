//! What an opened quorum log holds: the registry, and the records of the update order behind it.
#![tactic(auto)]

mod contents;
mod decoding;
mod fault;

pub use contents::{LogContents, Records};
pub use decoding::decode_contents;
pub use fault::ContentsFault;
