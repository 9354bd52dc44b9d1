//! Values of a stub in the transfer syntax NDR (C706, chapter 14): strings, byte arrays, pointers
//! and context handles, read and written behind padding to a multiple of 4.
//!
//! A reader gives a value exactly where a prefix of the bytes left spells it, and else the first
//! check that fails. A writer appends the canonical encoding.
#![tactic(auto)]

mod fault;
mod handle;
mod laws;
mod reading;
#[cfg(test)]
mod tests;
mod text;
mod writing;

pub use fault::{NdrFault, ReadFault};
pub use handle::WireHandle;
pub use laws::canonical_is_read;
pub use reading::{read_bytes, read_handle, read_number, read_pointer, read_time};
pub use text::read_string;
pub use writing::{
    write_bytes, write_handle, write_number, write_pointer, write_string, write_time,
};
