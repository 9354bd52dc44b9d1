//! Fields of a binary format: numbers in a chosen byte order, identifiers and runs of bytes,
//! read from a slice and written to a growing list.
#![tactic(auto)]

mod endian;
mod fields;
mod laws;
mod octets;
mod put;

pub use endian::Endian;
pub use fields::{Fields, Short};
pub use laws::one_number;
pub use octets::Octets;
pub use put::Put;

#[cfg(test)]
mod tests;
