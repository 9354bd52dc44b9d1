//! A key of the registry with all that stands below it, as a tree: each key holds its values and its subkeys in ascending
//! order of their folded names, and a look-up goes down part by part, with a binary search at each level.
//!
//! Contracts see a key as `Node`: the key itself, and the keys below it as a finite map under their paths from it.
#![tactic(auto)]

mod changing;
mod counting;
mod creating;
mod growth;
mod items;
mod key;
mod reading;
mod searching;
mod sizing;
mod value;
mod values;
mod window;
mod windowing;
mod writing;

pub use growth::Growth;
pub use key::Key;
pub use value::Value;
