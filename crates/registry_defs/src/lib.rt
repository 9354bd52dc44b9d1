//! What the registry is and what an update does to it, as definitions over finite maps: keys under their folded paths,
//! and the values of each key under their folded names. The definitions stand in `specs/`.
#![tactic(auto)]

mod info;
mod laws;
mod outcome;

pub use info::Info;
pub use laws::nth_has_so_many_smaller;
pub use outcome::Outcome;
