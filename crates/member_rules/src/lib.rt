//! One node of the cluster without its log and its connections: what each rule makes of it.
//!
//! A rule that has the log written is carried out in parts: what is to be logged, and what follows once it is.
#![tactic(auto)]

mod effects;
mod entering;
mod following;
mod handing;
mod lack;
mod opening;
mod pulled;
mod replica;
mod rules;
mod sending;
mod ticking;
mod told;
mod updating;

pub use effects::Effects;
pub use lack::Lack;
pub use pulled::Pulled;
pub use replica::{Replica, apply_record};
pub use rules::Rules;
pub use told::Told;
