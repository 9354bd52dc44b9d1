//! One node of the cluster without its connections: what its events come to over its registry and the log that it writes as a locker.
#![tactic(auto)]

mod hearing;
mod installing;
mod logging;
mod member;
mod stop;

pub use member::Member;
pub use member_rules::{Effects, Told};
pub use stop::Stop;
