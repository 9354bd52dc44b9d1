//! The context handles of a server: what each stands for, and which association group may use it.
//!
//! A handle belongs to the group of the connection that opened it. Its serial number is given once
//! in the life of a [`Handles`], so a handle that was closed never comes back as another one.
#![tactic(auto)]

mod encoding;
mod handles;
mod held;
mod laws;

pub use handles::Handles;
pub use held::{Held, Kind};
pub use laws::{an_opened_handle_is_found, handles_differ};

#[cfg(test)]
mod tests;
