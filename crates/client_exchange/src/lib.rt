//! What a client does over one connection: the requests of its commands, and what each reply comes to.
//!
//! An [`Asking`] is a client between two replies. It takes one item of the server's stream after the other, and says for each
//! which lines it prints and what it sends.
#![tactic(auto)]

mod asking;
mod binding;
mod lines;
mod replies;
mod requests;
mod stage;
mod steps;
mod texts;
mod told;

pub use asking::Asking;
pub use binding::bind_text;
pub use lines::Lines;
pub use stage::Stage;
pub use told::Told;
