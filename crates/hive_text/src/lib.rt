//! A registry as text, line by line, and as batches of updates.
#![tactic(auto)]

mod batcher;
mod batching;
mod laws;
mod line;
mod parsing;
mod printing;
mod reading;
mod text_fault;
mod walk;
mod words;

pub use batching::batches;
pub use laws::{no_text_is_at_fault, texts_are_of_one_registry};
pub use printing::print;
pub use reading::read;
pub use text_fault::TextFault;
