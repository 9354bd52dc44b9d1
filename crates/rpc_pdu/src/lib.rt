//! The PDUs of connection-oriented DCE/RPC: a fragment's bytes to a value and back (C706 chapter 12).
#![tactic(auto)]

mod bodies;
mod decoding;
mod encoding;
mod head;
mod header;
mod pdu;
mod pdu_fault;
mod pdu_type;
mod proposal;
mod proposals;
mod syntax;
mod syntaxes;
mod verdict;
mod verdicts;
mod versions;

pub use decoding::decode;
pub use encoding::encode;
pub use head::Head;
pub use header::peek;
pub use pdu::Pdu;
pub use pdu_fault::PduFault;
pub use pdu_type::PduType;
pub use proposal::Proposal;
pub use proposals::Proposals;
pub use syntax::Syntax;
pub use syntaxes::Syntaxes;
pub use verdict::Verdict;
pub use verdicts::Verdicts;
pub use versions::Versions;

#[cfg(test)]
mod tests;
