use crate::syntax::Syntax;
use crate::syntaxes::Syntaxes;

/// A presentation context that a client proposes: an interface, and the transfer syntaxes in which
/// the client can speak it.
#[derive(Debug, Drop)]
pub struct Proposal {
    pub id: u16,
    pub abstract_syntax: Syntax,
    pub transfers: Syntaxes,
}
