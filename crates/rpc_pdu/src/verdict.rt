use crate::syntax::Syntax;

/// What a server answers to a proposal. `result` is 0 where it accepts it, in the transfer syntax
/// `syntax`; else `reason` tells why it doesn't.
#[derive(Clone, Copy, Debug, PartialEq, Eq)]
pub struct Verdict {
    pub result: u16,
    pub reason: u16,
    pub syntax: Syntax,
}
