use crate::lines::Lines;
use wire_fields::Octets;

/// What a client does with a reply: it prints these lines, and then sends these bytes.
#[derive(Debug, Drop)]
pub struct Told {
    pub lines: Lines,
    pub sent: Option<Octets>,
}
