//! What an event tells.

use crate::effects::Effects;
use registry_defs::Outcome;

/// What the node did, and what came of the head that it acknowledged.
#[derive(Debug, Drop)]
pub struct Told {
    pub effects: Effects,
    pub outcome: Option<Outcome>,
}
