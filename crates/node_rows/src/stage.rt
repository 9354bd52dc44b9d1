use crate::actor::Actor;
use row_words::{Names, RowFault};
use std::alloc::Global;

/// What a row finds: a node over its disk, and bytes that have names.
#[derive(Drop)]
pub(crate) struct Stage {
    pub(crate) alloc: Global,
    pub(crate) names: Names,
    pub(crate) actor: Actor,
}

impl Stage {
    pub(crate) fn new(alloc: Global) -> Result<Stage, RowFault> {
        Ok(Stage {
            alloc,
            names: Names::new(alloc),
            actor: Actor::new(alloc)?,
        })
    }
}
