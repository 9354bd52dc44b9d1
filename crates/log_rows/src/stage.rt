use crate::fault::PlayFault;
use crate::log_disk::LogDisk;
use quorum_log::Found;
use row_words::Names;
use std::alloc::Global;

/// What a row finds.
#[derive(Drop)]
pub(crate) struct Stage {
    pub(crate) alloc: Global,
    pub(crate) names: Names,
    pub(crate) logs: LogDisk,
    pub(crate) found: Option<Found>,
}

impl Stage {
    pub(crate) fn new(alloc: Global) -> Result<Stage, PlayFault> {
        Ok(Stage {
            alloc,
            names: Names::new(alloc),
            logs: LogDisk::new(alloc, 0)?,
            found: None,
        })
    }
}
