//! The update order over a quorum log.

use quorum_log::Log;
use std::alloc::Global;
use std::marker::Model;

/// A log of records that was recovered and can be written. Contracts see it as the log below it.
#[derive(Drop)]
pub struct RecordLog {
    pub(crate) alloc: Global,
    pub(crate) log: Log,
}

impl Model for RecordLog {
    ghost use Rattle.std.specs.Prelude.{◌≡◌, ◌⊎◌};
    ghost use Rattle.quorum_log.specs.Logs.{LogValue};

    ghost Value = { LogValue };

    ghost view = { λ order. order.log };

    ghost invariant = { λ order. (order.log.half ≡ 0) ⊎ (order.log.half ≡ 1) };
}
