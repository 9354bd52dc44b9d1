//! The log begins anew with the registry behind the whole order, or is made.

ghost use Rattle.log_order.specs.CheckpointLaws.{CheckpointMoments, CheckpointRefines, FormatRefines};

/// At each moment inside `checkpoint` the log is the one that it was.
pub fn checkpoint_changes_nothing()
    ensures { CheckpointMoments }
{}

/// Behind `checkpoint` the log is the one that it was, and its value stands for what the disk holds.
pub fn checkpointed_log_refines()
    ensures { CheckpointRefines }
{}

/// A disk on which a log of the empty registry was made holds the empty order.
pub fn formatted_log_refines()
    ensures { FormatRefines }
{}
