//! Records are added.

ghost use Rattle.single_log.specs.Adding.{AddingKeeps, CheckpointKeeps};
ghost use Rattle.single_log.specs.Running.{MessageKeeps, RecordsKeep};

/// The next record is added behind those that the log holds, with a checkpoint before it where one is due.
pub fn record_is_kept()
    ensures { AddingKeeps }
{}

/// A checkpoint by itself leaves what the log holds.
pub fn checkpoint_is_kept()
    ensures { CheckpointKeeps }
{}

/// A node that is alone adds records in turn.
pub fn records_are_kept()
    ensures { RecordsKeep }
{}

/// At one message the record that it has the node log may be in doubt, and no other.
pub fn message_is_kept()
    ensures { MessageKeeps }
{}
