//! What the records of a node alone have made of it.

ghost use Rattle.single_node.specs.Recording.{LogsJoin, NextIsAlones, RecordsApplied, RecordsNamed};

/// The registry and the last record are those behind the records that were made, and each of these has an id, where the
/// node has a number and an incarnation that a record may have.
pub fn records_are_applied()
    ensures applied { RecordsApplied }
    ensures named { RecordsNamed }
{}

/// The record that the oldest message has the node log is Alone's next one.
pub fn next_record_is_alones()
    ensures { NextIsAlones }
{}

/// Records that were added in turn, and then others.
pub fn logged_in_turn()
    ensures { LogsJoin }
{}
