//! A log is opened, or made on a blank disk and then opened.

ghost use Rattle.single_log.specs.Opening.{AloneOpens, BlankOpens, FirstIsFound, FormatLeaves, OpenedKeeps};

/// A log that was opened holds the records found and no further one.
pub fn opened_log_is_kept()
    ensures { OpenedKeeps }
{}

/// So a node that has opened alone keeps it.
pub fn alone_opens_kept()
    ensures { AloneOpens }
{}

/// A log that was made of the empty registry is found with no record.
pub fn first_log_is_found()
    ensures { FirstIsFound }
{}

/// Where the disk was blank, each image is blank or holds that log until the log is made, and so it is kept then.
pub fn blank_opens_kept()
    ensures format { FormatLeaves }
    ensures opens { BlankOpens }
{}
