//! A log is opened for a view.

ghost use Rattle.log_order.specs.OpenLaws.{OpenFenced, OpenMoments, OpenRefines, OpenRefused};

/// A log that was opened is recovered: the record in doubt was found in it or not, and nothing is in doubt any more.
pub fn opened_log_refines()
    ensures { OpenRefines }
{}

/// At each moment inside `open` the view has claimed the log or not, and nothing else has become of it.
pub fn open_claims_or_not()
    ensures { OpenMoments }
{}

/// A view that isn't below the fencing token opens the log, unless a call of the disk failed or memory ran out.
pub fn open_is_refused_by_the_disk()
    ensures { OpenRefused }
{}

/// A view below the fencing token is refused, and nothing has changed.
pub fn fenced_open_changes_nothing()
    ensures { OpenFenced }
{}
