//! Laws of the definitions, each the contract of a function that does nothing.

ghost use Rattle.context_handles.specs.Laws.{HandlesDiffer, OpensOne};

/// No two serial numbers make the same handle, so a handle is given once.
pub fn handles_differ()
    ensures { HandlesDiffer }
{}

/// What was opened is found by its handle, in its group alone.
pub fn an_opened_handle_is_found()
    ensures { OpensOne }
{}
