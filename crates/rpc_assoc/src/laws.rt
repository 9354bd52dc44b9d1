//! Laws of the definitions, each the contract of a function that does nothing.

ghost use Rattle.rpc_assoc.specs.Laws.{AcceptsAsTold};

/// The contexts on which calls are taken are those that the answers given so far accept.
pub fn contexts_are_accepted_as_told()
    ensures { AcceptsAsTold }
{}
