//! Laws of the definitions, each the contract of a function that does nothing.

ghost use Rattle.ndr_values.specs.Canonical.{IsSpelled};

/// What a writer appends spells the value that it was given, so a reader gives this value again.
pub fn canonical_is_read()
    ensures { IsSpelled }
{}
