//! What follows from the definitions, each law as the contract of a function that does nothing.

ghost use Rattle.hive_text.specs.TextLaws.{NoTextIsAtFault, TextsAreOfOneRegistry};

/// Different registries have different texts.
pub fn texts_are_of_one_registry()
    ensures { TextsAreOfOneRegistry }
{}

/// A text at fault is that of no registry within the cap.
pub fn no_text_is_at_fault()
    ensures { NoTextIsAtFault }
{}
