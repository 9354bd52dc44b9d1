//! What follows from the definitions, each law as the contract of a function that does nothing.

ghost use Rattle.clus_names.specs.UnitTexts.{UnitsHaveOneText};

/// Different units have different texts, so what is printed is read as the same units.
pub fn units_have_one_text()
    ensures { UnitsHaveOneText }
{}
