//! What follows from the definitions, each law as the contract of a function that does nothing.

ghost use Rattle.registry_defs.specs.Enumeration.{SubkeysAreCounted, ValuesAreCounted};

/// The n-th subkey or value is the one with exactly n smaller ones.
pub fn nth_has_so_many_smaller()
    ensures subkeys { SubkeysAreCounted }
    ensures values { ValuesAreCounted }
{}
