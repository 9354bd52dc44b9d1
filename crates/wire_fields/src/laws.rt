//! Laws of the definitions, each the contract of a function that does nothing.

ghost use Rattle.std.specs.Prelude.{List, ℕ};
ghost use Rattle.wire_fields.specs.Numbers.{IsBytes, SpellsOneNumber};
ghost use Rattle.wire_fields.specs.declared.endian.Endian.{Endian};

/// In either byte order each list of bytes spells one number, and no other of its width.
pub fn one_number()
    ensures { (endian : Endian) (bytes : List ℕ) → IsBytes bytes → SpellsOneNumber endian bytes }
{}
