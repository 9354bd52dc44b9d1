ghost use Rattle.std.specs.Prelude.{◌≡◌, IsTrue, ◌↔◌};
ghost use Rattle.clus_names.specs.Folding.{folded_unit, folded, name_cmp};

use std::cmp::Ordering;

fn folded_unit(unit: u16) -> u16
    ensures { result ≡ folded_unit unit }
{
    if 0x41 <= unit && unit <= 0x5A {
        unit + 0x20
    } else {
        unit
    }
}

/// The order in which names are enumerated.
pub fn cmp_folded(left: &[u16], right: &[u16]) -> Ordering
    ensures { result ≡ name_cmp (folded left.now) (folded right.now) }
{
    left.iter()
        .map(|unit| folded_unit(*unit))
        .cmp(right.iter().map(|unit| folded_unit(*unit)))
}

pub fn same_folded(left: &[u16], right: &[u16]) -> bool
    ensures { IsTrue result ↔ (folded left.now ≡ folded right.now) }
{
    cmp_folded(left, right).is_eq()
}
