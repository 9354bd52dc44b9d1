//! Binary searches in lists of strictly rising names.

ghost use Rattle.std.specs.Prelude.{IfOk, IfErr};
ghost use Rattle.clus_names.specs.Folding.{folded, name_cmp};
ghost use Rattle.registry_defs.specs.Nodes.{name_of};
ghost use Rattle.registry_defs.specs.Rising.{Rising};
ghost use Rattle.registry_tree.specs.Places.{IsAt, IsGap};
ghost use Rattle.registry_tree.specs.Values.{value_name, RisingValues};

use crate::key::Key;
use crate::value::Value;
use clus_names::cmp_folded;

/// Where the value with the name is, or where it would stand.
pub fn search_values(values: &[Value], name: &[u16]) -> Result<usize, usize>
    requires { RisingValues values.now }
    ensures found { IfOk result (λ at. IsAt value_name values.now (folded name.now) at) }
    ensures absent { IfErr result (λ at. IsGap value_name values.now (folded name.now) at) }
{
    values.binary_search_by(|value| cmp_folded(value.name.units(), name))
}

/// Where the key with the name is, or where it would stand.
pub fn search_keys(keys: &[Key], part: &[u16]) -> Result<usize, usize>
    requires { Rising name_cmp name_of keys.now }
    ensures found { IfOk result (λ at. IsAt name_of keys.now (folded part.now) at) }
    ensures absent { IfErr result (λ at. IsGap name_of keys.now (folded part.now) at) }
{
    keys.binary_search_by(|key| cmp_folded(key.part(), part))
}
