//! The names of the cluster and of a node.

ghost use Rattle.std.specs.Prelude.{◌≡◌, codes, IfOk};
ghost use Rattle.ndr_values.specs.Text.{text_of};
ghost use Rattle.registry_defs.specs.Contents.{keys_in};
ghost use Rattle.clusapi_methods.specs.Results.{cluster_name, node_name, units_in};
ghost use Rattle.clusapi_methods.specs.Sizes.{IsShortText};

use clus_names::{Name, Path, Units};
use clus_registry::Registry;
use std::alloc::{AllocError, Global};

/// The name of the cluster, which is empty where the registry tells none.
pub(crate) fn cluster_name(alloc: Global, registry: &Registry) -> Result<Units, AllocError>
    ensures name { IfOk result (λ name. name ≡ cluster_name (keys_in registry.now)) }
    ensures text { IfOk result IsShortText }
{
    let name = cluster_value(alloc)?;
    match registry.value(&Path::root(alloc), &name) {
        None => Ok(Units::new(Vec::new(alloc))),
        Some((_, bytes)) => Ok(Units::new(text_in(alloc, bytes)?)),
    }
}

fn cluster_value(alloc: Global) -> Result<Name, AllocError>
    ensures { IfOk result (λ name. name ≡ codes "ClusterName") }
{
    let units = [
        0x43, 0x6C, 0x75, 0x73, 0x74, 0x65, 0x72, 0x4E, 0x61, 0x6D, 0x65,
    ];
    Name::new(alloc, &units).map_err(|_| AllocError)
}

/// The little-endian units of a text, up to its first 0. An odd last byte is none.
fn text_in(alloc: Global, bytes: &[u8]) -> Result<Vec<u16>, AllocError>
    ensures { IfOk result (λ text. text.items ≡ text_of (units_in bytes.now)) }
{
    let mut text = Vec::new(alloc);
    let mut rest = bytes;
    'units: while let [low, high, behind @ ..] = rest {
        let unit = u16::from_le_bytes([*low, *high]);
        if unit == 0 {
            return Ok(text);
        }
        text.push(unit)?;
        rest = behind;
    }
    Ok(text)
}

/// The name of the node with this number.
pub(crate) fn node_name(alloc: Global, node: u16) -> Result<Units, AllocError>
    ensures name { IfOk result (λ name. name ≡ node_name node) }
    ensures text { IfOk result IsShortText }
{
    let name = format!(in alloc; "NODE{node}")?;
    Ok(Units::new(units_of(alloc, name.as_bytes())?))
}

/// ASCII bytes as units.
fn units_of(alloc: Global, bytes: &[u8]) -> Result<Vec<u16>, AllocError>
    ensures { IfOk result (λ units. units.items ≡ bytes.now) }
{
    bytes.iter().map(|byte| u16::from(*byte)).collect(alloc)
}
