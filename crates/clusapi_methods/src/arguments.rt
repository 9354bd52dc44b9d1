//! The arguments of a call, checked.

ghost use Rattle.std.specs.Prelude.{◌≡◌, ◌≤◌, ◌++◌, length, IfOk};
ghost use Rattle.clus_names.specs.Limits.{IsPath, LacksZero};
ghost use Rattle.clus_names.specs.Parts.{text_of};
ghost use Rattle.clusapi_methods.specs.Checked.{IsName, IsSubkey, IsWithin};

use crate::statuses::{BAD_PATHNAME, INVALID_PARAMETER};
use clus_names::{Name, NameFault, Path, Units};
use std::alloc::{AllocError, Global};

const MOST_PATH_UNITS: usize = 1023;

/// The path of a subkey of the key at this path, or the status that refuses it.
pub(crate) fn subkey(
    alloc: Global,
    key: &Path,
    subkey: &Units,
) -> Result<Result<Path, u32>, AllocError>
    requires { LacksZero subkey.now }
    ensures { IfOk result (IsSubkey key.now subkey.now) }
{
    match Path::parse(alloc, subkey.as_slice()) {
        Ok(path) => Ok(within(key, path)),
        Err(NameFault::EmptyPart) => Ok(Err(BAD_PATHNAME)),
        Err(NameFault::TooLong) | Err(NameFault::PartTooLong) => Ok(Err(INVALID_PARAMETER)),
        Err(NameFault::Memory) => Err(AllocError),
    }
}

/// The path, where it isn't too long behind that of the key.
fn within(key: &Path, below: Path) -> Result<Path, u32>
    ensures { IsWithin key.now below result }
{
    if MOST_PATH_UNITS < key.joined_len(&below) {
        return Err(INVALID_PARAMETER);
    }
    Ok(below)
}

/// The name of a value. None where it is too long.
pub(crate) fn name(alloc: Global, name: &Units) -> Result<Option<Name>, AllocError>
    requires { LacksZero name.now }
    ensures { IfOk result (IsName name.now) }
{
    match Name::new(alloc, name.as_slice()) {
        Ok(name) => Ok(Some(name)),
        Err(NameFault::Memory) => Err(AllocError),
        Err(_) => Ok(None),
    }
}

/// The path of the key with the subkey behind it.
pub(crate) fn joined(alloc: Global, key: &Path, subkey: &Path) -> Result<Path, AllocError>
    requires { length (text_of (key.now ++ subkey.now)) ≤ 1023 }
    ensures { IfOk result (λ path. (path ≡ key.now ++ subkey.now) × IsPath path) }
{
    key.join(alloc, subkey).map_err(|_| AllocError)
}
