ghost use Rattle.std.specs.Prelude.{◌≡◌, IfOk};

use clus_names::{Name, Path};
use std::alloc::{AllocError, Global};
use wire_fields::Octets;

/// A change of the registry.
#[derive(Debug, Drop)]
pub enum Change {
    /// Makes the key below `key`, and what is missing on the way.
    Create {
        key: Path,
        birth: u64,
        subkey: Path,
    },
    SetValue {
        key: Path,
        birth: u64,
        name: Name,
        kind: u32,
        bytes: Octets,
    },
    DeleteValue {
        key: Path,
        birth: u64,
        name: Name,
    },
    DeleteKey {
        key: Path,
        birth: u64,
        subkey: Path,
    },
}

impl Change {
    pub fn copy(&self, alloc: Global) -> Result<Change, AllocError>
        ensures { IfOk result (λ copied. copied ≡ self.now) }
    {
        match self {
            Change::Create { key, birth, subkey } => Ok(Change::Create {
                key: key.copy(alloc)?,
                birth: *birth,
                subkey: subkey.copy(alloc)?,
            }),
            Change::SetValue {
                key,
                birth,
                name,
                kind,
                bytes,
            } => Ok(Change::SetValue {
                key: key.copy(alloc)?,
                birth: *birth,
                name: name.copy(alloc)?,
                kind: *kind,
                bytes: bytes.copy(alloc)?,
            }),
            Change::DeleteValue { key, birth, name } => Ok(Change::DeleteValue {
                key: key.copy(alloc)?,
                birth: *birth,
                name: name.copy(alloc)?,
            }),
            Change::DeleteKey { key, birth, subkey } => Ok(Change::DeleteKey {
                key: key.copy(alloc)?,
                birth: *birth,
                subkey: subkey.copy(alloc)?,
            }),
        }
    }
}
