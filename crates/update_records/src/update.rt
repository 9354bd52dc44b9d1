ghost use Rattle.std.specs.Prelude.{◌≡◌, IfOk};

use crate::change::Change;
use crate::changes::Changes;
use clus_names::{Name, Path};
use std::alloc::{AllocError, Global};
use wire_fields::Octets;

/// What a record does to the registry: one change, or a batch of changes, all or none.
#[derive(Debug, Drop)]
pub enum Update {
    Create {
        key: Path,
        birth: u64,
        subkey: Path,
    },
    SetValue {
        key: Path,
        birth: u64,
        name: Name,
        kind: u32,
        bytes: Octets,
    },
    DeleteValue {
        key: Path,
        birth: u64,
        name: Name,
    },
    DeleteKey {
        key: Path,
        birth: u64,
        subkey: Path,
    },
    Batch {
        changes: Changes,
    },
}

impl From<Change> for Update {
    ghost use Rattle.update_records.specs.Spelling.{single};

    ghost from_gives = { λ change update. update ≡ single change };

    fn from(change: Change) -> Update {
        match change {
            Change::Create { key, birth, subkey } => Update::Create { key, birth, subkey },
            Change::SetValue {
                key,
                birth,
                name,
                kind,
                bytes,
            } => Update::SetValue {
                key,
                birth,
                name,
                kind,
                bytes,
            },
            Change::DeleteValue { key, birth, name } => Update::DeleteValue { key, birth, name },
            Change::DeleteKey { key, birth, subkey } => Update::DeleteKey { key, birth, subkey },
        }
    }
}

impl Update {
    pub fn copy(&self, alloc: Global) -> Result<Update, AllocError>
        ensures { IfOk result (λ copied. copied ≡ self.now) }
    {
        match self {
            Update::Create { key, birth, subkey } => Ok(Update::Create {
                key: key.copy(alloc)?,
                birth: *birth,
                subkey: subkey.copy(alloc)?,
            }),
            Update::SetValue {
                key,
                birth,
                name,
                kind,
                bytes,
            } => Ok(Update::SetValue {
                key: key.copy(alloc)?,
                birth: *birth,
                name: name.copy(alloc)?,
                kind: *kind,
                bytes: bytes.copy(alloc)?,
            }),
            Update::DeleteValue { key, birth, name } => Ok(Update::DeleteValue {
                key: key.copy(alloc)?,
                birth: *birth,
                name: name.copy(alloc)?,
            }),
            Update::DeleteKey { key, birth, subkey } => Ok(Update::DeleteKey {
                key: key.copy(alloc)?,
                birth: *birth,
                subkey: subkey.copy(alloc)?,
            }),
            Update::Batch { changes } => Ok(Update::Batch {
                changes: changes.copy(alloc)?,
            }),
        }
    }
}
