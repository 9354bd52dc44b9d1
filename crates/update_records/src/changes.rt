ghost use Rattle.std.specs.Prelude.{◌≡◌, IfOk};

use crate::change::Change;
use std::alloc::{AllocError, Global};
use std::marker::Model;

/// The changes of a batch, which contracts see as a list.
#[derive(Debug, Drop)]
pub struct Changes {
    items: Vec<Change>,
}

impl Model for Changes {
    ghost use Rattle.std.specs.Prelude.{List};
    ghost use Rattle.update_records.specs.declared.change.Change.{Change};

    ghost Value = { List Change };

    ghost view = { λ changes. changes.items.items };
}

impl Changes {
    pub fn new(items: Vec<Change>) -> Changes
        ensures { result ≡ items.items }
    {
        Changes { items }
    }

    pub fn as_slice(&self) -> &[Change]
        ensures { result.now ≡ self.now }
    {
        self.items.as_slice()
    }

    pub fn copy(&self, alloc: Global) -> Result<Changes, AllocError>
        ensures { IfOk result (λ copied. copied ≡ self.now) }
    {
        let mut items = Vec::new(alloc);
        for change in self.items.as_slice() {
            items.push(change.copy(alloc)?)?;
        }
        Ok(Changes { items })
    }
}
