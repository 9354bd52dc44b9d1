ghost use Rattle.std.specs.Prelude.{◌≡◌, IfOk};

use crate::update::Update;
use crate::update_id::UpdateId;
use std::alloc::{AllocError, Global};
use std::marker::Model;

/// An update at its place of the order. The place is 1 to 9,223,372,036,854,775,807 and the update is valid.
#[derive(Debug, Drop)]
pub struct Record {
    pub place: u64,
    /// In units of 100 nanoseconds from the beginning of 1601.
    pub stamp: u64,
    pub id: UpdateId,
    pub update: Update,
}

impl Model for Record {
    ghost use Rattle.update_records.specs.Entry.{Entry, IsPlaced};

    ghost Value = { Entry };

    ghost view = { λ entry. record { place = entry.place; stamp = entry.stamp; id = entry.id; update = entry.update } };

    ghost invariant = { λ entry. IsPlaced entry.place entry.update };
}

impl Record {
    pub fn copy(&self, alloc: Global) -> Result<Record, AllocError>
        ensures { IfOk result (λ copied. copied ≡ self.now) }
    {
        let update = self.update.copy(alloc)?;
        Ok(Record {
            place: self.place,
            stamp: self.stamp,
            id: self.id,
            update,
        })
    }
}
