//! The records of the update order.

ghost use Rattle.std.specs.Prelude.{◌≡◌, IfOk};
ghost use Rattle.update_records.specs.Entry.{record_text};

use std::alloc::{AllocError, Global};
use std::marker::Model;
use update_records::{Record, encode};
use wire_fields::Octets;

/// A record of the update order with its encoding.
#[derive(Debug, Drop)]
pub struct OrderedRecord {
    record: Record,
    encoding: Octets,
}

impl Model for OrderedRecord {
    ghost use Rattle.std.specs.Prelude.{◌≡◌};
    ghost use Rattle.update_records.specs.Entry.{Entry, record_text};

    ghost Value = { Entry };

    ghost view = { λ r. r.record };

    ghost invariant = { λ r. r.encoding ≡ record_text r.record };
}

impl OrderedRecord {
    pub(crate) fn new(alloc: Global, entry: &Record) -> Result<OrderedRecord, AllocError>
        ensures { IfOk result (λ ordered. ordered ≡ entry.now) }
    {
        let encoding = Octets::new(encode(alloc, entry)?);
        let record = entry.copy(alloc)?;
        Ok(OrderedRecord { record, encoding })
    }

    pub fn record(&self) -> &Record
        ensures { result.now ≡ self.now }
    {
        &self.record
    }

    pub fn encoding(&self) -> &Octets
        ensures { result.now ≡ record_text self.now }
    {
        &self.encoding
    }
}
