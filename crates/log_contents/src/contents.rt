ghost use Rattle.std.specs.Prelude.{◌≡◌};

use clus_registry::Registry;
use std::marker::Model;
use update_records::Record;

/// The contents of a log, decoded.
#[derive(Drop)]
pub struct LogContents {
    /// What the records up to the base made.
    pub registry: Registry,
    /// The record at the base, if there is one.
    pub last: Option<Record>,
    /// Those behind the base.
    pub records: Records,
}

/// Records in the update order, which contracts see as a list.
#[derive(Debug, Drop)]
pub struct Records {
    items: Vec<Record>,
}

impl Model for Records {
    ghost use Rattle.std.specs.Prelude.{List};
    ghost use Rattle.update_records.specs.Entry.{Entry};

    ghost Value = { List Entry };

    ghost view = { λ records. records.items.items };
}

impl Records {
    pub fn new(items: Vec<Record>) -> Records
        ensures { result ≡ items.items }
    {
        Records { items }
    }

    pub fn as_slice(&self) -> &[Record]
        ensures { result.now ≡ self.now }
    {
        self.items.as_slice()
    }

    pub fn into_vec(self) -> Vec<Record>
        ensures { result.items ≡ self }
    {
        let Records { items } = self;
        items
    }
}
