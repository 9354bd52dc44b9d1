//! What an image of a log holds.
ghost use Rattle.std.specs.Prelude.{◌≡◌, ◌<◌, ◌≤◌, ◌^◌};
ghost use Rattle.quorum_log.specs.Image.{tail_of};

use crate::layout::half_at;
use std::marker::Model;
use wire_fields::Octets;

/// What the current half of an image holds, with the places where its parts start.
#[derive(Debug, Drop)]
pub struct Found {
    pub version: u32,
    pub cap: u32,
    pub half: u8,
    pub generation: u64,
    /// How many records were logged before those of this half.
    pub base: u64,
    pub state_at: u64,
    pub state: Octets,
    pub last_at: u64,
    pub last: Octets,
    pub records: FoundRecords,
}

impl Found {
    /// Where the commit byte behind the records stands.
    pub(crate) fn tail(&self) -> u64
        requires half { self.now.half ≤ 1 }
        requires small { tail_of self.now < 2 ^ 63 }
        ensures { result ≡ tail_of self.now }
    {
        let start = half_at(self.cap, self.half);
        let mut at = start
            + 25
            + self.state.as_slice().len() as u64
            + self.last.as_slice().len() as u64;
        let records = self.records.as_slice();
        'records: for record in records {
            at += 5 + record.bytes.as_slice().len() as u64;
        }
        at
    }
}

/// A record of an image, and the place where its bytes start.
#[derive(Debug, Drop)]
pub struct FoundRecord {
    pub at: u64,
    pub bytes: Octets,
}

/// The records of an image in their order.
#[derive(Debug, Drop)]
pub struct FoundRecords {
    items: Vec<FoundRecord>,
}

impl Model for FoundRecords {
    ghost use Rattle.std.specs.Prelude.{List};
    ghost use Rattle.quorum_log.specs.declared.found.FoundRecord.{FoundRecord};

    ghost Value = { List FoundRecord };

    ghost view = { λ records. records.items.items };
}

impl FoundRecords {
    pub fn new(items: Vec<FoundRecord>) -> FoundRecords
        ensures { result ≡ items.items }
    {
        FoundRecords { items }
    }

    pub fn as_slice(&self) -> &[FoundRecord]
        ensures { result.now ≡ self.now }
    {
        self.items.as_slice()
    }
}
