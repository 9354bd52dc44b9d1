//! What a locker offers.

use update_records::Record;

/// How many records the locker's log has, its capacity, and the last record.
#[derive(Debug, Drop)]
pub struct Offering {
    pub count: u64,
    pub cap: u32,
    pub last: Option<Record>,
}
