//! What a log says of the update order.
use clus_registry::Registry;
use update_records::Record;

/// How many records the order has, its capacity, the last record, and the registry behind it.
#[derive(Drop)]
pub struct Recovered {
    pub count: u64,
    pub cap: u32,
    pub last: Option<Record>,
    pub registry: Registry,
}
