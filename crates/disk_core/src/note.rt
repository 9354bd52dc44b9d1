//! Notes of the calls of a disk in memory.

/// A call since the mark. What a write put stands in the store, `count` bytes from `from` on.
#[derive(Clone, Copy, Debug)]
pub enum Note {
    Wrote {
        at: u64,
        len: u64,
        from: usize,
        count: usize,
    },
    Synced,
    Claimed {
        number: u32,
    },
    Nothing,
}
