//! Where the parts of an image lie.
ghost use Rattle.std.specs.Prelude.{◌≡◌, ◌+◌, ◌*◌, ◌≤◌};
ghost use Rattle.quorum_log.specs.Layout as layout;

/// The bytes of the header.
pub(crate) const HEADER: usize = 64;

/// The longest record of a log, in bytes.
pub const MOST_RECORD: usize = 57_344;

/// The greatest number of records of a log.
pub const MOST_RECORDS: u64 = 9_223_372_036_854_775_807;

/// What the base field of a half of version 2 has more than the base.
pub(crate) const SECOND_VERSION: u64 = 9_223_372_036_854_775_808;

/// The size of the image of a log with that cap.
pub fn image_size(cap: u32) -> u64
    ensures { result ≡ layout.image_size cap }
{
    2 * cap as u64 + 655_424
}

pub(crate) fn half_size(cap: u32) -> u64
    ensures { result ≡ layout.half_size cap }
{
    cap as u64 + 327_680
}

/// Where the half begins.
pub(crate) fn half_at(cap: u32, half: u8) -> u64
    requires { half ≤ 1 }
    ensures { result ≡ layout.half_at cap half }
{
    if half == 0 { 64 } else { 64 + half_size(cap) }
}
