ghost use Rattle.std.specs.Prelude.{◌≡◌};

use registry_defs::Outcome;

pub const FILE_NOT_FOUND: u32 = 2;

pub const DISK_FULL: u32 = 112;

pub const KEY_DELETED: u32 = 1018;

pub const KEY_HAS_CHILDREN: u32 = 1020;

pub const CREATED_NEW_KEY: u32 = 1;

pub const OPENED_EXISTING_KEY: u32 = 2;

pub fn done() -> Outcome
    ensures { result ≡ record { status = 0; disposition = 0; birth = 0; index = 0 } }
{
    refused(0)
}

pub fn refused(status: u32) -> Outcome
    ensures { result ≡ record { status = status; disposition = 0; birth = 0; index = 0 } }
{
    Outcome {
        status,
        disposition: 0,
        birth: 0,
        index: 0,
    }
}

pub fn refused_at(index: u32, status: u32) -> Outcome
    ensures { result ≡ record { status = status; disposition = 0; birth = 0; index = index } }
{
    Outcome {
        status,
        disposition: 0,
        birth: 0,
        index,
    }
}

/// What a Create came to.
pub fn opened(disposition: u32, birth: u64) -> Outcome
    ensures { result ≡ record { status = 0; disposition = disposition; birth = birth; index = 0 } }
{
    Outcome {
        status: 0,
        disposition,
        birth,
        index: 0,
    }
}
