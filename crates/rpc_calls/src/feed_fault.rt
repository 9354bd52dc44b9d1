ghost use Rattle.std.specs.Prelude.{◌≡◌};
ghost use Rattle.rpc_calls.specs.declared.feed_fault.FeedFault.TheVariants.{Memory};

use std::alloc::AllocError;

/// Why a piece of a stream wasn't taken.
#[derive(Clone, Copy, Debug, PartialEq, Eq)]
pub enum FeedFault {
    /// Too many bytes are unprocessed: take items first.
    Backlog,
    /// Memory ran out.
    Memory,
}

impl From<AllocError> for FeedFault {
    ghost from_gives = { λ _ e. e ≡ Memory };

    fn from(_: AllocError) -> FeedFault {
        FeedFault::Memory
    }
}
