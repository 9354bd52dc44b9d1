ghost use Rattle.std.specs.Prelude.{◌≡◌, Ok, None, length};
ghost use Rattle.std.specs.Io.{WritesAtMost};
ghost use Rattle.causes.specs.Counts.{HasCause};
ghost use Rattle.causes.specs.Writing.{TakesSome, WroteFront};

use edge_io::{Failed, Sink};

/// Takes what is written, and keeps nothing of it.
#[derive(Drop)]
pub(crate) struct Nowhere;

impl Sink for Nowhere {
    ghost written = { λ _. None };

    ghost faults = { λ _. 0 };

    fn write(&mut self, bytes: &[u8]) -> Result<usize, Failed>
        ensures bound { WritesAtMost result bytes.now }
        ensures some { TakesSome result bytes.now }
        ensures bytes { WroteFront None None result bytes.now }
        ensures cause { HasCause 0 0 result }
    {
        Ok(bytes.len())
    }
}
