ghost use Rattle.std.specs.Prelude.{◌≡◌, ℕ, ◌+◌, ◌≤◌, List, ◌++◌, [], length, None, Some, Ok, IfOk, IfSome, Option, vec_capacity};
ghost use Rattle.std.specs.Option.{option_map};
ghost use Rattle.std.specs.Io.{WritesAtMost};
ghost use Rattle.causes.specs.Counts.{HasCause};
ghost use Rattle.causes.specs.Writing.{TakesSome, WroteFront};

use crate::{Failed, Sink};
use std::alloc::{AllocError, Global};
use std::marker::Model;

/// The bytes that a [`SureSink`] has room for.
const ROOM: usize = 16_777_216;

/// Keeps what is written, in room that it takes when it is made, so no write fails. Past that room it
/// still takes bytes, and no longer tells what was written.
#[derive(Debug, Drop)]
pub struct SureSink {
    kept: Option<Vec<u8>>,
}

impl Model for SureSink {
    ghost use Rattle.std.specs.Prelude.{ℕ, List, Option, IfSome, vec_capacity};
    ghost use Rattle.std.specs.Option.{option_map};
    ghost use Rattle.edge_io.specs.Supply.{IsRoomy};

    ghost Value = { Option (List ℕ) };

    ghost view = { λ s. option_map (λ bytes. bytes.items) s.kept };

    ghost invariant = { λ s. IfSome s.kept (λ bytes. IsRoomy (vec_capacity bytes) bytes.items) };
}

impl SureSink {
    pub fn new(alloc: Global) -> Result<SureSink, AllocError>
        ensures { IfOk result (λ sink. sink ≡ Some []) }
    {
        let bytes = Vec::with_capacity(alloc, ROOM)?;
        Ok(SureSink { kept: Some(bytes) })
    }

    /// All that was written, up to 16,777,216 bytes. None once more was written.
    pub fn written(&self) -> Option<&[u8]>
        ensures { option_map (λ bytes. bytes.now) result ≡ self.now }
    {
        match &self.kept {
            Some(bytes) => Some(bytes.as_slice()),
            None => None,
        }
    }
}

impl Sink for SureSink {
    ghost use Rattle.edge_io.specs.Supply.{kept_after};

    ghost written = { λ s. s };

    ghost faults = { λ _. 0 };

    fn write(&mut self, bytes: &[u8]) -> Result<usize, Failed>
        ensures bound { WritesAtMost result bytes.now }
        ensures some { TakesSome result bytes.now }
        ensures bytes { WroteFront self.old self.new result bytes.now }
        ensures cause { HasCause 0 0 result }
        ensures count { result ≡ Ok (length bytes.now) }
        ensures after { self.new ≡ kept_after self.old bytes.now }
    {
        if let Some(kept) = &mut self.kept {
            if bytes.len() <= ROOM - kept.len() {
                append(kept, bytes);
                return Ok(bytes.len());
            }
        }
        self.kept = None;
        Ok(bytes.len())
    }
}

/// Appends where there is room, so it takes no memory.
fn append(kept: &mut Vec<u8>, bytes: &[u8])
    requires { length kept.old.items + length bytes.now ≤ vec_capacity kept.old }
    ensures items { kept.new.items ≡ kept.old.items ++ bytes.now }
    ensures room { vec_capacity kept.old ≤ vec_capacity kept.new }
{
    match kept.extend_from_slice(bytes) {
        Ok(()) => {}
        Err(_) => unreachable!(),
    }
}
