ghost use Rattle.std.specs.Prelude.{◌≡◌, ◌≤◌, IfSome};
ghost use Rattle.causes.specs.Counts.{Rose};
ghost use Rattle.edge_io.specs.Reading.{ReadsAll, IsWithin};

use crate::{Failed, Source};
use std::alloc::Global;

/// What reading a source to its end came to.
#[derive(Debug, Drop)]
pub enum ReadAll {
    /// All that was left.
    Bytes(Vec<u8>),
    /// More was left than the caller would take.
    TooLong,
    /// A read failed.
    Failed,
    /// Memory ran out.
    Memory,
}

const PIECE: usize = 4096;

/// Reads a source to its end, piece by piece, and takes at most `most` bytes. No more than `most` + 1
/// bytes are read.
pub fn read_whole<S: Source>(alloc: Global, source: &mut S, most: usize) -> ReadAll
    ensures told { IfSome (S.left source.old) (λ left. ReadsAll left most result (S.left source.new)) }
    ensures small { IsWithin most result }
    ensures later { S.faults source.old ≤ S.faults source.new }
    ensures cause { result ≡ ReadAll.Failed → Rose (S.faults source.old) (S.faults source.new) }
{
    let mut buffer = [0u8; PIECE];
    let mut bytes = Vec::new(alloc);
    'pieces: loop {
        // One byte more than may still come shows that too many are left.
        let room = (most - bytes.len()).min(PIECE - 1) + 1;
        let count = match source.read(&mut buffer[..room]) {
            Ok(count) => count,
            Err(Failed) => return ReadAll::Failed,
        };
        if count == 0 {
            return ReadAll::Bytes(bytes);
        }
        if most - bytes.len() < count {
            return ReadAll::TooLong;
        }
        if bytes.extend_from_slice(&buffer[..count]).is_err() {
            return ReadAll::Memory;
        }
    }
}
