ghost use Rattle.std.specs.Prelude.{◌≡◌};

use crate::halt::Halt;

/// What came of a client's commands.
#[derive(Clone, Copy, Debug, PartialEq, Eq)]
pub enum Asked {
    /// Each was carried out.
    Done,
    /// The input couldn't be read, no connection be accepted, or the connection not be read.
    ReadFault,
    /// The output or the connection couldn't be written.
    WriteFault,
    /// Memory ran out.
    NoMemory,
    /// The input has more than 16,777,216 bytes. Nothing was sent.
    TooLong,
    /// The line is outside the grammar; those before it were carried out. Both count from 1.
    BadCommand { line: u32, column: u32 },
    /// The peer's stream doesn't answer the client, from this place on; or it ends here, where more is awaited.
    BadReply { place: u64 },
    /// No connection was to come.
    NoPeer,
}

impl From<Halt> for Asked {
    ghost use Rattle.asking.specs.Conversations.{asked_by};

    ghost from_gives = { λ halt asked. asked ≡ asked_by halt };

    fn from(halt: Halt) -> Asked {
        match halt {
            Halt::ReadFault => Asked::ReadFault,
            Halt::WriteFault => Asked::WriteFault,
            Halt::NoMemory => Asked::NoMemory,
            Halt::BadReply { place } => Asked::BadReply { place },
        }
    }
}
