ghost use Rattle.std.specs.Prelude.{◌≡◌};

use update_records::RecordFault;

/// Why bytes are not read as a message.
#[derive(Clone, Copy, Debug, PartialEq, Eq)]
pub enum MessageFault {
    /// They encode none; the first field at fault starts here.
    Bad { place: usize },
    Memory,
}

impl From<RecordFault> for MessageFault {
    ghost use Rattle.gum_messages.specs.Faults.{message_fault};

    ghost from_gives = { λ inner fault. fault ≡ message_fault inner };

    fn from(inner: RecordFault) -> MessageFault {
        match inner {
            RecordFault::Bad { place } => MessageFault::Bad { place },
            RecordFault::Memory => MessageFault::Memory,
        }
    }
}
