use gum_messages::MessageFault;
use std::alloc::AllocError;
use update_records::RecordFault;

/// Why bytes aren't read.
#[derive(Clone, Copy)]
pub(crate) enum ReadFault {
    Bad { place: usize },
    Memory,
}

impl From<AllocError> for ReadFault {
    fn from(_: AllocError) -> ReadFault {
        ReadFault::Memory
    }
}

impl From<RecordFault> for ReadFault {
    fn from(fault: RecordFault) -> ReadFault {
        match fault {
            RecordFault::Bad { place } => ReadFault::Bad { place },
            RecordFault::Memory => ReadFault::Memory,
        }
    }
}

impl From<MessageFault> for ReadFault {
    fn from(fault: MessageFault) -> ReadFault {
        match fault {
            MessageFault::Bad { place } => ReadFault::Bad { place },
            MessageFault::Memory => ReadFault::Memory,
        }
    }
}
