ghost use Rattle.std.specs.Prelude.{◌≡◌};
ghost use Rattle.client_commands.specs.declared.command_fault.CommandFault.TheVariants.{Memory};

use std::alloc::AllocError;

/// Why a line is no command.
#[derive(Clone, Copy, Debug, PartialEq, Eq)]
pub enum CommandFault {
    /// The column of the first word that doesn't fit, from 1, or one past the line's end where words are missing.
    Column(u32),
    Memory,
}

impl From<AllocError> for CommandFault {
    ghost from_gives = { λ _ fault. fault ≡ Memory };

    fn from(_: AllocError) -> CommandFault {
        CommandFault::Memory
    }
}
