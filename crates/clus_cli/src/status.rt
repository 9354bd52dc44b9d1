ghost use Rattle.std.specs.Prelude.{◌≡◌, IfOk, string_bytes};
ghost use Rattle.clus_cli.specs.Statuses.{bad_command_text, bad_script_text, number_of, text_of};

use script_player::ScriptFault;
use script_text::{bad_column, bad_event};
use std::alloc::{AllocError, Global};

/// How a run of the program ended.
#[derive(Clone, Copy, Debug, PartialEq, Eq)]
pub enum Status {
    /// The input was read to its end, or to what ends it, and all was written; or each connection
    /// was served.
    Done,
    /// That line of the script is bad; those before it were played.
    BadScript { line: u32, fault: ScriptFault },
    /// The words are no command.
    Usage,
    /// The input could not be read, or no further connection could be accepted.
    ReadFault,
    /// The output could not be written.
    WriteFault,
    /// A call of the disk failed.
    DiskFault,
    /// Memory ran out.
    NoMemory,
    /// The disk holds no log where one is needed, or one that is at fault at that place of its image.
    BadLog { place: u64 },
    /// The disk holds a greater fencing token than the command's.
    Fenced { held: u32 },
    /// The input has more bytes than the command takes.
    TooLong,
    /// That line of the input is no command of a client; those before it were carried out.
    BadCommand { line: u32, column: u32 },
    /// The peer's stream doesn't answer the client, from this place on; or it ends here, where more is awaited.
    BadReply { place: u64 },
    /// No connection was to come.
    NoPeer,
}

impl Status {
    /// The exit status of the process.
    pub fn number(&self) -> u8
        ensures { result ≡ number_of self.now }
    {
        match self {
            Status::Done => 0,
            Status::BadScript { .. } => 1,
            Status::Usage => 2,
            Status::ReadFault => 3,
            Status::WriteFault => 4,
            Status::DiskFault => 5,
            Status::NoMemory => 6,
            Status::BadLog { .. } => 7,
            Status::TooLong => 8,
            Status::Fenced { .. } => 9,
            Status::BadCommand { .. } => 12,
            Status::BadReply { .. } => 13,
            Status::NoPeer => 14,
        }
    }

    /// What the user is told, without a line feed.
    pub fn text(&self, alloc: Global) -> Result<String, AllocError>
        ensures { IfOk result (λ text. string_bytes text ≡ text_of self.now) }
    {
        match self {
            Status::Done => String::from_str(alloc, ""),
            Status::BadScript { line, fault } => bad_script(alloc, *line, fault),
            Status::Usage => String::from_str(
                alloc,
                "usage: mscs session [STAMP], serve ADDR COUNT [STAMP], replay, drill NUMBER EVENTS, format CAP, showlog",
            ),
            Status::ReadFault => String::from_str(alloc, "read fault"),
            Status::WriteFault => String::from_str(alloc, "write fault"),
            Status::DiskFault => String::from_str(alloc, "disk fault"),
            Status::NoMemory => String::from_str(alloc, "no memory"),
            Status::BadLog { place } => format!(in alloc; "bad log: place {place}"),
            Status::Fenced { held } => format!(in alloc; "fenced by claim {held}"),
            Status::TooLong => String::from_str(alloc, "script too long"),
            Status::BadCommand { line, column } => bad_command(alloc, *line, *column),
            Status::BadReply { place } => format!(in alloc; "bad reply: place {place}"),
            Status::NoPeer => String::from_str(alloc, "no peer"),
        }
    }
}

fn bad_script(alloc: Global, line: u32, fault: &ScriptFault) -> Result<String, AllocError>
    ensures { IfOk result (λ text. string_bytes text ≡ bad_script_text line fault.now) }
{
    match fault {
        ScriptFault::Column(column) => bad_column(alloc, line, *column),
        ScriptFault::Event(cause) => bad_event(alloc, line, cause),
    }
}

#[tactic(auto, unfolding(crate::specs::Statuses::bad_command_text))]
fn bad_command(alloc: Global, line: u32, column: u32) -> Result<String, AllocError>
    ensures { IfOk result (λ text. string_bytes text ≡ bad_command_text line column) }
{
    format!(in alloc; "bad command: line {line}, column {column}")
}
