use crate::script_fault::ScriptFault;

/// What came of a script.
#[derive(Clone, Copy, Debug, PartialEq, Eq)]
pub enum Replayed {
    /// All of its lines were played.
    Done,
    /// This line is bad, and those before it were played. Lines count from 1.
    BadScript { line: u32, fault: ScriptFault },
    /// The input couldn't be read.
    ReadFault,
    /// The output couldn't be written.
    WriteFault,
    /// Memory ran out.
    NoMemory,
    /// The input has more than 16,777,216 bytes. Nothing was played.
    TooLong,
}
