use cluster_worlds::BadEvent;

/// Why a line of a script is bad.
#[derive(Clone, Copy, Debug, PartialEq, Eq)]
pub enum ScriptFault {
    /// It is none, or stands where it may not stand, from this column on. Columns count from 1.
    Column(u32),
    /// The world refuses it.
    Event(BadEvent),
}
