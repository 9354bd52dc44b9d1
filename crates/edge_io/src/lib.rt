//! The edge of the program: bytes that come in and bytes that go out.
//!
//! [`Source`] and [`Sink`] say what a read and a write of the outside mean, so that everything above
//! is proved for any of them. In memory there are [`BytesSource`] and [`BytesSink`], whose calls fail
//! where a test asks for it, and [`SureSource`] and [`SureSink`], whose calls never fail.
//! [`StdSource`] and [`StdSink`] stand over std's readers and writers and are trusted.
//!
//! [`StandardStreams`] keeps the descriptors of streams that were closed from files and connections.
//!
//! A [`Door`] hands out connections one after another: [`ScriptDoor`] those that a test lists, and
//! [`TcpDoor`] those that come to a TCP address, which is trusted too.
#![tactic(auto)]

mod again;
mod bytes_sink;
mod bytes_source;
mod door;
mod failed;
#[cfg(test)]
mod fake_net;
mod fault_plan;
mod reading;
mod script_door;
mod script_visit;
mod sink;
mod source;
mod standard;
mod std_sink;
mod std_source;
mod sure_sink;
mod sure_source;
mod tcp_door;
#[cfg(test)]
mod tcp_tests;
#[cfg(test)]
mod tests;
mod writing;

pub use bytes_sink::BytesSink;
pub use bytes_source::BytesSource;
pub use door::Door;
pub use failed::Failed;
pub use reading::{ReadAll, read_whole};
pub use script_door::ScriptDoor;
pub use script_visit::ScriptVisit;
pub use sink::Sink;
pub use source::Source;
pub use standard::StandardStreams;
pub use std_sink::StdSink;
pub use std_source::StdSource;
pub use sure_sink::SureSink;
pub use sure_source::SureSource;
pub use tcp_door::TcpDoor;
pub use writing::write_whole;
