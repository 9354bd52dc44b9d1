ghost use Rattle.std.specs.Prelude.{OnOk, OnErr};
ghost use Rattle.causes.specs.Counts.{HasCause};
ghost use Rattle.causes.specs.Writing.{Wrote, WroteSome};

use crate::{Failed, Sink};

/// Writes all of `bytes`, or stops at the first write that fails, when a prefix of them is written.
pub fn write_whole<K: Sink>(sink: &mut K, bytes: &[u8]) -> Result<(), Failed>
    ensures whole { OnOk result (Wrote (K.written sink.old) (K.written sink.new) bytes.now) }
    ensures prefix { OnErr result (WroteSome (K.written sink.old) (K.written sink.new) bytes.now) }
    ensures cause { HasCause (K.faults sink.old) (K.faults sink.new) result }
{
    let mut done = 0;
    'pieces: while done < bytes.len() {
        done += sink.write(&bytes[done..])?;
    }
    Ok(())
}
