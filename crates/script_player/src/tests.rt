//! How scripts end; what they print is shown by the rows of `script_rows`.

use super::*;
use cluster_worlds::BadEvent;
use edge_io::{SureSink, SureSource};
use std::alloc::Global;
use std::test::Fail;
use view_reconcile::ChainFault;

/// Plays the script, and gives what is printed with what came of it.
fn played(alloc: Global, script: &str) -> Result<(Replayed, Vec<u8>), Fail> {
    let mut input = SureSource::new(script.as_bytes().to_vec(alloc)?);
    let mut output = SureSink::new(alloc)?;
    let replayed = replay(alloc, &mut input, &mut output);
    let printed = output.written().unwrap_or(b"").to_vec(alloc)?;
    Ok((replayed, printed))
}

#[test]
fn scripts_print_and_end_as_told(rt: HostRuntime) -> Result<(), Fail> {
    for (script, want, end) in [
        ("# nothing\n", "end order 0 acks 0\n", Replayed::Done),
        (
            "cap 4096\nstart 1\nshow 1",
            "node 1 inc 1 view 0 closed done - state -\nend order 0 acks 0\n",
            Replayed::Done,
        ),
        (
            "cap 4096\nstart 1\nstart 2\nview 1 1.1 2.1\ninstall 1 1\nview 2 1.1\nview 3 1.1 2.1\n",
            "send 1 offer 1 1 2 0\n",
            Replayed::BadScript {
                line: 7,
                fault: ScriptFault::Event(BadEvent::Chain(ChainFault::Returned {
                    node: 2,
                    inc: 1,
                })),
            },
        ),
        (
            "\nstart 1\n",
            "",
            Replayed::BadScript {
                line: 2,
                fault: ScriptFault::Column(1),
            },
        ),
    ] {
        let (replayed, printed) = played(rt.alloc(), script)?;
        assert_eq!(rt; printed.as_slice(), want.as_bytes(), "{script}");
        assert_eq!(rt; replayed, end, "{script}");
    }
    Ok(())
}
