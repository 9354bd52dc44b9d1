// Expected values are those of an independent program, which follows the table of the rounds in another language.

use crate::generate;
use sha2::{Digest, Sha256};
use std::test::Fail;

/// The lines of number 7 up to its third round.
const FRONT: &[u8] = b"cap 1048576
start 1
start 2
start 3
view 1 1.1 2.1 3.1
install 1 1
install 2 1
install 3 1
pump 100
connect 1 1
bind 1
request 1 28 3f000f00
connect 2 2
bind 2
request 2 28 3f000f00
connect 3 3
bind 3
request 3 28 3f000f00
tick 3
request 3 32 00000000030000000000000000000000000000010300000000000000030000005600350000000000040000000400000003c9000004000000
request 1 32 00000000010000000000000000000000000000010300000000000000030000005600390000000000040000000400000076a6000004000000
";

/// Its rounds 198 to 200.
const DEATH: &[u8] = b"tick 1
tick 2
die 1
start 1
view 3 1.2 2.2 3.1
install 1 3
install 2 3
install 3 3
pump 200
connect 5 1
bind 5
request 5 28 3f000f00
";

#[test]
fn a_number_gives_its_script(rt: HostRuntime) -> Result<(), Fail> {
    let script = generate(rt.alloc(), 7, 200)?;
    assert_eq!(rt; script.len(), 13_617);
    assert!(rt; script.as_slice().starts_with(FRONT));
    assert!(rt; script.as_slice().ends_with(DEATH));
    Ok(())
}

#[test]
fn every_line_counts(rt: HostRuntime) -> Result<(), Fail> {
    for (number, count, digest) in [
        (
            7,
            2_000,
            "5d7c22aaa601bd085938b17b502b42855746a2e5d934447ec98df5669ea64bd4",
        ),
        (
            u64::MAX,
            1_000,
            "7f519d2cc261f0fc3c1f1ac6d8091c6b36bc1f93d386765d55ec52743a8bdd85",
        ),
    ] {
        let script = generate(rt.alloc(), number, count)?;
        let found = hex::encode(rt.alloc(), Sha256::digest(script.as_slice()))?;
        assert_eq!(rt; found.as_str(), digest);
    }
    Ok(())
}
