//! A chain and a member's way into a view, against values set by hand.

use crate::{Chain, ChainFault, Member, Reconcile, Step, View};
use std::test::Fail;

fn member(node: u16, inc: u64) -> Member {
    Member { node, inc }
}

#[test]
fn views_of_a_chain(rt: HostRuntime) -> Result<(), Fail> {
    let alloc = rt.alloc();
    let mut chain = Chain::new(alloc);
    let views = [
        (2, vec![in alloc; member(1, 1)]?, Err(ChainFault::NotNext)),
        (1, Vec::new(alloc), Err(ChainFault::Empty)),
        (1, vec![in alloc; member(1, 1), member(2, 3)]?, Ok(())),
        (2, vec![in alloc; member(1, 1)]?, Ok(())),
        (
            3,
            vec![in alloc; member(1, 1), member(2, 3)]?,
            Err(ChainFault::Returned { node: 2, inc: 3 }),
        ),
        (
            3,
            vec![in alloc; member(1, 1), member(2, 2)]?,
            Err(ChainFault::Returned { node: 2, inc: 2 }),
        ),
        (3, vec![in alloc; member(1, 2), member(2, 4)]?, Ok(())),
        (
            4,
            vec![in alloc; member(1, 1), member(2, 3)]?,
            Err(ChainFault::Returned { node: 1, inc: 1 }),
        ),
        (5, Vec::new(alloc), Err(ChainFault::NotNext)),
    ];
    for (number, members, expected) in views {
        let view = View::new(number, members).ok_or("refused")?;
        assert_eq!(rt; chain.declare(view), expected);
    }
    assert!(rt; chain.view(0).is_none());
    assert_eq!(rt; chain.view(3).ok_or("missing")?.number(), 3);
    assert!(rt; chain.view(4).is_none());
    Ok(())
}

#[test]
fn a_member_joins(rt: HostRuntime) -> Result<(), Fail> {
    let alloc = rt.alloc();
    let view = View::new(1, vec![in alloc; member(1, 1), member(2, 1)]?).ok_or("refused")?;
    let mut node = Reconcile::new(alloc, 2, 1);
    assert!(rt; node.install(&view)?);
    assert!(rt; !node.install(&view)?);
    assert_eq!(rt; node.offer(3, Some(3), Some(1)), Step::Pull { offset: 0 });
    assert_eq!(rt; node.piece(6, 0, b"four")?, Step::Pull { offset: 4 });
    assert_eq!(rt; node.tick(), Step::Pull { offset: 4 });
    assert_eq!(rt; node.offer(3, Some(3), Some(1)), Step::Pull { offset: 4 });
    assert_eq!(rt; node.piece(6, 4, b"more")?, Step::Whole);
    Ok(())
}
