use super::*;
use clus_names::Path;
use ndr_values::WireHandle;
use std::alloc::Global;
use std::test::Fail;
use uuid::Uuid;

fn root(alloc: Global, birth: u64) -> Held {
    Held {
        kind: Kind::Key,
        path: Path::root(alloc),
        birth,
    }
}

// The handle of node 3 with this serial number.
fn sent(serial: u8) -> WireHandle {
    WireHandle {
        attributes: 0,
        id: Uuid::from_bytes([0, 0, 0, 3, 0, 0, 0, 0, 0, 0, 0, 0, 0, 0, 0, serial]),
    }
}

fn birth_of(held: Option<&Held>) -> Option<u64> {
    held.map(|held| held.birth)
}

fn wire(attributes: u32, id: Uuid) -> WireHandle {
    WireHandle { attributes, id }
}

#[test]
fn a_handle_is_found_in_its_group_alone_until_it_is_closed(rt: HostRuntime) -> Result<(), Fail> {
    let alloc = rt.alloc();
    let mut handles = Handles::new(alloc, 3);
    let groups = [handles.join_group(0)?, handles.join_group(0)?];
    let opened = [
        handles.open(1, root(alloc, 7))?,
        handles.open(2, root(alloc, 9))?,
    ];
    assert_eq!(rt; groups, [Some(1), Some(2)]);
    assert_eq!(rt; opened, [sent(1), sent(2)]);
    assert_eq!(rt; handles.serials(), 2);
    for (group, handle, birth) in [
        (1, sent(1), Some(7)),
        (2, sent(1), None),
        (1, sent(2), None),
        (2, sent(2), Some(9)),
        (2, sent(3), None),
        (2, wire(1, sent(2).id), None),
        (2, wire(0, Uuid::from_bytes([0; 16])), None),
    ] {
        assert_eq!(rt; birth_of(handles.find(group, &handle)), birth);
    }
    let closed = [
        handles.close(2, &sent(1)),
        handles.close(1, &sent(1)),
        handles.close(1, &sent(1)),
    ];
    assert_eq!(rt; closed, [false, true, false]);
    assert!(rt; handles.find(1, &sent(1)).is_none());
    Ok(())
}

#[test]
fn a_group_ends_with_its_last_connection(rt: HostRuntime) -> Result<(), Fail> {
    let alloc = rt.alloc();
    let mut handles = Handles::new(alloc, 3);
    let joined = [
        handles.join_group(1)?,
        handles.join_group(0)?,
        handles.join_group(1)?,
    ];
    let opened = handles.open(1, root(alloc, 7))?;
    handles.leave(1);
    let one_left = birth_of(handles.find(1, &sent(1)));
    handles.leave(1);
    let none_left = birth_of(handles.find(1, &sent(1)));
    let later = [handles.join_group(1)?, handles.join_group(0)?];
    assert_eq!(rt; joined, [None, Some(1), Some(1)]);
    assert_eq!(rt; [one_left, none_left], [Some(7), None]);
    assert_eq!(rt; later, [None, Some(2)]);
    assert_eq!(rt;
        [opened, handles.open(2, root(alloc, 7))?],
        [sent(1), sent(2)]
    );
    Ok(())
}
