use crate::fake_files::{FakeDisk, FakeFiles};
use crate::{Disk, DiskFault, FileDisk};
use std::alloc::Global;
use std::io::ErrorKind;
use std::rc::Rc;
use std::test::Fail;

/// How many calls of the system the script makes where the file isn't there and none fails: two that find no file and
/// one that makes it, four writes, a sync, two for the folder, and five reads.
const CALLS: u32 = 15;

/// Claims, writes four bytes at 3, syncs, and reads five from 2 on.
fn play(alloc: Global, fake: &Rc<FakeDisk>) -> Result<Result<[u8; 5], DiskFault>, Fail> {
    let files = FakeFiles {
        disk: fake.clone()?,
    };
    let mut disk = FileDisk::at(&files, String::from_str(alloc, "folder/file")?);
    Ok(script(&mut disk))
}

fn script(disk: &mut FileDisk<'_, FakeFiles>) -> Result<[u8; 5], DiskFault> {
    let mut into = [9; 5];
    disk.claim(1)?;
    disk.write(1, 3, b"abcd")?;
    disk.sync(1)?;
    disk.read(2, &mut into)?;
    Ok(into)
}

/// Whether the script ends well where that call fails so once: an interrupted write, sync or read is made again, a file
/// that isn't found is made, and one that may not be written is opened to be read.
fn goes_on(call: u32, kind: ErrorKind) -> bool {
    match kind {
        ErrorKind::Interrupted => (4..=8).contains(&call) || (11..=CALLS).contains(&call),
        ErrorKind::NotFound | ErrorKind::PermissionDenied => call <= 2,
        _ => false,
    }
}

#[test]
fn a_file_disk_writes_all_and_syncs_the_file_and_its_folder(rt: HostRuntime) -> Result<(), Fail> {
    let fake = Rc::new(rt.alloc(), FakeDisk::new(false))?;
    let read = play(rt.alloc(), &fake)?;
    let counts = [
        fake.file_syncs.get(),
        fake.folder_syncs.get(),
        fake.unsynced.get(),
    ];
    assert_eq!(rt; read, Ok(*b"\0abcd"));
    assert_eq!(rt; counts, [1, 1, 0]);
    assert_eq!(rt; fake.calls.get(), CALLS);
    // Another process finds the file, and syncs the folder too.
    let again = play(rt.alloc(), &fake)?;
    let counts = [
        fake.file_syncs.get(),
        fake.folder_syncs.get(),
        fake.unsynced.get(),
    ];
    assert_eq!(rt; again, Ok(*b"\0abcd"));
    assert_eq!(rt; counts, [2, 2, 0]);
    Ok(())
}

#[test]
fn a_file_disk_answers_each_fault_of_the_system(rt: HostRuntime) -> Result<(), Fail> {
    for kind in [
        ErrorKind::Other,
        ErrorKind::Interrupted,
        ErrorKind::NotFound,
        ErrorKind::PermissionDenied,
        ErrorKind::StorageFull,
    ] {
        for call in 1..=CALLS {
            let fake = Rc::new(rt.alloc(), FakeDisk::new(false))?;
            fake.fail(call, 1, kind);
            let read = play(rt.alloc(), &fake)?;
            let wanted = if goes_on(call, kind) {
                Ok(*b"\0abcd")
            } else {
                Err(DiskFault::Failed)
            };
            assert_eq!(rt; read, wanted, "call {call} fails: {kind:?}");
        }
    }
    Ok(())
}

#[test]
fn a_file_that_may_not_be_written_is_read(rt: HostRuntime) -> Result<(), Fail> {
    let fake = Rc::new(rt.alloc(), FakeDisk::new(false))?;
    let _ = play(rt.alloc(), &fake)?;
    fake.writable.set(false);
    let files = FakeFiles {
        disk: fake.clone()?,
    };
    let mut disk = FileDisk::at(&files, String::from_str(rt.alloc(), "folder/file")?);
    let mut into = [9; 2];
    let done = [
        disk.read(3, &mut into),
        disk.write(0, 3, b"xy"),
        disk.read(3, &mut into),
    ];
    assert_eq!(rt; done, [Ok(()), Err(DiskFault::Failed), Ok(())]);
    assert_eq!(rt; into, *b"ab");
    Ok(())
}

#[test]
fn interrupted_calls_are_made_again_up_to_a_bound(rt: HostRuntime) -> Result<(), Fail> {
    for (first, times, ends) in [
        (4, 1_023, true),
        (4, 1_024, false),
        (8, 1_024, false),
        (11, 1_024, false),
    ] {
        let fake = Rc::new(rt.alloc(), FakeDisk::new(false))?;
        fake.fail(first, times, ErrorKind::Interrupted);
        let read = play(rt.alloc(), &fake)?;
        assert_eq!(rt; read.is_ok(), ends, "{times} times from call {first} on");
    }
    Ok(())
}
