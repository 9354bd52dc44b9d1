use crate::{CrashDisk, Disk, DiskFault, FileDisk, MemDisk};
use std::alloc::Global;
use std::fs;
use std::test::Fail;

/// What a crash after so many of these calls leaves: a claim, a write of 1 to 3, a sync, a write at 2
/// that fails, a write of 5 and 6.
fn left_by_crash(alloc: Global, moment: u32, bytes: &[u8]) -> Result<[u8; 8], Fail> {
    let mut disk = MemDisk::new(alloc, 16)?;
    disk.claim(1)?;
    disk.write(1, 1, &[1, 2, 3])?;
    disk.sync(1)?;
    disk.fail_in(1);
    let _ = disk.write(1, 2, &[7, 7, 7, 7]);
    disk.write(1, 5, &[5, 6])?;
    disk.crash(moment, bytes);
    let mut image = [0; 8];
    disk.read(0, &mut image)?;
    Ok(image)
}

#[test]
fn a_crash_leaves_any_bytes_in_what_is_pending(rt: HostRuntime) -> Result<(), Fail> {
    let zeros = [0u8; 6].as_slice();
    let ones = [255u8; 6].as_slice();
    for (moment, bytes, image) in [
        (0, ones, [0, 0, 0, 0, 0, 0, 0, 0]),
        (1, ones, [0, 0, 0, 0, 0, 0, 0, 0]),
        (2, &ones[..1], [0, 255, 2, 3, 0, 0, 0, 0]),
        (3, ones, [0, 1, 2, 3, 0, 0, 0, 0]),
        (4, &ones[..3], [0, 1, 255, 255, 255, 0, 0, 0]),
        (5, &ones[..0], [0, 1, 7, 7, 0, 5, 6, 0]),
        (5, zeros, [0, 1, 0, 0, 0, 0, 0, 0]),
        (5, ones, [0, 1, 255, 255, 255, 255, 255, 0]),
        (6, [8u8, 8, 8, 8, 9].as_slice(), [0, 1, 8, 8, 8, 9, 6, 0]),
    ] {
        assert_eq!(rt;
            left_by_crash(rt.alloc(), moment, bytes)?,
            image,
            "after {moment} calls"
        );
    }
    Ok(())
}

#[test]
fn calls_fail_as_planned(rt: HostRuntime) -> Result<(), Fail> {
    let mut disk = MemDisk::new(rt.alloc(), 4)?;
    let mut image = [9; 4];
    disk.fail_in(2);
    let told = [
        disk.read(0, &mut image),
        disk.claim(3),
        disk.claim(3),
        disk.sync(2),
        disk.write(3, 0, &[1, 2, 3, 4]),
        disk.write(3, 0, &[5]),
    ];
    let wanted = [
        Ok(()),
        Err(DiskFault::Failed),
        Ok(()),
        Err(DiskFault::Fenced { held: 3 }),
        Ok(()),
        // past the room
        Err(DiskFault::Failed),
    ];
    assert_eq!(rt; told, wanted);
    assert_eq!(rt; disk.size(), 4);
    assert_eq!(rt; [disk.held(), disk.calls()], [3, 4]);
    assert_eq!(rt; image, [0; 4]);
    disk.mark();
    let full = disk.write(3, 0, &[5]);
    let synced = disk.sync(3);
    disk.mark();
    let told = [full, synced, disk.write(3, 0, &[5])];
    // pending bytes take room until they are synced
    assert_eq!(rt; told, [Err(DiskFault::Failed), Ok(()), Ok(())]);
    assert_eq!(rt; disk.faults(), 3);
    Ok(())
}

const PATH: &str = "disk_core_test.img";

/// A new file is made by the first write; four of its bytes are read before it, and four behind it by another disk.
#[test]
fn a_file_keeps_what_is_written(rt: HostRuntime) -> Result<(), Fail> {
    let _ = fs::remove_file(&rt, PATH);
    let mut disk = FileDisk::at(&rt, String::from_str(rt.alloc(), PATH)?);
    let (mut before, mut behind) = ([9; 4], [9; 4]);
    let first = [disk.claim(4), disk.read(3, &mut before), disk.sync(4)];
    let made = fs::exists(&rt, PATH)?;
    let second = [
        disk.write(3, 5, b"abc"),
        disk.write(4, 5, b"abc"),
        disk.sync(4),
    ];
    let length = fs::metadata(&rt, PATH)?.len();
    let mut other = FileDisk::at(&rt, String::from_str(rt.alloc(), PATH)?);
    let third = other.read(6, &mut behind);
    fs::remove_file(&rt, PATH)?;
    assert_eq!(rt; first, [Ok(()), Ok(()), Ok(())]);
    assert!(rt; !made);
    assert_eq!(rt;
        second,
        [Err(DiskFault::Fenced { held: 4 }), Ok(()), Ok(())]
    );
    assert_eq!(rt; third, Ok(()));
    assert_eq!(rt; [before, behind], [[0; 4], *b"bc\0\0"]);
    assert_eq!(rt; [length, other.size()], [8, 1_099_511_627_776]);
    Ok(())
}

#[test]
fn a_folder_is_no_disk(rt: HostRuntime) -> Result<(), Fail> {
    let mut folder = FileDisk::at(&rt, String::from_str(rt.alloc(), ".")?);
    assert_eq!(rt; folder.read(0, &mut [9; 4]), Err(DiskFault::Failed));
    Ok(())
}
