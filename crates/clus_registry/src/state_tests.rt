//! Which bytes are read as a registry, and which field of all others is at fault.

ghost use Rattle.std.specs.Prelude.{◌<◌, ◌≤◌};
ghost use Rattle.registry_defs.specs.Contents.{IsCap};

use crate::{Registry, StateBuild, StateFault};
use std::alloc::{AllocError, Global};
use std::test::Fail;
use wire_fields::{Endian, Put};

/// A root that was changed at time 5, with the values `V` and `W`, the subkeys `A` and `ab`, and `c` below `ab`.
const STATE: [u8; 120] = [
    0, 0, 0, 0, 0, 0, 0, 0x80, 5, 0, 0, 0, 0, 0, 0, 0, 2, 0, 0, 0, // 0: the root
    1, 0, 0x56, 0, 3, 0, 0, 0, 2, 0, 0, 0, 7, 7, // 20: the value `V`
    1, 0, 0x57, 0, 4, 0, 0, 0, 0, 0, 0, 0, 2, 0, 0, 0, // 34: the value `W`, and two subkeys
    1, 0, 0x41, 0, 1, 0, 0, 0, 0, 0, 0, 0, 0, 0, 0, 0, 0, 0, 0, 0, // 50: the key `A`
    2, 0, 0x61, 0, 0x62, 0, 2, 0, 0, 0, 0, 0, 0, 0, 0, 0, 0, 0, 1, 0, 0, 0, // 70: the key `ab`
    1, 0, 0x63, 0, 3, 0, 0, 0, 0, 0, 0, 0x80, 9, 0, 0, 0, 0, 0, 0, 0, 0, 0, 0, 0, 0, 0, 0, 0, // 92: the key `c`
];

/// Bytes of the state that are others, and the place of the first field at fault.
const EDITED: [(&'static [(usize, u8)], usize); 29] = [
    // a root that was created
    (&[(0, 1)], 0),
    (&[(6, 1)], 0),
    // a written time of 0
    (&[(8, 0)], 8),
    (&[(104, 0)], 104),
    // more values than there are
    (&[(16, 3)], 48),
    (&[(62, 1)], 72),
    (&[(19, 0xFF)], 48),
    // names of values: 1,024 units, 1,023 of which too few are there, a unit of 0
    (&[(20, 0), (21, 4)], 20),
    (&[(20, 0xFF), (21, 3)], 22),
    (&[(22, 0)], 22),
    // names that aren't above the one before: less, the same, the same in the other case
    (&[(36, 0x55)], 36),
    (&[(36, 0x56)], 36),
    (&[(36, 0x76)], 36),
    // data of 49,153 bytes, and 49,152 of which too few are there
    (&[(28, 1), (29, 0xC0)], 28),
    (&[(28, 0), (29, 0xC0)], 32),
    // more subkeys than there are
    (&[(46, 3)], 120),
    (&[(49, 0xFF)], 120),
    (&[(116, 1)], 120),
    // names of keys: none, 256 units, 255 of which too few are there, a unit of 0, a separator
    (&[(50, 0)], 50),
    (&[(50, 0), (51, 1)], 50),
    (&[(50, 0xFF)], 52),
    (&[(52, 0)], 52),
    (&[(52, 0x5C)], 52),
    (&[(74, 0x5C)], 72),
    // less than the one before, in whatever case
    (&[(72, 0x40)], 72),
    (&[(52, 0x63)], 72),
    // keys that were never created
    (&[(54, 0)], 54),
    (&[(54, 0), (61, 0x80)], 54),
    (&[(96, 0)], 96),
];

/// How many bytes of the state are there, and the field that is cut off.
const CUT: [(usize, usize); 20] = [
    (0, 0),
    (7, 0),
    (15, 8),
    (19, 16),
    (21, 20),
    (23, 22),
    (27, 24),
    (31, 28),
    (33, 32),
    (35, 34),
    (45, 42),
    (49, 46),
    (51, 50),
    (53, 52),
    (61, 54),
    (65, 62),
    (69, 66),
    (75, 72),
    (111, 104),
    (119, 116),
];

fn edited(alloc: Global, edits: &[(usize, u8)]) -> Result<Vec<u8>, AllocError> {
    let mut bytes = STATE.to_vec(alloc)?;
    for (at, byte) in edits {
        if *at < bytes.len() {
            bytes[*at] = *byte;
        }
    }
    Ok(bytes)
}

/// Where the first field at fault starts, if there is one.
fn place_in<T: Drop>(told: Result<T, StateFault>) -> Result<Option<usize>, Fail> {
    match told {
        Ok(_) => Ok(None),
        Err(StateFault::Bad { place }) => Ok(Some(place)),
        Err(StateFault::Memory) => Err(Fail::new("no memory")),
    }
}

/// The place that the last piece of so many bytes is refused with, and the one that all of them give.
fn faults_in_pieces(
    alloc: Global,
    bytes: &[u8],
    cap: u32,
    count: usize,
) -> Result<[Option<usize>; 2], Fail>
    requires range { IsCap cap }
    requires some { 0 < count }
{
    let mut build = StateBuild::new(alloc, cap);
    let mut refused = None;
    for piece in bytes.chunks(count) {
        let place = place_in(build.feed(piece))?;
        if refused.is_some() && place != refused {
            return Err(Fail::new("another fault behind the first"));
        }
        refused = place;
    }
    Ok([refused, place_in(build.finish())?])
}

/// The same, where the whole bytes and pieces of 1 and 7 give one place.
fn fault_in(alloc: Global, bytes: &[u8], cap: u32) -> Result<Option<usize>, Fail>
    requires range { IsCap cap }
{
    let place = place_in(Registry::from_bytes(alloc, bytes, cap))?;
    let [_, by_one] = faults_in_pieces(alloc, bytes, cap, 1)?;
    let [_, by_seven] = faults_in_pieces(alloc, bytes, cap, 7)?;
    if by_one != place || by_seven != place {
        return Err(Fail::new("another fault in pieces"));
    }
    Ok(place)
}

/// How many bytes wait after each piece of so many, and the state that is written again.
fn in_pieces(alloc: Global, bytes: &[u8], count: usize) -> Result<(Vec<u32>, Vec<u8>), Fail>
    requires some { 0 < count }
{
    let mut build = StateBuild::new(alloc, 65_536);
    let mut pending = Vec::new(alloc);
    for piece in bytes.chunks(count) {
        build.feed(piece)?;
        pending.push(build.pending())?;
    }
    Ok((pending, build.finish()?.to_bytes()?))
}

fn again(alloc: Global, bytes: &[u8]) -> Result<Vec<u8>, Fail> {
    Ok(Registry::from_bytes(alloc, bytes, 16_777_216)?.to_bytes()?)
}

#[test]
fn a_state_is_read_and_written_again(rt: HostRuntime) -> Result<(), Fail> {
    let alloc = rt.alloc();
    assert_eq!(rt; again(alloc, &STATE)?.as_slice(), STATE.as_slice());
    for count in [1, 7] {
        assert_eq!(rt;
            in_pieces(alloc, &STATE, count)?.1.as_slice(),
            STATE.as_slice()
        );
    }
    Ok(())
}

/// A root with the values `V` of 4,972 bytes and `W` of 4,988.
#[test]
fn a_state_in_three_pieces(rt: HostRuntime) -> Result<(), Fail> {
    let alloc = rt.alloc();
    let mut put = Put::new(alloc, Endian::Little);
    put.u64(0)?;
    put.u32(2)?;
    for (name, count) in [(0x56, 4972), (0x57, 4988)] {
        put.u16(1)?;
        put.u16(name)?;
        put.u32(3)?;
        put.u32(count)?;
        put.bytes(&vec![in alloc; 7u8; count as usize]?)?;
    }
    put.u32(0)?;
    let bytes = put.into_bytes();
    assert_eq!(rt; bytes.len(), 10_000);
    let (pending, written) = in_pieces(alloc, &bytes, 4096)?;
    assert_eq!(rt; pending.as_slice(), [4084, 3196, 0].as_slice());
    assert_eq!(rt; written.as_slice(), bytes.as_slice());
    Ok(())
}

#[test]
fn states_with_a_field_at_fault(rt: HostRuntime) -> Result<(), Fail> {
    let alloc = rt.alloc();
    for (edits, place) in EDITED {
        assert_eq!(rt; fault_in(alloc, &edited(alloc, edits)?, 4096)?, Some(place));
    }
    let bytes = edited(alloc, &[(54, 0)])?;
    assert_eq!(rt; faults_in_pieces(alloc, &bytes, 4096, 7)?, [Some(54); 2]);
    Ok(())
}

#[test]
fn states_that_are_cut_off_or_go_on(rt: HostRuntime) -> Result<(), Fail> {
    let alloc = rt.alloc();
    for (length, place) in CUT {
        let bytes = &STATE[..length.min(120)];
        assert_eq!(rt; fault_in(alloc, bytes, 4096)?, Some(place));
        // more bytes might mend it
        assert_eq!(rt;
            faults_in_pieces(alloc, bytes, 4096, 7)?,
            [None, Some(place)]
        );
    }
    let mut longer = STATE.to_vec(alloc)?;
    longer.push(0)?;
    assert_eq!(rt; fault_in(alloc, &longer, 4096)?, Some(120));
    assert_eq!(rt; faults_in_pieces(alloc, &longer, 4096, 7)?, [Some(120); 2]);
    Ok(())
}

/// A root with one value of so many bytes, whose name is empty.
fn with_data(alloc: Global, count: u32) -> Result<Vec<u8>, Fail> {
    let mut put = Put::new(alloc, Endian::Little);
    put.u64(0)?;
    put.u32(1)?;
    put.u16(0)?;
    put.u32(3)?;
    put.u32(count)?;
    put.bytes(&vec![in alloc; 7u8; count as usize]?)?;
    put.u32(0)?;
    Ok(put.into_bytes())
}

#[test]
fn states_at_the_cap_and_past_it(rt: HostRuntime) -> Result<(), Fail> {
    let alloc = rt.alloc();
    let rows = [
        (4070, None),
        // the count of subkeys ends one byte past the cap, and the data does
        (4071, Some(4093)),
        (4075, Some(22)),
    ];
    for (count, place) in rows {
        assert_eq!(rt; fault_in(alloc, &with_data(alloc, count)?, 4096)?, place);
    }
    Ok(())
}

/// Keys below one another with names of so many units, the root among them.
fn chain(alloc: Global, names: &[u16]) -> Result<Vec<u8>, Fail> {
    let mut put = Put::new(alloc, Endian::Little);
    put.u64(0)?;
    put.u32(0)?;
    for name in names {
        put.u32(1)?;
        put.u16(*name)?;
        for _ in 0..*name {
            put.u16(0x61)?;
        }
        put.u64(1)?;
        put.u32(0)?;
    }
    put.u32(0)?;
    Ok(put.into_bytes())
}

#[test]
fn paths_at_their_limit_and_past_it(rt: HostRuntime) -> Result<(), Fail> {
    let alloc = rt.alloc();
    let longest = chain(alloc, &[255, 255, 255, 255])?;
    assert_eq!(rt; again(alloc, &longest)?.as_slice(), longest.as_slice());
    let rows: [(&[u16], usize); 5] = [
        (&[256], 16),
        // behind 1,023 units of the path's text there is no room for a name
        (&[255, 255, 255, 255, 1], 2128),
        (&[255, 255, 255, 254, 1], 2126),
        (&[255, 255, 255, 253, 2], 2124),
        // nor behind 512 names
        (&[1; 513], 10_256),
    ];
    for (names, place) in rows {
        let told = Registry::from_bytes(alloc, &chain(alloc, names)?, 1_048_576);
        assert_eq!(rt; place_in(told)?, Some(place));
    }
    Ok(())
}
