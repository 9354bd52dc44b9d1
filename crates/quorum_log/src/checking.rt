//! The checks of an image, in order.
ghost use Rattle.std.specs.Prelude.{◌≡◌, ◌≢◌, ◌+◌, ◌≤◌, ◌<◌, length, slice_index, MatchResult, None};
ghost use Rattle.quorum_log.specs.Layout as layout;
ghost use Rattle.quorum_log.specs.Checks as checks;
ghost use Rattle.quorum_log.specs.Readings as readings;

use crate::fault::OpenFault;
use crate::found::{Found, FoundRecord, FoundRecords};
use crate::layout::{HEADER, MOST_RECORD, MOST_RECORDS, half_at, half_size, image_size};
use crate::reading::{base_in, copy, has_magic, read_u32, read_u64, version_in};
use std::alloc::Global;

/// Checks the header of an image on a disk of that size, and tells the cap.
pub(crate) fn check_header(header: &[u8], size: u64) -> Result<u32, OpenFault>
    requires { 64 ≤ length header.now }
    ensures { MatchResult result
        (λ cap. (slice_index header.now 0 ≢ 0) × (checks.first_bad (checks.header_checks header.now size) ≡ None) × (cap ≡ layout.number_at header.now 12 4))
        (checks.HeaderFault header.now size) }
{
    if header[0] == 0 {
        return Err(OpenFault::Blank);
    }
    if !has_magic(header) {
        return Err(OpenFault::BadImage { place: 1 });
    }
    let version = read_u32(header, 8);
    if version != 1 && version != 2 {
        return Err(OpenFault::BadImage { place: 8 });
    }
    let cap = read_u32(header, 12);
    if cap < 4096 || cap > 16_777_216 || image_size(cap) > size {
        return Err(OpenFault::BadImage { place: 12 });
    }
    Ok(cap)
}

pub(crate) fn is_valid(image: &[u8], cap: u32, half: u8) -> bool
    requires half { half ≤ 1 }
    requires whole { layout.image_size cap ≤ length image.now }
    ensures { result ≡ checks.is_valid image.now cap half }
{
    image[half_at(cap, half) as usize] != 0
}

fn generation_in(image: &[u8], cap: u32, half: u8) -> u64
    requires half { half ≤ 1 }
    requires whole { layout.image_size cap ≤ length image.now }
    ensures { result ≡ checks.generation_in image.now cap half }
{
    read_u64(image, half_at(cap, half) + 1)
}

/// Whether the generation of that half is the next one of the other's.
fn is_next(image: &[u8], cap: u32, half: u8) -> bool
    requires half { half ≤ 1 }
    requires whole { layout.image_size cap ≤ length image.now }
    ensures { result ≡ checks.is_next image.now cap half }
{
    generation_in(image, cap, half) == generation_in(image, cap, 1 - half).wrapping_add(1)
}

fn check_halves(image: &[u8], cap: u32) -> Result<(), OpenFault>
    requires whole { layout.image_size cap ≤ length image.now }
    ensures { MatchResult result
        (λ _. checks.first_bad (checks.halves_checks image.now cap) ≡ None) (readings.BadAt (checks.first_bad (checks.halves_checks image.now cap))) }
{
    let first = is_valid(image, cap, 0);
    let second = is_valid(image, cap, 1);
    if !first && !second {
        return Err(OpenFault::BadImage { place: 64 });
    }
    if first && second && !is_next(image, cap, 0) && !is_next(image, cap, 1) {
        let place = half_at(cap, 1) + 1;
        return Err(OpenFault::BadImage { place });
    }
    Ok(())
}

/// The half that is current where the halves passed their checks.
fn current_half(image: &[u8], cap: u32) -> u8
    requires whole { layout.image_size cap ≤ length image.now }
    ensures half { result ≡ checks.current_half image.now cap }
    ensures small { result ≤ 1 }
{
    if !is_valid(image, cap, 1) {
        return 0;
    }
    if !is_valid(image, cap, 0) {
        return 1;
    }
    if is_next(image, cap, 0) { 0 } else { 1 }
}

/// The lengths of the state and of the last record in the half that begins there.
fn read_lengths(image: &[u8], cap: u32, start: u64) -> Result<(u64, u64), OpenFault>
    requires { start + 25 ≤ length image.now }
    ensures { MatchResult result
        (λ sizes. readings.AreLengths image.now cap start sizes.0 sizes.1) (readings.BadAt (checks.first_bad (checks.length_checks image.now cap start))) }
{
    let state = read_u32(image, start + 17);
    if state > cap {
        return Err(OpenFault::BadImage { place: start + 17 });
    }
    let last = read_u32(image, start + 21);
    if last as usize > MOST_RECORD {
        return Err(OpenFault::BadImage { place: start + 21 });
    }
    Ok((state as u64, last as u64))
}

/// Reads the records from that commit byte on.
fn read_records(
    alloc: Global,
    image: &[u8],
    end: u64,
    start: u64,
) -> Result<Vec<FoundRecord>, OpenFault>
    requires room { start < end }
    requires whole { end ≤ length image.now }
    ensures { MatchResult result (λ records. readings.AreRecords image.now end start records.items) (readings.RecordsFault image.now end start) }
{
    let mut records = Vec::new(alloc);
    let mut at = start;
    'records: while image[at as usize] != 0 {
        let count = record_size(image, end, at)?;
        let bytes = copy(alloc, image, at + 5, count)?;
        records.push(FoundRecord { at: at + 5, bytes })?;
        at += 5 + count;
    }
    Ok(records)
}

/// The length of the record behind that commit byte.
fn record_size(image: &[u8], end: u64, at: u64) -> Result<u64, OpenFault>
    requires room { at < end }
    requires whole { end ≤ length image.now }
    ensures { MatchResult result (readings.IsGoodSize image.now end at) (readings.SizeFault image.now end at) }
{
    if end - at <= 5 {
        return Err(OpenFault::BadImage { place: at + 1 });
    }
    let count = read_u32(image, at + 1) as u64;
    if count == 0 || count > MOST_RECORD as u64 || end - at - 5 <= count {
        return Err(OpenFault::BadImage { place: at + 1 });
    }
    Ok(count)
}

/// Reads the half and checks what is in it.
fn read_half(alloc: Global, image: &[u8], cap: u32, half: u8) -> Result<Found, OpenFault>
    requires half { half ≤ 1 }
    requires cap_most { cap ≤ 16_777_216 }
    requires whole { layout.image_size cap ≤ length image.now }
    requires valid { slice_index image.now (layout.half_at cap half) ≢ 0 }
    ensures { MatchResult result (readings.IsFoundHalf image.now cap half) (readings.HalfFault image.now cap (layout.half_at cap half)) }
{
    let start = half_at(cap, half);
    let (state_size, last_size) = read_lengths(image, cap, start)?;
    let last_at = start + 25 + state_size;
    let state = copy(alloc, image, start + 25, state_size)?;
    let last = copy(alloc, image, last_at, last_size)?;
    let records = read_records(alloc, image, start + half_size(cap), last_at + last_size)?;
    let field = read_u64(image, start + 9);
    let base = base_in(field);
    if records.len() as u64 > MOST_RECORDS - base {
        return Err(OpenFault::BadImage { place: start + 9 });
    }
    Ok(Found {
        version: version_in(field),
        cap,
        half,
        generation: read_u64(image, start + 1),
        base,
        state_at: start + 25,
        state,
        last_at,
        last,
        records: FoundRecords::new(records),
    })
}

/// Reads the current half of an image whose header is good.
pub(crate) fn read_current(alloc: Global, image: &[u8], cap: u32) -> Result<Found, OpenFault>
    requires cap_most { cap ≤ 16_777_216 }
    requires whole { layout.image_size cap ≤ length image.now }
    ensures { MatchResult result (readings.IsFoundCurrent image.now cap) (checks.HalvesFault image.now cap) }
{
    check_halves(image, cap)?;
    let half = current_half(image, cap);
    read_half(alloc, image, cap, half)
}
