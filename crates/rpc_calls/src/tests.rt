ghost use Rattle.std.specs.Prelude.{◌≡◌, ◌<◌, ◌≤◌, ◌^◌, All};
ghost use Rattle.rpc_pdu.specs.Encoding.{CanSpell};
ghost use Rattle.rpc_calls.specs.Intakes.{stream_length};

use super::*;
use rpc_pdu::{Pdu, PduFault, encode};
use std::test::*;

/// A bind without contexts, call 1; a request in three fragments, call 2, context 0, operation 7, with
/// a bind of a version that isn't supported (big-endian, call 3) and a cancel of another call inside
/// it; and the first 9 bytes of a further frame.
const STREAM: [u8; 183] = [
    5, 0, 11, 3, 0x10, 0, 0, 0, 28, 0, 0, 0, 1, 0, 0, 0, 0xd0, 0x16, 0xd0, 0x16, 0, 0, 0, 0, 0, 0,
    0, 0, //
    5, 0, 0, 1, 0x10, 0, 0, 0, 27, 0, 0, 0, 2, 0, 0, 0, 0, 0, 0, 0, 0, 0, 7, 0, b'a', b'b', b'c', //
    4, 0, 11, 3, 0, 0, 0, 0, 0, 28, 0, 0, 0, 0, 0, 3, 0x16, 0xd0, 0x16, 0xd0, 0, 0, 0, 0, 0, 0, 0,
    0, //
    5, 0, 0, 0, 0x10, 0, 0, 0, 24, 0, 0, 0, 2, 0, 0, 0, 0, 0, 0, 0, 0, 0, 9, 0, //
    5, 0, 18, 3, 0x10, 0, 0, 0, 16, 0, 0, 0, 5, 0, 0, 0, //
    5, 1, 0, 2, 0, 0, 0, 0, 0, 26, 0, 0, 0, 0, 0, 2, 0, 0, 0, 0, 0, 4, 0, 1, b'd', b'e', //
    5, 0, 0, 3, 0x10, 0, 0, 0, 25, 0, 0, 0, 6, 0, 0, 0, 0, 0, 0, 0, 0, 0, 1, 0, b'z', //
    5, 0, 0, 3, 0x10, 0, 0, 0, 25,
];

/// A fragment of a call, then one of another call.
const INTERLEAVED: [u8; 51] = [
    5, 0, 0, 1, 0x10, 0, 0, 0, 27, 0, 0, 0, 2, 0, 0, 0, 0, 0, 0, 0, 0, 0, 7, 0, b'a', b'b', b'c', //
    5, 0, 0, 2, 0x10, 0, 0, 0, 24, 0, 0, 0, 3, 0, 0, 0, 0, 0, 0, 0, 0, 0, 7, 0,
];

/// A cancel, and a frame that says that it has fifteen bytes.
const FIFTEEN: [u8; 26] = [
    5, 0, 18, 3, 0x10, 0, 0, 0, 16, 0, 0, 0, 5, 0, 0, 0, //
    5, 0, 18, 3, 0x10, 0, 0, 0, 15, 0,
];

/// What an item is, in a line.
fn describe(item: &Item, to: &mut String) -> Result<(), Fail> {
    match item {
        Item::Call(call) => {
            let Call {
                context: _,
                opnum,
                call_id,
                endian,
                stub,
            } = call;
            let bytes = stub.as_slice().len();
            writeln!(to, "call {call_id} of {opnum}, {endian:?}: {bytes}")?;
        }
        Item::Single(pdu) => {
            let kind = pdu.pdu_type();
            let call_id = pdu.head().call_id;
            writeln!(to, "{kind:?} {call_id}")?;
        }
        Item::BadBind { call_id, reason } => writeln!(to, "refused bind {call_id}: {reason}")?,
    }
    Ok(())
}

/// Takes what items there are, and tells whether the stream goes on.
fn drain(intake: &mut Intake, to: &mut String) -> Result<bool, Fail>
    ensures { stream_length intake.new ≡ stream_length intake.old }
{
    'items: for _ in 0..20 {
        match intake.next() {
            Ok(Some(item)) => describe(&item, to)?,
            Ok(None) => return Ok(true),
            Err(fault) => {
                writeln!(to, "{fault:?}")?;
                return Ok(false);
            }
        }
    }
    Err(Fail::new("too many items"))
}

/// The items of a stream that comes in pieces of so many bytes, one in a line, and what is left.
fn items(rt: &HostRuntime, side: Side, stream: &[u8], piece: usize) -> Result<String, Fail>
    requires { 1 ≤ piece }
{
    let mut intake = Intake::new(rt.alloc(), side);
    let mut text = String::new(rt.alloc());
    let mut place = 0;
    'pieces: while place < stream.len() {
        let end = stream.len().min(place.saturating_add(piece));
        intake.feed(&stream[place..end])?;
        if !drain(&mut intake, &mut text)? {
            return Ok(text);
        }
        place = end;
    }
    let unprocessed = intake.unprocessed();
    let unfinished = intake.unfinished();
    writeln!(&mut text, "{unprocessed} left, {unfinished} of a stub")?;
    Ok(text)
}

#[test]
fn items_are_those_of_the_stream_however_it_is_cut(rt: HostRuntime) -> Result<(), Fail> {
    let table = [
        (
            STREAM.as_slice(),
            "Bind 1\nrefused bind 3: 4\nCoCancel 5\ncall 2 of 7, Little: 5\ncall 6 of 1, Little: 1\n9 left, 0 of a stub\n",
        ),
        (
            &STREAM[..123],
            "Bind 1\nrefused bind 3: 4\nCoCancel 5\n0 left, 3 of a stub\n",
        ),
        (INTERLEAVED.as_slice(), "Interleaved { place: 27 }\n"),
        (
            FIFTEEN.as_slice(),
            "CoCancel 5\nPdu { place: 16, fault: BadLength }\n",
        ),
    ];
    for (stream, want) in table {
        for piece in [1, 7, 200] {
            assert_eq!(rt;
                items(&rt, Side::Server, stream, piece)?.as_str(),
                want,
                "in pieces of {piece}"
            );
        }
    }
    Ok(())
}

/// A fragment of a request with call id 2, operation 7 and a stub of zeros.
fn fragment(to: &mut Vec<u8>, flags: u8, stub: u16) -> Result<(), Fail> {
    let [low, high] = stub.saturating_add(24).to_le_bytes();
    to.extend_from_slice(&[5, 0, 0, flags, 0x10, 0, 0, 0, low, high, 0, 0])?;
    to.extend_from_slice(&[2, 0, 0, 0, 0, 0, 0, 0, 0, 0, 7, 0])?;
    to.resize(to.len().saturating_add(stub as usize), 0)?;
    Ok(())
}

#[test]
fn a_stub_has_131072_bytes_at_most(rt: HostRuntime) -> Result<(), Fail> {
    for (last, want) in [
        (50, "call 2 of 7, Little: 131072\n0 left, 0 of a stub\n"),
        (51, "StubTooLong { place: 131070 }\n"),
    ] {
        let mut stream = Vec::new(rt.alloc());
        fragment(&mut stream, 1, 65_511)?;
        fragment(&mut stream, 0, 65_511)?;
        fragment(&mut stream, 2, last)?;
        for piece in [10_000, 200_000] {
            assert_eq!(rt; items(&rt, Side::Server, &stream, piece)?.as_str(), want);
        }
    }
    Ok(())
}

/// Whether so many zeros are taken, the fault that they have, told twice, and how many bytes it leaves.
fn zeros(rt: &HostRuntime, count: usize) -> Result<(bool, [Option<IntakeFault>; 2], usize), Fail>
    requires { count < 2 ^ 32 }
{
    let bytes = vec![in rt.alloc(); 0; count]?;
    let mut intake = Intake::new(rt.alloc(), Side::Client);
    let taken = intake.feed(&bytes).is_ok();
    let faults = [intake.next().err(), intake.next().err()];
    Ok((taken, faults, intake.unprocessed()))
}

#[test]
fn a_backlog_is_refused_and_a_fault_stands(rt: HostRuntime) -> Result<(), Fail> {
    let short = Some(IntakeFault::Pdu {
        place: 0,
        fault: PduFault::BadLength,
    });
    assert_eq!(rt; zeros(&rt, 262_144)?, (true, [short, short], 262_144));
    assert_eq!(rt; zeros(&rt, 262_145)?, (false, [None, None], 0));
    Ok(())
}

/// The encodings of some PDUs, one after the other.
fn encoded(rt: &HostRuntime, pdus: &[Pdu]) -> Result<Vec<u8>, Fail>
    requires { All CanSpell pdus.now }
{
    let mut bytes = Vec::new(rt.alloc());
    for pdu in pdus {
        bytes.extend_from_slice(&encode(rt.alloc(), pdu)?)?;
    }
    Ok(bytes)
}

#[test]
fn a_reply_is_cut_and_joined(rt: HostRuntime) -> Result<(), Fail> {
    for (length, frames, want) in [
        (0_u16, 24, "call 9 of 0, Little: 0\n0 left, 0 of a stub\n"),
        (
            5816,
            5840,
            "call 9 of 0, Little: 5816\n0 left, 0 of a stub\n",
        ),
        (
            5817,
            5865,
            "call 9 of 0, Little: 5817\n0 left, 0 of a stub\n",
        ),
    ] {
        let stub = vec![in rt.alloc(); 7; length as usize]?;
        let pdus = cut_reply(rt.alloc(), 9, 3, 5840, &stub)?;
        let stream = encoded(&rt, &pdus)?;
        assert_eq!(rt; stream.len(), frames);
        assert_eq!(rt; items(&rt, Side::Client, &stream, 1000)?.as_str(), want);
    }
    Ok(())
}
