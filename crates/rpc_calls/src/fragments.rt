//! One frame of a stream: where it ends, what it stands for, and what it does to the unfinished call.

ghost use Rattle.std.specs.Prelude.{◌≡◌, ◌≤◌, true, false, length};
ghost use Rattle.rpc_pdu.specs.Grammar.{MayFail};
ghost use Rattle.rpc_calls.specs.Assembly.{as_item, ended, extended, joined, kept_by, taken};
ghost use Rattle.rpc_calls.specs.Parts.{call_id_in, refusal};
ghost use Rattle.rpc_calls.specs.Steps.{CutIs, Does, FrameDoes, PartIs};

use crate::call::Call;
use crate::intake_fault::IntakeFault;
use crate::item::Item;
use crate::side::Side;
use byteorder::{BigEndian, ByteOrder, LittleEndian};
use rpc_pdu::{Head, Pdu, PduFault, PduType, decode, peek};
use std::alloc::Global;
use wire_fields::Octets;

/// How long a header is, and so the shortest frame.
const HEADER_LENGTH: usize = 16;
/// How long the stub of a call may become.
const MOST_STUB: usize = 131_072;
/// The first byte of a data representation with little-endian integers.
const LITTLE_ENDIAN_MARK: u8 = 0x10;

/// What lies at the front of a stream.
pub(crate) enum Cut {
    /// Too little.
    Waits,
    /// A frame that says that it is shorter than its header.
    TooShort,
    /// A whole frame of so many bytes.
    Frame(usize),
}

pub(crate) fn first_cut(bytes: &[u8]) -> Cut
    ensures { CutIs result bytes.now }
{
    let Some(told) = peek(bytes) else {
        return Cut::Waits;
    };
    let size = told as usize;
    if size < HEADER_LENGTH {
        return Cut::TooShort;
    }
    if bytes.len() < size {
        return Cut::Waits;
    }
    Cut::Frame(size)
}

/// Takes a whole frame in. After a fault the unfinished call is as it was.
pub(crate) fn take_frame(
    alloc: Global,
    side: Side,
    frame: &[u8],
    unfinished: &mut Option<Call>,
    place: u64,
) -> Result<Option<Item>, IntakeFault>
    requires { 16 ≤ length frame.now }
    ensures { FrameDoes result side place unfinished.old unfinished.new frame.now }
{
    let part = part_of(alloc, frame, place)?;
    take_part(side, part, unfinished, place)
}

/// What a frame stands for by itself.
fn part_of(alloc: Global, frame: &[u8], place: u64) -> Result<Item, IntakeFault>
    requires { 16 ≤ length frame.now }
    ensures { PartIs result place frame.now }
{
    match decode(alloc, frame) {
        Ok(pdu) => Ok(Item::Single(pdu)),
        Err(fault) => part_with(frame, fault, place),
    }
}

/// What a frame that is no PDU stands for.
fn part_with(frame: &[u8], fault: PduFault, place: u64) -> Result<Item, IntakeFault>
    requires long { 16 ≤ length frame.now }
    requires fails { MayFail frame.now fault }
    ensures { PartIs result place frame.now }
{
    if fault == PduFault::Memory {
        return Err(IntakeFault::Memory);
    }
    match refusal(frame, fault) {
        Some(reason) => {
            Ok(Item::BadBind {
                call_id: call_id_in(frame),
                reason,
            })
        }
        None => Err(IntakeFault::Pdu { place, fault }),
    }
}

/// The reason of the bind_nak, where the frame is a bind that gets one for its fault.
fn refusal(frame: &[u8], fault: PduFault) -> Option<u16>
    requires { 16 ≤ length frame.now }
    ensures { result ≡ refusal frame.now fault }
{
    if frame[2] != PduType::Bind.number() {
        return None;
    }
    match fault {
        PduFault::BadVersion => Some(4),
        PduFault::HasAuth => Some(0),
        _ => None,
    }
}

#[tactic(auto, unfolding(wire_fields::specs::Numbers::number))]
fn call_id_in(frame: &[u8]) -> u32
    requires { 16 ≤ length frame.now }
    ensures { result ≡ call_id_in frame.now }
{
    let field = &frame[12..HEADER_LENGTH];
    if frame[4] == LITTLE_ENDIAN_MARK {
        LittleEndian::read_u32(field)
    } else {
        BigEndian::read_u32(field)
    }
}

/// Takes in what a frame stands for.
#[tactic(auto, unfolding(crate::specs::Assembly::taken))]
fn take_part(
    side: Side,
    part: Item,
    unfinished: &mut Option<Call>,
    place: u64,
) -> Result<Option<Item>, IntakeFault>
    ensures { Does result (taken side place unfinished.old part) unfinished.old unfinished.new }
{
    match (side, part) {
        (
            Side::Server,
            Item::Single(
                Pdu::Request {
                    head,
                    alloc_hint: _,
                    context,
                    opnum,
                    object: _,
                    stub,
                },
            ),
        ) => {
            let fragment = fragment_in(&head, context, opnum, stub);
            join(fragment, head, unfinished, place)
        }
        (
            Side::Client,
            Item::Single(
                Pdu::Response {
                    head,
                    alloc_hint: _,
                    context,
                    cancels: _,
                    stub,
                },
            ),
        ) => {
            let fragment = fragment_in(&head, context, 0, stub);
            join(fragment, head, unfinished, place)
        }
        (_, Item::Single(Pdu::Orphaned { head })) => {
            give_up(head.call_id, unfinished);
            Ok(Some(Item::Single(Pdu::Orphaned { head })))
        }
        (_, other) => Ok(Some(other)),
    }
}

/// What a fragment holds of its call.
fn fragment_in(head: &Head, context: u16, opnum: u16, stub: Octets) -> Call
    ensures { result ≡ record { context = context; opnum = opnum; call_id = head.now.call_id; endian = head.now.endian; stub = stub } }
{
    Call {
        context,
        opnum,
        call_id: head.call_id,
        endian: head.endian,
        stub,
    }
}

/// Drops the unfinished call if it has this id.
fn give_up(call_id: u32, unfinished: &mut Option<Call>)
    ensures { unfinished.new ≡ kept_by (Some call_id) unfinished.old }
{
    let given_up = match unfinished {
        Some(call) => call.call_id == call_id,
        None => false,
    };
    if given_up {
        *unfinished = None;
    }
}

/// Takes in a fragment of a call, whose own stub stands in `fragment`.
#[tactic(auto, unfolding(crate::specs::Assembly::joined))]
fn join(
    fragment: Call,
    head: Head,
    unfinished: &mut Option<Call>,
    place: u64,
) -> Result<Option<Item>, IntakeFault>
    ensures { Does result (joined place unfinished.old fragment head.flags) unfinished.old unfinished.new }
{
    let last = head.has(Head::LAST_FRAGMENT);
    if head.has(Head::FIRST_FRAGMENT) {
        start(fragment, last, unfinished, place)
    } else {
        go_on(fragment, last, unfinished, place)
    }
}

/// Starts a call with its first fragment.
fn start(
    fragment: Call,
    last: bool,
    unfinished: &mut Option<Call>,
    place: u64,
) -> Result<Option<Item>, IntakeFault>
    ensures { Does result (ended place last (extended unfinished.old fragment true)) unfinished.old unfinished.new }
{
    if unfinished.is_some() {
        return Err(IntakeFault::Interleaved { place });
    }
    if fragment.stub.as_slice().len() > MOST_STUB {
        return Err(IntakeFault::StubTooLong { place });
    }
    if last {
        return Ok(Some(Item::Call(fragment)));
    }
    *unfinished = Some(fragment);
    Ok(None)
}

/// Goes on with the unfinished call.
fn go_on(
    fragment: Call,
    last: bool,
    unfinished: &mut Option<Call>,
    place: u64,
) -> Result<Option<Item>, IntakeFault>
    ensures { Does result (ended place last (extended unfinished.old fragment false)) unfinished.old unfinished.new }
{
    let Some(call) = unfinished else {
        return Err(IntakeFault::Interleaved { place });
    };
    if call.call_id != fragment.call_id {
        return Err(IntakeFault::Interleaved { place });
    }
    if call.stub.as_slice().len() + fragment.stub.as_slice().len() > MOST_STUB {
        return Err(IntakeFault::StubTooLong { place });
    }
    if call.stub.append(fragment.stub.as_slice()).is_err() {
        return Err(IntakeFault::Memory);
    }
    if last {
        return Ok(finish(unfinished));
    }
    Ok(None)
}

/// The unfinished call as an item.
fn finish(unfinished: &mut Option<Call>) -> Option<Item>
    ensures item { result ≡ as_item unfinished.old }
    ensures none_left { unfinished.new ≡ None }
{
    match unfinished.take() {
        Some(call) => Some(Item::Call(call)),
        None => None,
    }
}
