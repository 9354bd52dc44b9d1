ghost use Rattle.gum_messages.specs.Messages.{IsKept};

use crate::{Counts, bad_column, bad_event, print_drill, print_effect, print_end, print_node};
use cluster_node::Node;
use cluster_rules::{CloseCause, HaltCause};
use cluster_worlds::{BadEvent, Told};
use gum_messages::{Body, Message};
use std::alloc::{AllocError, Global};
use std::test::Fail;
use view_reconcile::ChainFault;
use wire_fields::Octets;

fn octets(alloc: Global, bytes: &[u8]) -> Result<Octets, AllocError> {
    Ok(Octets::new(bytes.to_vec(alloc)?))
}

fn sent(number: u64, from: u16, to: u16, body: Body) -> Told
    requires { IsKept body }
{
    Told::Sent {
        number,
        message: Message {
            view: 1,
            from,
            to,
            body,
        },
    }
}

/// Whether this is the line that tells it.
fn is_line(alloc: Global, told: &Told, line: &[u8]) -> Result<bool, Fail> {
    Ok(print_effect(alloc, told)?.as_slice() == line)
}

#[test]
fn a_piece_is_printed_with_its_place_and_length(rt: HostRuntime) -> Result<(), Fail> {
    let alloc = rt.alloc();
    let piece = Body::Piece {
        total: 10_000,
        offset: 8_192,
        bytes: octets(alloc, &[0; 1_808])?,
    };
    let told = sent(5, 1, 2, piece);
    assert!(rt; is_line(alloc, &told, b"send 5 piece 1 1 2 8192 1808\n")?);
    Ok(())
}

#[test]
fn a_message_without_fields_is_printed(rt: HostRuntime) -> Result<(), Fail> {
    let told = sent(7, 2, 1, Body::Ready);
    assert!(rt; is_line(rt.alloc(), &told, b"send 7 ready 1 2 1\n")?);
    Ok(())
}

#[test]
fn a_reply_without_a_point_is_printed(rt: HostRuntime) -> Result<(), Fail> {
    let alloc = rt.alloc();
    let told = Told::Reply {
        conn: 1,
        point: None,
        bytes: octets(alloc, &[0x05, 0x00])?,
    };
    assert!(rt; is_line(alloc, &told, b"reply 1 - 0500\n")?);
    Ok(())
}

#[test]
fn an_order_is_printed_with_its_record(rt: HostRuntime) -> Result<(), Fail> {
    let alloc = rt.alloc();
    let told = Told::Order {
        place: 1,
        spelling: octets(alloc, &[0x01, 0xAB])?,
    };
    assert!(rt; is_line(alloc, &told, b"order 1 01ab\n")?);
    Ok(())
}

#[test]
fn a_close_is_printed(rt: HostRuntime) -> Result<(), Fail> {
    let closed = Told::Closed {
        conn: 2,
        cause: CloseCause::NodeStopped,
    };
    assert!(rt; is_line(rt.alloc(), &closed, b"closed 2 stopped\n")?);
    Ok(())
}

#[test]
fn a_halt_is_printed(rt: HostRuntime) -> Result<(), Fail> {
    let halted = Told::Halted {
        node: 1,
        cause: HaltCause::Fenced { held: 2 },
    };
    assert!(rt; is_line(rt.alloc(), &halted, b"halt 1 fenced 2\n")?);
    Ok(())
}

#[test]
fn a_node_is_shown(rt: HostRuntime) -> Result<(), Fail> {
    let alloc = rt.alloc();
    let line = print_node(alloc, 1, &Node::start(alloc, 1, 1))?;
    assert_eq!(rt;
        line.as_slice(),
        b"node 1 inc 1 view 0 closed done - state -\n".as_slice()
    );
    Ok(())
}

#[test]
fn a_run_ends_with_its_counts(rt: HostRuntime) -> Result<(), Fail> {
    let alloc = rt.alloc();
    let mut counts = Counts::new();
    counts.add(&[
        Told::Opened { node: 1, view: 1 },
        Told::Acked {
            node: 1,
            view: 1,
            place: 1,
        },
    ]);
    assert_eq!(rt; print_end(alloc, 1, 1)?.as_str(), "end order 1 acks 1\n");
    assert_eq!(rt;
        print_drill(alloc, 7, 2_000, &counts)?.as_str(),
        "drill 7 2000 order 0 acks 1 replies 0 closed 0\n"
    );
    Ok(())
}

#[test]
fn a_user_is_told_where_and_why(rt: HostRuntime) -> Result<(), Fail> {
    let alloc = rt.alloc();
    let returned = BadEvent::Chain(ChainFault::Returned { node: 2, inc: 1 });
    assert_eq!(rt;
        bad_column(alloc, 3, 262_145)?.as_str(),
        "bad script: line 3, column 262145"
    );
    for (fault, text) in [
        (&returned, "bad script: line 7: returned 2.1"),
        (
            &BadEvent::NotRunning { node: 2 },
            "bad script: line 7: not running 2",
        ),
        (
            &BadEvent::Chain(ChainFault::Empty),
            "bad script: line 7: view empty",
        ),
    ] {
        assert_eq!(rt; bad_event(alloc, 7, fault)?.as_str(), text);
    }
    Ok(())
}
