//! The command `ask ADDR`: a client's commands over the connection that a door hands out.

ghost use Rattle.asking.specs.Asking.{counts, edges};
ghost use Rattle.clus_cli.specs.Asking.{AskRuns, MayAsk};

use crate::status::Status;
use asking::{Asked, ask_peer};
use edge_io::{Door, Sink, Source};
use std::alloc::Global;

impl From<Asked> for Status {
    ghost use Rattle.std.specs.Prelude.{◌≡◌};
    ghost use Rattle.clus_cli.specs.Asking.{status_of};

    ghost from_gives = { λ asked status. status ≡ status_of asked };

    fn from(asked: Asked) -> Status {
        match asked {
            Asked::Done => Status::Done,
            Asked::ReadFault => Status::ReadFault,
            Asked::WriteFault => Status::WriteFault,
            Asked::NoMemory => Status::NoMemory,
            Asked::TooLong => Status::TooLong,
            Asked::BadCommand { line, column } => Status::BadCommand { line, column },
            Asked::BadReply { place } => Status::BadReply { place },
            Asked::NoPeer => Status::NoPeer,
        }
    }
}

/// Runs the commands of the input over the next connection of the door, and prints the results.
pub(crate) fn ask<S: Source, K: Sink, G: Door>(
    alloc: Global,
    input: &mut S,
    output: &mut K,
    door: &mut G,
) -> Status
    ensures runs { AskRuns result (S.left input.old) (S.left input.new)
        (edges (K.written output.old) (G.visits door.old)) (edges (K.written output.new) (G.visits door.new)) }
    ensures may { MayAsk result
        (counts (S.faults input.old) (K.faults output.old) (G.faults door.old)) (counts (S.faults input.new) (K.faults output.new) (G.faults door.new)) }
{
    Status::from(ask_peer(alloc, input, output, door))
}
