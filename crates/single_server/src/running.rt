//! A recorded stream is served.

ghost use Rattle.std.specs.Prelude.{◌≡◌, ◌≤◌, ◌<◌, ℕ, [], false, true, is_some, IfErr};
ghost use Rattle.causes.specs.Counts.{Rose};
ghost use Rattle.disk_core.specs.Calls.{SameDisk};
ghost use Rattle.cluster_node.specs.States.{HasRoom, client_in};
ghost use Rattle.single_server.specs.Hearing.{Beginning, IsHeard};
ghost use Rattle.single_server.specs.Session.{Converses, IsFresh, PieceComes, Serves, ServesStream, Starts, most_stream};

use crate::ended::Ended;
use crate::hearing::hear;
use crate::opening::open;
use disk_core::Disk;
use edge_io::{Failed, Sink, Source};
use single_node::Single;
use std::alloc::{AllocError, Global};

/// How many bytes are read at once.
pub(crate) const PIECE: usize = 4096;

/// How many bytes one connection may send.
pub(crate) const MOST_STREAM: u64 = 1_073_741_824;

/// The number of the connection.
const FIRST: u32 = 1;

/// Serves one recorded stream of a client over the log of the disk, which is made where the disk is blank.
///
/// The stream is read piece by piece, and what the node answers to a piece is written before the next one is read. `stamp` is
/// that of each record that is logged.
pub fn session<S: Source, K: Sink, D: Disk>(
    alloc: Global,
    stamp: u64,
    input: &mut S,
    output: &mut K,
    disk: &mut D,
) -> Ended
    requires disk_size { 34_209_856 ≤ (D.view disk.old).size }
    ensures serves { Serves result stamp (S.left input.old) (S.left input.new) (K.written output.old) (K.written output.new) (D.view disk.old) (D.view disk.new) }
    ensures read { result ≡ Ended.ReadFault → Rose (S.faults input.old) (S.faults input.new) }
    ensures write { result ≡ Ended.WriteFault → Rose (K.faults output.old) (K.faults output.new) }
    ensures disk { result ≡ Ended.DiskFault → Rose (D.view disk.old).faults (D.view disk.new).faults }
    ensures fenced { (held : ℕ) → result ≡ Ended.Fenced held → (1 < (D.view disk.old).current.held) × (held ≡ (D.view disk.old).current.held) }
    ensures same_disk { SameDisk (D.view disk.old) (D.view disk.new) }
{
    let mut single = match open(alloc, stamp, disk) {
        Ok(single) => single,
        Err(ended) => return ended,
    };
    match serve_stream(&mut single, input, output, disk) {
        Ok(()) => {}
        Err(ended) => return ended,
    }
    Ended::Done
}

/// A connection begins, its stream is heard to the end, and it is hung up.
fn serve_stream<S: Source, K: Sink, D: Disk>(
    single: &mut Single,
    input: &mut S,
    output: &mut K,
    disk: &mut D,
) -> Result<(), Ended>
    requires fresh { IsFresh single.old }
    requires room { HasRoom single.old.node (D.view disk.old) }
    ensures serves { ServesStream result single.old (S.left input.old) (S.left input.new) (K.written output.old) (K.written output.new) (D.view disk.old) (D.view disk.new) }
    ensures read { IfErr result (λ ended. ended ≡ Ended.ReadFault → Rose (S.faults input.old) (S.faults input.new)) }
    ensures write { IfErr result (λ ended. ended ≡ Ended.WriteFault → Rose (K.faults output.old) (K.faults output.new)) }
    ensures same_disk { SameDisk (D.view disk.old) (D.view disk.new) }
{
    match single.connect(FIRST) {
        Ok(_) => {}
        Err(AllocError) => return Err(Ended::NoMemory),
    }
    match converse(single, FIRST, input, output, disk) {
        Ok(()) => {}
        Err(ended) => return Err(ended),
    }
    match single.hang_up(FIRST) {
        Ok(_) => {}
        Err(AllocError) => return Err(Ended::NoMemory),
    }
    Ok(())
}

/// The stream of the connection is heard, until it ends or the node has closed the connection.
fn converse<S: Source, K: Sink, D: Disk>(
    single: &mut Single,
    conn: u32,
    input: &mut S,
    output: &mut K,
    disk: &mut D,
) -> Result<(), Ended>
    requires alone { IsHeard conn single.old (D.view disk.old) }
    requires quiet { single.old.left ≡ [] }
    requires connected { is_some (client_in conn single.old.node) ≡ true }
    requires room { HasRoom single.old.node (D.view disk.old) }
    ensures converses { (b : Beginning) → Starts conn b single.old (D.view disk.old)
        → Converses result conn b single.new (D.view disk.new) (S.left input.old) (S.left input.new) (K.written output.old) (K.written output.new) }
    ensures room { HasRoom single.new.node (D.view disk.new) }
    ensures read { IfErr result (λ ended. ended ≡ Ended.ReadFault → Rose (S.faults input.old) (S.faults input.new)) }
    ensures write { IfErr result (λ ended. ended ≡ Ended.WriteFault → Rose (K.faults output.old) (K.faults output.new)) }
    ensures same_disk { SameDisk (D.view disk.old) (D.view disk.new) }
{
    let mut taken = 0;
    'pieces: loop {
        let mut buffer = [0u8; PIECE];
        let size = match read_piece(input, &mut buffer, taken) {
            Piece::Bytes(size) => size,
            Piece::End => return Ok(()),
            Piece::Fails => return Err(Ended::ReadFault),
        };
        match hear(single, conn, &buffer[..size], output, disk) {
            Ok(()) => {}
            Err(ended) => return Err(ended),
        }
        if !single.is_connected(conn) {
            return Ok(());
        }
        taken += size as u64;
    }
}

/// What reading comes to.
#[derive(Clone, Copy, Debug)]
pub(crate) enum Piece {
    /// So many bytes were read.
    Bytes(usize),
    /// There is no more, or more than the connection may send.
    End,
    Fails,
}

/// Reads a piece behind so many bytes.
fn read_piece<S: Source>(input: &mut S, buffer: &mut [u8; PIECE], taken: u64) -> Piece
    requires { taken ≤ most_stream }
    ensures comes { PieceComes result taken buffer.new (S.left input.old) (S.left input.new) }
    ensures later { S.faults input.old ≤ S.faults input.new }
    ensures read { result ≡ Piece.Fails → Rose (S.faults input.old) (S.faults input.new) }
{
    match input.read(buffer) {
        Ok(size) => {
            if size == 0 || MOST_STREAM - taken < size as u64 {
                return Piece::End;
            }
            Piece::Bytes(size)
        }
        Err(Failed) => Piece::Fails,
    }
}
