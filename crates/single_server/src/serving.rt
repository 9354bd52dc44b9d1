//! The connections of a door are served, one after another.

ghost use Rattle.std.specs.Prelude.{◌≡◌, ◌≢◌, ◌≤◌, ◌<◌, ◌+◌, ◌^◌, ℕ, IfOk, IfErr};
ghost use Rattle.causes.specs.Counts.{Rose};
ghost use Rattle.disk_core.specs.Calls.{SameDisk};
ghost use Rattle.cluster_node.specs.States as states;
ghost use Rattle.cluster_node.specs.States.{HasRoom};
ghost use Rattle.single_items.specs.Alone as runs;
ghost use Rattle.single_server.specs.Serving.{ServesDoor};
ghost use Rattle.single_server.specs.Session.{beginning_at};
ghost use Rattle.single_server.specs.Talking.{Attends, IsFree, IsReady, ServesNext, ServesRest};
ghost use Rattle.single_server.specs.declared.serving.Next.TheVariants as next;

use crate::ended::Ended;
use crate::opening::open;
use crate::talking::converse;
use disk_core::Disk;
use edge_io::{Door, Failed};
use single_node::Single;
use std::alloc::{AllocError, Global};

/// What asking for the next connection comes to.
#[derive(Clone, Copy, Debug)]
pub(crate) enum Next {
    Served,
    /// None was to come.
    NoneCame,
    /// It could not be accepted.
    Fails,
    /// The run ended at it.
    CutOff(Ended),
}

/// Serves at most `count` connections of the door over the log of the disk, which is made where the disk is blank.
///
/// One node serves them all, so that the groups and handles of one connection go on in the next. A connection is read piece by
/// piece, and what the node answers to a piece is written before the next one is read. Where a read or a write of it fails no more
/// is written to it, and the next one is accepted. `stamp` is that of each record that is logged.
pub fn serve<D: Disk, G: Door>(
    alloc: Global,
    stamp: u64,
    count: u16,
    disk: &mut D,
    door: &mut G,
) -> Ended
    requires disk_size { 34_209_856 ≤ (D.view disk.old).size }
    ensures serves { ServesDoor result stamp count (G.visits door.old) (G.visits door.new) (D.view disk.old) (D.view disk.new) }
    ensures accept { result ≡ Ended.ReadFault → Rose (G.faults door.old).accept (G.faults door.new).accept }
    ensures write { result ≢ Ended.WriteFault }
    ensures disk { result ≡ Ended.DiskFault → Rose (D.view disk.old).faults (D.view disk.new).faults }
    ensures fenced { (held : ℕ) → result ≡ Ended.Fenced held → (1 < (D.view disk.old).current.held) × (held ≡ (D.view disk.old).current.held) }
    ensures same_disk { SameDisk (D.view disk.old) (D.view disk.new) }
{
    let mut single = match open(alloc, stamp, disk) {
        Ok(single) => single,
        Err(ended) => return ended,
    };
    door.hang_up();
    serve_all(&mut single, count, disk, door)
}

/// The connections are numbered from 1 up.
fn serve_all<D: Disk, G: Door>(single: &mut Single, count: u16, disk: &mut D, door: &mut G) -> Ended
    requires ready { IsReady 1 single.old }
    requires room { HasRoom single.old.node (D.view disk.old) }
    ensures serves { (first : runs.AloneRun) (x : states.RunningNode) → IsFree 1 first x single.old
        → ServesRest result (beginning_at first x (D.view disk.old)) count (G.visits door.old) (G.visits door.new) (D.view disk.new) }
    ensures accept { result ≡ Ended.ReadFault → Rose (G.faults door.old).accept (G.faults door.new).accept }
    ensures write { result ≢ Ended.WriteFault }
    ensures same_disk { SameDisk (D.view disk.old) (D.view disk.new) }
{
    let mut done: u16 = 0;
    'connections: while done < count {
        match serve_next(single, done as u32 + 1, disk, door) {
            Next::Served => {}
            Next::NoneCame => return Ended::Done,
            Next::Fails => return Ended::ReadFault,
            Next::CutOff(ended) => return ended,
        }
        done += 1;
    }
    Ended::Done
}

/// The next connection is accepted, served and ended.
fn serve_next<D: Disk, G: Door>(single: &mut Single, conn: u32, disk: &mut D, door: &mut G) -> Next
    requires ready { IsReady conn single.old }
    requires room { HasRoom single.old.node (D.view disk.old) }
    ensures serves { (first : runs.AloneRun) (x : states.RunningNode) → IsFree conn first x single.old
        → ServesNext result conn (beginning_at first x (D.view disk.old)) single.new (D.view disk.new) (G.visits door.old) (G.visits door.new) }
    ensures accepts { (G.faults door.old).accept ≤ (G.faults door.new).accept }
    ensures accept { result ≡ next.Fails → Rose (G.faults door.old).accept (G.faults door.new).accept }
    ensures ends { (ended : Ended) → result ≡ next.CutOff ended → (ended ≢ Ended.ReadFault) × (ended ≢ Ended.WriteFault) }
    ensures room { HasRoom single.new.node (D.view disk.new) }
    ensures same_disk { SameDisk (D.view disk.old) (D.view disk.new) }
{
    match door.accept() {
        Ok(true) => {}
        Ok(false) => return Next::NoneCame,
        Err(Failed) => return Next::Fails,
    }
    let attended = attend(single, conn, disk, door);
    door.hang_up();
    match attended {
        Ok(()) => Next::Served,
        Err(ended) => Next::CutOff(ended),
    }
}

/// The connection begins at the node, its stream is heard to the end, and it is hung up there.
fn attend<D: Disk, G: Door>(
    single: &mut Single,
    conn: u32,
    disk: &mut D,
    door: &mut G,
) -> Result<(), Ended>
    requires ready { IsReady conn single.old }
    requires room { HasRoom single.old.node (D.view disk.old) }
    ensures attends { (first : runs.AloneRun) (x : states.RunningNode) → IsFree conn first x single.old
        → Attends result conn (beginning_at first x (D.view disk.old)) single.new (D.view disk.new) (G.visits door.old) (G.visits door.new) }
    ensures ends { IfErr result (λ ended. (ended ≢ Ended.ReadFault) × (ended ≢ Ended.WriteFault)) }
    ensures room { HasRoom single.new.node (D.view disk.new) }
    ensures accepts { (G.faults door.new).accept ≡ (G.faults door.old).accept }
    ensures same_disk { SameDisk (D.view disk.old) (D.view disk.new) }
{
    match single.connect(conn) {
        Ok(_) => {}
        Err(AllocError) => return Err(Ended::NoMemory),
    }
    match converse(single, conn, disk, door) {
        Ok(()) => {}
        Err(ended) => return Err(ended),
    }
    match single.hang_up(conn) {
        Ok(_) => {}
        Err(AllocError) => return Err(Ended::NoMemory),
    }
    Ok(())
}
