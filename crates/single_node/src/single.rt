//! A node that is alone in its view, and hears what it sends to itself.

ghost use Rattle.std.specs.Prelude.{◌≡◌, ◌<◌, ◌≤◌, ◌++◌, ◌∷◌, [], drop, length, is_some, IfOk, None};
ghost use Rattle.disk_core.specs.Calls.{SameDisk};
ghost use Rattle.update_records.specs.Validity.{IsValid};
ghost use Rattle.cluster_rules.specs.Worlds.{sent};
ghost use Rattle.cluster_node.specs.Events.{Batches, Connects, HangsUp, HearsBytes};
ghost use Rattle.cluster_node.specs.States as states;
ghost use Rattle.single_rules.specs.Single.{view_of_one};
ghost use Rattle.single_node.specs.Singles.{Delivers, Installs, KeepsRoom, Opens, Sends, halt_cause};

use crate::fault::StartFault;
use cluster_member::Effects;
use cluster_node::Node;
use cluster_rules::{Effect, HaltCause};
use disk_core::Disk;
use gum_messages::{Member, Message, View};
use std::alloc::{AllocError, Global};
use std::marker::Model;
use update_records::Update;

/// The number of the node, and that of its one view.
const NODE: u16 = 1;

const VIEW: u32 = 1;

/// Node 1, which is open in a view of itself alone, with the messages that it has sent to itself and not heard yet.
///
/// It hears them one by one, the oldest first, each time that the caller asks for it. After an error it is to be dropped.
#[derive(Drop)]
pub struct Single {
    alloc: Global,
    node: Node,
    left: Vec<Message>,
}

impl Model for Single {
    ghost use Rattle.single_node.specs.Singles.{SingleState};

    ghost Value = { SingleState };

    ghost view = { λ s. record { node = s.node; left = s.left.items } };
}

impl Single {
    /// Starts the node and opens the log of the disk in a view of number 1; `stamp` is that of each record that it logs.
    pub fn open<D: Disk>(
        alloc: Global,
        disk: &mut D,
        inc: u64,
        stamp: u64,
    ) -> Result<Single, StartFault>
        requires size { 64 ≤ (D.view disk.old).size }
        requires incarnation { 0 < inc }
        ensures opens { Opens inc stamp (D.view disk.old) result (D.view disk.new) }
        ensures room { IfOk result (λ single. states.HasRoom single.node (D.view disk.new)) }
        ensures same_disk { SameDisk (D.view disk.old) (D.view disk.new) }
    {
        let mut node = Node::start(alloc, NODE, inc);
        node.clock(stamp);
        match install(alloc, disk, &mut node) {
            Ok(()) => Ok(Single {
                alloc,
                node,
                left: Vec::new(alloc),
            }),
            Err(fault) => Err(fault),
        }
    }

    pub fn is_stopped(&self) -> bool
        ensures { result ≡ states.is_stopped self.now.node }
    {
        self.node.is_stopped()
    }

    /// Whether the connection is open.
    pub fn is_connected(&self, conn: u32) -> bool
        ensures { result ≡ is_some (states.client_in conn self.now.node) }
    {
        self.node.is_connected(conn)
    }

    /// A connection begins. Its number was never used at this node.
    #[tactic(auto, using(cluster_node::proofs::KeepingRoom::connect_keeps_room, cluster_node::proofs::KeepingRoom::stopped_has_room))]
    pub fn connect(&mut self, conn: u32) -> Result<Effects, AllocError>
        requires unused { states.client_in conn self.old.node ≡ None }
        ensures connects { IfOk result (λ effects. Connects conn self.old.node.running self.new.node.running effects) }
        ensures left { IfOk result (λ effects. Sends self.old effects self.new) }
        ensures room { KeepsRoom self.old self.new }
    {
        let effects = self.node.connect(conn)?;
        keep_sent(self.alloc, &mut self.left, effects.as_slice())?;
        Ok(effects)
    }

    /// A piece of a connection's stream comes. On a connection that isn't open it does nothing.
    #[tactic(auto, using(cluster_node::proofs::KeepingRoom::bytes_keep_room, cluster_node::proofs::KeepingRoom::stopped_has_room))]
    pub fn bytes(&mut self, conn: u32, piece: &[u8]) -> Result<Effects, AllocError>
        ensures hears { IfOk result (λ effects. HearsBytes conn piece.now self.old.node.running self.new.node.running effects) }
        ensures left { IfOk result (λ effects. Sends self.old effects self.new) }
        ensures room { KeepsRoom self.old self.new }
    {
        let effects = self.node.bytes(conn, piece)?;
        keep_sent(self.alloc, &mut self.left, effects.as_slice())?;
        Ok(effects)
    }

    /// A client hangs up. On a connection that isn't open it does nothing.
    #[tactic(auto, using(cluster_node::proofs::KeepingRoom::hang_up_keeps_room, cluster_node::proofs::KeepingRoom::stopped_has_room))]
    pub fn hang_up(&mut self, conn: u32) -> Result<Effects, AllocError>
        ensures hangs_up { IfOk result (λ effects. HangsUp conn self.old.node.running self.new.node.running effects) }
        ensures left { IfOk result (λ effects. Sends self.old effects self.new) }
        ensures room { KeepsRoom self.old self.new }
    {
        let effects = self.node.hang_up(conn)?;
        keep_sent(self.alloc, &mut self.left, effects.as_slice())?;
        Ok(effects)
    }

    /// A batch is handed in, which no client sent.
    #[tactic(auto, using(cluster_node::proofs::KeepingRoom::batch_keeps_room, cluster_node::proofs::KeepingRoom::stopped_has_room))]
    pub fn batch(&mut self, update: Update) -> Result<Effects, AllocError>
        requires valid { IsValid update }
        ensures batches { IfOk result (λ effects. Batches update self.old.node.running self.new.node.running effects) }
        ensures left { IfOk result (λ effects. Sends self.old effects self.new) }
        ensures room { KeepsRoom self.old self.new }
    {
        let effects = self.node.batch(update)?;
        keep_sent(self.alloc, &mut self.left, effects.as_slice())?;
        Ok(effects)
    }

    /// The node hears the oldest of its messages. None where none is left.
    #[tactic(auto, using(cluster_node::proofs::KeepingRoom::receive_keeps_room, cluster_node::proofs::KeepingRoom::same_disk_has_room))]
    pub fn deliver<D: Disk>(&mut self, disk: &mut D) -> Result<Option<Effects>, AllocError>
        requires room { states.HasRoom self.old.node (D.view disk.old) }
        ensures delivers { Delivers self.old (D.view disk.old) result self.new (D.view disk.new) }
        ensures room { states.HasRoom self.new.node (D.view disk.new) }
        ensures same_disk { SameDisk (D.view disk.old) (D.view disk.new) }
    {
        let Some(message) = self.left.first() else {
            return Ok(None);
        };
        let effects = self.node.receive(disk, message)?;
        drop_first(&mut self.left);
        keep_sent(self.alloc, &mut self.left, effects.as_slice())?;
        Ok(Some(effects))
    }
}

/// The node installs a view of itself alone.
fn install<D: Disk>(alloc: Global, disk: &mut D, node: &mut Node) -> Result<(), StartFault>
    requires size { 64 ≤ (D.view disk.old).size }
    requires incarnation { 0 < node.old.inc }
    ensures installs { Installs (D.view disk.old) node.old result node.new (D.view disk.new) }
    ensures same { states.IsSameNode node.old node.new }
    ensures same_disk { SameDisk (D.view disk.old) (D.view disk.new) }
{
    let view = view_of(alloc, node.inc())?;
    let effects = node.install(disk, &view)?;
    match halt_cause(effects.as_slice()) {
        Some(cause) => Err(StartFault::Halted(cause)),
        None => Ok(()),
    }
}

/// The view of number 1, with this node alone.
fn view_of(alloc: Global, inc: u64) -> Result<View, AllocError>
    requires { 0 < inc }
    ensures { IfOk result (λ view. view ≡ view_of_one 1 1 inc) }
{
    let mut members = Vec::new(alloc);
    members.push(Member { node: NODE, inc })?;
    match View::new(VIEW, members) {
        Some(view) => Ok(view),
        None => unreachable!(),
    }
}

/// Why the node halted: the first effect says so.
pub fn halt_cause(effects: &[Effect]) -> Option<HaltCause>
    ensures { result ≡ halt_cause effects.now }
{
    match effects.first() {
        Some(Effect::Halted(cause)) => Some(*cause),
        _ => None,
    }
}

fn drop_first(left: &mut Vec<Message>)
    requires { 0 < length left.old.items }
    ensures { left.new.items ≡ drop 1 left.old.items }
{
    left.remove(0);
}

/// The messages among the effects stand behind those that are left.
fn keep_sent(alloc: Global, left: &mut Vec<Message>, effects: &[Effect]) -> Result<(), AllocError>
    ensures { IfOk result (λ _. left.new.items ≡ left.old.items ++ sent effects.now) }
{
    'effects: for effect in effects {
        keep_if_sent(alloc, left, effect)?;
    }
    Ok(())
}

fn keep_if_sent(alloc: Global, left: &mut Vec<Message>, effect: &Effect) -> Result<(), AllocError>
    ensures { IfOk result (λ _. left.new.items ≡ left.old.items ++ sent (effect.now ∷ [])) }
{
    match effect {
        Effect::Send(message) => left.push(message.copy(alloc)?)?,
        _ => {}
    }
    Ok(())
}
