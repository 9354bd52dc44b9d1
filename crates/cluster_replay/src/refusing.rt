//! Which events a world refuses.

ghost use Rattle.std.specs.Prelude.{◌≡◌, not, find, is_some, option_copied, option_map};
ghost use Rattle.std.specs.Option.{option_or};
ghost use Rattle.cluster_worlds.specs.Refusing.{not_running, not_started, refusal_in, running, unknown_connection, unknown_message, unknown_view, used_connection, was_started};
ghost use Rattle.cluster_worlds.specs.Worlds.{is_running, starts_of};
ghost use Rattle.cluster_replay.specs.Playing.{refusal_before};

use crate::world::{World, node_in};
use cluster_worlds::{BadEvent, Event, Inner};
use disk_core::CrashDisk;
use view_reconcile::{Member, View};

impl<D: CrashDisk + Drop> World<D> {
    /// Why the event can't happen. Whether a view continues the chain is asked later.
    pub(crate) fn refusal(&self, event: &Event) -> Option<BadEvent>
        ensures { result ≡ refusal_before event.now self.now.world }
    {
        match event {
            Event::Start(node) => self.running(*node),
            Event::Declare(view) => self.not_started(view),
            Event::Install { node, view } => self.unless_known(*node, *view),
            Event::Connect { conn, node } => self.unless_new(*conn, *node),
            Event::Bytes { conn, .. } => self.unknown_connection(*conn),
            Event::HangUp(conn) => self.unknown_connection(*conn),
            Event::Deliver(number) => self.unknown_message(*number),
            Event::Tick(node) => self.not_running(*node),
            Event::Checkpoint(node) => self.not_running(*node),
            Event::Fail(_) => None,
            Event::Die(node) => self.not_running(*node),
            Event::Clock { node, .. } => self.not_running(*node),
            Event::Batch { node, .. } => self.not_running(*node),
            Event::DieIn { inner, .. } => self.refusal_in(inner),
        }
    }

    fn refusal_in(&self, inner: &Inner) -> Option<BadEvent>
        ensures { result ≡ refusal_in inner.now self.now.world }
    {
        match inner {
            Inner::Install { node, view } => self.unless_known(*node, *view),
            Inner::Bytes { conn, .. } => self.unknown_connection(*conn),
            Inner::HangUp(conn) => self.unknown_connection(*conn),
            Inner::Deliver(number) => self.unknown_message(*number),
            Inner::Tick(node) => self.not_running(*node),
            Inner::Checkpoint(node) => self.not_running(*node),
        }
    }

    fn unless_known(&self, node: u16, view: u32) -> Option<BadEvent>
        ensures { result ≡ option_or (not_running node self.now.world) (unknown_view view self.now.world) }
    {
        match self.not_running(node) {
            Some(cause) => Some(cause),
            None => self.unknown_view(view),
        }
    }

    fn unless_new(&self, conn: u32, node: u16) -> Option<BadEvent>
        ensures { result ≡ option_or (used_connection conn self.now.world) (not_running node self.now.world) }
    {
        match self.used_connection(conn) {
            Some(cause) => Some(cause),
            None => self.not_running(node),
        }
    }

    fn is_running(&self, node: u16) -> bool
        ensures { result ≡ is_running node self.now.world }
    {
        node_in(self.nodes.as_slice(), node).is_some()
    }

    fn running(&self, node: u16) -> Option<BadEvent>
        ensures { result ≡ running node self.now.world }
    {
        if self.is_running(node) {
            Some(BadEvent::Running { node })
        } else {
            None
        }
    }

    fn not_running(&self, node: u16) -> Option<BadEvent>
        ensures { result ≡ not_running node self.now.world }
    {
        if self.is_running(node) {
            None
        } else {
            Some(BadEvent::NotRunning { node })
        }
    }

    fn not_started(&self, view: &View) -> Option<BadEvent>
        ensures { result ≡ not_started view.now.members self.now.world }
    {
        match self.first_not_started(view.members().as_slice()) {
            Some(member) => Some(BadEvent::NotStarted {
                node: member.node,
                inc: member.inc,
            }),
            None => None,
        }
    }

    fn first_not_started<'a>(&self, members: &'a [Member]) -> Option<&'a Member>
        ensures { option_copied result ≡ find (λ m. not (was_started self.now.world m)) members.now }
    {
        members.iter().find(|member| !self.was_started(member))
    }

    fn was_started(&self, member: &Member) -> bool
        ensures { result ≡ was_started self.now.world member.now }
    {
        member.inc <= self.starts_of(member.node)
    }

    pub(crate) fn starts_of(&self, node: u16) -> u64
        ensures { result ≡ starts_of node self.now.world }
    {
        if node == 0 {
            return 0;
        }
        match self.starts.get(node as usize - 1) {
            Some(starts) => *starts,
            None => 0,
        }
    }

    fn unknown_view(&self, view: u32) -> Option<BadEvent>
        ensures { result ≡ unknown_view view self.now.world }
    {
        if self.chain.view(view).is_some() {
            None
        } else {
            Some(BadEvent::UnknownView { view })
        }
    }

    fn unknown_message(&self, number: u64) -> Option<BadEvent>
        ensures { result ≡ unknown_message number self.now.world }
    {
        if self.journal.message(number).is_some() {
            None
        } else {
            Some(BadEvent::UnknownMessage { number })
        }
    }

    fn unknown_connection(&self, conn: u32) -> Option<BadEvent>
        ensures { result ≡ unknown_connection conn self.now.world }
    {
        if self.conns.contains_key(&conn) {
            None
        } else {
            Some(BadEvent::UnknownConnection { conn })
        }
    }

    fn used_connection(&self, conn: u32) -> Option<BadEvent>
        ensures { result ≡ used_connection conn self.now.world }
    {
        if self.conns.contains_key(&conn) {
            Some(BadEvent::UsedConnection { conn })
        } else {
            None
        }
    }
}
