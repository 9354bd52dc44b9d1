//! The protocol keeps its promises: after every list of events each registry is a prefix's of the one update order, each
//! acknowledged update stands in every later open view, and no incarnation answers at a point below an earlier one. Each
//! request is answered once, with what its own record comes to, and the order only grows. The definitions are those of
//! `cluster_rules`, the invariants and their proof stand in `proofs/`.
#![tactic(auto)]

mod progress;

ghost use Rattle.std.specs.Prelude.{◌≡◌, ◌++◌, ℕ, Bool, List};
ghost use Rattle.cluster_rules.specs.Machines.{Machine, IsMachine};
ghost use Rattle.cluster_rules.specs.Promises.{Answered, Kept, Recovers, Safe, Steady};
ghost use Rattle.update_records.specs.Entry.{Entry};
ghost use Rattle.cluster_rules.specs.Worlds.{Event, opening, run};

pub use progress::{monotone, unstuck};

/// What can be replicated: a deterministic state machine that reads back from its bytes. The laws speak of logs of a
/// capacity that the machine allows.
pub trait Replicated {
    ghost machine: { Machine };

    ghost lawful: { IsMachine machine };
}

/// Whatever messages are lost, repeated or reordered and wherever nodes die: every node's registry is the one that the
/// first `done` records of the order make, each record stands at its place and is one that the machine allows, and no
/// request is logged twice.
pub fn safe<R: Replicated>()
    ensures { (cap : ℕ) (events : List Event) → R.machine.IsCap cap → Safe (run events (opening R.machine cap)) }
{}

/// Each acknowledged update stands in the order, and in every node that is open in the view of its acknowledgement or in
/// a later one.
pub fn kept<R: Replicated>()
    ensures { (cap : ℕ) (events : List Event) → R.machine.IsCap cap → Kept (run events (opening R.machine cap)) }
{}

/// The points of the order at which one incarnation of a node answers never fall: neither those of its readers, nor the
/// places of its acknowledged updates, nor the one behind the other.
pub fn steady<R: Replicated>()
    ensures { (cap : ℕ) (events : List Event) → R.machine.IsCap cap → Steady (run events (opening R.machine cap)) }
{}

/// Each client of an update is told the place of its own record and what that record comes to there, and the requests of
/// an incarnation are answered in their order, each once and none left out.
pub fn answered<R: Replicated>()
    ensures { (cap : ℕ) (events : List Event) → R.machine.IsCap cap → Answered (run events (opening R.machine cap)) }
{}

/// The order only grows: no record of it is ever replaced or lost.
pub fn grows<R: Replicated>()
    ensures { (cap : ℕ) (events more : List Event) → R.machine.IsCap cap → (rest : List Entry)
        × ((run (events ++ more) (opening R.machine cap)).log.order ≡ (run events (opening R.machine cap)).log.order ++ rest) }
{}

/// A log that is recovered, at whatever moment, begins with the order as it stands then; at most a record whose append
/// was in doubt stands behind it.
pub fn recovered<R: Replicated>()
    ensures { (cap : ℕ) (events : List Event) (found : Bool) → R.machine.IsCap cap → Recovers (run events (opening R.machine cap)) found }
{}
