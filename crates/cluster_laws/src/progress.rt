//! Nothing blocks, and nothing that was done is taken back.

ghost use Rattle.std.specs.Prelude.{ℕ, List};
ghost use Rattle.cluster_rules.specs.Progress.{Monotone, Unstuck};
ghost use Rattle.cluster_rules.specs.Worlds.{Event, opening, run};

use crate::Replicated;

/// No reachable world is stuck: where a view stands, each of its members running, and the log has room, ticks and
/// deliveries alone lead to a world in which each member is open and at rest, and each update that one took is
/// acknowledged. This holds even if every message that is under way is lost: only what is sent from then on is delivered.
pub fn unstuck<R: Replicated>()
    ensures { (cap : ℕ) (events : List Event) → R.machine.IsCap cap → Unstuck (run events (opening R.machine cap)) }
{}

/// Progress isn't taken back: where a message is delivered or a node ticks, each node keeps in its view the records that
/// it applied, the bytes that it pulled, the marks of its members and the requests that it finished, and it stays ready
/// and open. It stops only where a later view has claimed the log.
pub fn monotone<R: Replicated>()
    ensures { (cap : ℕ) (events : List Event) → R.machine.IsCap cap → Monotone (run events (opening R.machine cap)) }
{}
