ghost use Rattle.std.specs.Prelude.{ℕ, Bool, List};
ghost use Rattle.registry_defs.specs.Contents.{IsCap};
ghost use Rattle.cluster_rules.specs.Promises.{Answered, Kept, Recovers, Safe, Steady};
ghost use Rattle.cluster_rules.specs.Worlds.{Event, opening, run};
ghost use Rattle.registry_machine.specs.Machine.{registry_machine};
ghost use Rattle.registry_laws.specs.Folds.{IsFold};

use crate::replicated::ReplicatedRegistry;
use cluster_laws::{answered, kept, recovered, safe, steady};

/// Whatever messages are lost, repeated or reordered and wherever nodes die: every node's registry is the one that the
/// first `done` records of the order make, each record stands at its place, and no request is logged twice.
pub fn registry_is_safe()
    ensures { (cap : ℕ) (events : List Event) → IsCap cap → Safe (run events (opening registry_machine cap)) }
{
    safe::<ReplicatedRegistry>();
}

/// Each acknowledged update stands in the order, and in every node that is open in the view of its acknowledgement or in
/// a later one.
pub fn registry_is_kept()
    ensures { (cap : ℕ) (events : List Event) → IsCap cap → Kept (run events (opening registry_machine cap)) }
{
    kept::<ReplicatedRegistry>();
}

/// The points of the order at which one incarnation of a node answers never fall.
pub fn registry_is_steady()
    ensures { (cap : ℕ) (events : List Event) → IsCap cap → Steady (run events (opening registry_machine cap)) }
{
    steady::<ReplicatedRegistry>();
}

/// Each client of an update is told the place of its own record and what that record comes to there, and the requests of
/// an incarnation are answered in their order, each once and none left out.
pub fn registry_is_answered()
    ensures { (cap : ℕ) (events : List Event) → IsCap cap → Answered (run events (opening registry_machine cap)) }
{
    answered::<ReplicatedRegistry>();
}

/// A log that is recovered, at whatever moment, begins with the order as it stands then; at most a record whose append
/// was in doubt stands behind it.
pub fn registry_is_recovered()
    ensures { (cap : ℕ) (events : List Event) (found : Bool) → IsCap cap → Recovers (run events (opening registry_machine cap)) found }
{
    recovered::<ReplicatedRegistry>();
}

/// Every node's registry is the fold of the update order by the registry's definitions, and obeys all limits and the cap;
/// what a client of an update is told is what the fold says of its record.
pub fn registry_is_the_fold()
    ensures { (cap : ℕ) (events : List Event) → IsCap cap → IsFold (run events (opening registry_machine cap)) }
{}
