//! What changes nothing, or the clock alone, between updates.

ghost use Rattle.std.specs.Prelude.{◌≡◌, ◌≤◌, ℕ, true};
ghost use Rattle.cluster_rules.specs.Nodes.{nothing};
ghost use Rattle.cluster_rules.specs.Receiving.{checkpoint, clock, tick};
ghost use Rattle.single_rules.specs.Single.{Single, at_rest};

use crate::AnyMachine;

/// A tick repeats nothing.
#[tactic(auto, using(crate::proofs::Events::tick_at_rest))]
pub fn tick_at_rest<M: AnyMachine>()
    ensures { (a : Single M.machine) → tick (at_rest a) ≡ nothing (at_rest a) }
{}

/// The clock sets the stamp of the next records.
#[tactic(auto, using(crate::proofs::Events::clock_at_rest))]
pub fn clock_at_rest<M: AnyMachine>()
    ensures { (a : Single M.machine) (stamp : ℕ) → clock (at_rest a) stamp ≡ nothing (at_rest (record a { stamp = stamp })) }
{}

/// A checkpoint of the log that it owns leaves the node as it is.
#[tactic(auto, using(crate::proofs::Events::checkpoints_at_rest))]
pub fn checkpoints_at_rest<M: AnyMachine>()
    ensures { (a : Single M.machine) (held : ℕ) → held ≤ a.view → checkpoint (at_rest a) held true ≡ nothing (at_rest a) }
{}
