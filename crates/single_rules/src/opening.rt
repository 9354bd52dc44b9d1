//! How a node comes to be alone and at rest.

ghost use Rattle.std.specs.Prelude.{◌≡◌, ◌<◌, ◌∷◌, [], ℕ, true, List};
ghost use Rattle.update_records.specs.Entry.{Entry};
ghost use Rattle.cluster_rules.specs.declared.effect.Effect.TheVariants.{Opened};
ghost use Rattle.cluster_rules.specs.declared.offering.Offering.{Offering};
ghost use Rattle.cluster_rules.specs.Joins.{entered, recovers, recovers_from, takes_view};
ghost use Rattle.cluster_rules.specs.Nodes.{becomes};
ghost use Rattle.single_rules.specs.Promises.{InPlaces, OnOrder};
ghost use Rattle.single_rules.specs.Single.{IsLastOf, IsSound, at_rest, opened_over, over_order, started, view_of_one};

use crate::AnyMachine;

/// A node that was started takes a view of which it is the only member.
#[tactic(auto, using(crate::proofs::Opens::takes_view_of_one))]
pub fn takes_view_of_one<M: AnyMachine>()
    ensures { (node inc stamp number : ℕ) → 0 < inc → 0 < number
        → takes_view (started M.machine node inc stamp) (view_of_one number node inc) ≡ true }
{}

/// It is open, and at rest, as soon as the log is recovered.
#[tactic(auto, using(crate::proofs::Opens::opens_alone, crate::proofs::Opens::opens_sound))]
pub fn opens_alone<M: AnyMachine>()
    ensures opens { (node inc stamp number : ℕ) (o : Offering) (registry : M.machine.Registry) → 0 < inc → 0 < number
        → recovers_from (entered (view_of_one number node inc) (started M.machine node inc stamp)) o registry
        ≡ becomes (at_rest (opened_over node inc number stamp o registry)) (Opened number ∷ []) }
    ensures sound { (node inc stamp number : ℕ) (o : Offering) (registry : M.machine.Registry) → 0 < inc → IsLastOf o.last o.count
        → IsSound (opened_over {M = M.machine} node inc number stamp o registry) }
{}

/// Over a log that holds an order, it opens with the registry of that order.
#[tactic(auto, using(crate::proofs::Opens::recovers_alone, crate::proofs::Opens::recovers_sound, crate::proofs::Opens::recovers_order))]
pub fn recovers_alone<M: AnyMachine>()
    ensures opens { (node inc stamp number cap : ℕ) (order : List Entry) → 0 < inc → 0 < number
        → recovers (entered (view_of_one number node inc) (started M.machine node inc stamp)) cap order
        ≡ becomes (at_rest (over_order M.machine node inc number stamp cap order)) (Opened number ∷ []) }
    ensures sound { (node inc stamp number cap : ℕ) (order : List Entry) → 0 < inc → InPlaces order
        → IsSound (over_order M.machine node inc number stamp cap order) }
    ensures on_order { (node inc stamp number cap : ℕ) (order : List Entry)
        → OnOrder cap order (over_order M.machine node inc number stamp cap order) }
{}
