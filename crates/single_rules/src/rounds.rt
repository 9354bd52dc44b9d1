//! Whole rounds: an update, and several in turn, until no message is left.

ghost use Rattle.std.specs.Prelude.{◌≡◌, ◌+◌, ◌≤◌, ◌∷◌, [], ◌++◌, ℕ, List, length, take, Some, slice_get};
ghost use Rattle.update_records.specs.Entry.{Entry};
ghost use Rattle.update_records.specs.declared.update.Update.{Update};
ghost use Rattle.cluster_rules.specs.Machines.{replay};
ghost use Rattle.cluster_rules.specs.Updates.{Written};
ghost use Rattle.single_rules.specs.Single.{IsSound, Single, at_rest};
ghost use Rattle.single_rules.specs.Rounds.{HasRoom, after_all, all_done, all_made, all_outcomes, round, rounds};
ghost use Rattle.single_rules.specs.Promises.{IsMade, OnOrder};

use crate::AnyMachine;

/// An update makes one record, is acknowledged at its place, and leaves no message and the node at rest.
#[tactic(auto, using(crate::proofs::InTurn::one_update))]
pub fn one_update<M: AnyMachine>()
    ensures { (a : Single M.machine) (u : Update) (held : ℕ) → IsSound a → HasRoom a 1 → held ≤ a.view
        → round held Written (at_rest a) u ≡ all_done a (u ∷ []) }
{}

/// So do several, one after the other.
#[tactic(auto, using(crate::proofs::InTurn::several_updates))]
pub fn several_updates<M: AnyMachine>()
    ensures { (a : Single M.machine) (us : List Update) (held : ℕ) → IsSound a → HasRoom a (length us) → held ≤ a.view
        → rounds held Written (at_rest a) us ≡ all_done a us }
{}

/// What the laws ask of a node alone stays true of it.
#[tactic(auto, using(crate::proofs::InTurn::stays_sound))]
pub fn stays_sound<M: AnyMachine>()
    ensures { (a : Single M.machine) (us : List Update) → IsSound a → IsSound (after_all a us) }
{}

/// Each update has one record and one finished request.
#[tactic(auto, using(crate::proofs::Orders::counts_made, crate::proofs::Orders::counts_done, crate::proofs::Orders::counts_passed))]
pub fn all_counted<M: AnyMachine>()
    ensures records { (a : Single M.machine) (us : List Update) → length (all_made a us) ≡ length us }
    ensures done { (a : Single M.machine) (us : List Update) → (after_all a us).done ≡ a.done + length us }
    ensures passed { (a : Single M.machine) (us : List Update) → (after_all a us).passed ≡ a.passed + length us }
{}

/// The records stand at the next places, with the ids of the next requests, in the order of the updates.
#[tactic(auto, using(crate::proofs::Orders::all_placed))]
pub fn all_placed<M: AnyMachine>()
    ensures { (a : Single M.machine) (us : List Update) (k : ℕ) (e : Entry) → slice_get (all_made a us) k ≡ Some e → IsMade a us k e }
{}

/// Each outcome is what its record comes to behind those before it.
#[tactic(auto, using(crate::proofs::Orders::all_outcomes_of))]
pub fn all_outcomes_of<M: AnyMachine>()
    ensures { (a : Single M.machine) (us : List Update) (k : ℕ) (e : Entry) → slice_get (all_made a us) k ≡ Some e
        → slice_get (all_outcomes a us) k ≡ Some (M.machine.apply e (replay M.machine (take k (all_made a us)) a.registry)).1 }
{}

/// The registry is what the records make of it.
#[tactic(auto, using(crate::proofs::Orders::replays))]
pub fn replays<M: AnyMachine>()
    ensures { (a : Single M.machine) (us : List Update) → (after_all a us).registry ≡ replay M.machine (all_made a us) a.registry }
{}

/// Where the registry is that of the whole order, it stays that of the longer order.
pub fn keeps_order<M: AnyMachine>()
    ensures { (cap : ℕ) (order : List Entry) (a : Single M.machine) (us : List Update) → OnOrder cap order a
        → OnOrder cap (order ++ all_made a us) (after_all a us) }
{}
