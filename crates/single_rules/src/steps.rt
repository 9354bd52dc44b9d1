//! The events of an update: it is submitted, and the node hears its Ask, its Granted and its Release.

ghost use Rattle.std.specs.Prelude.{◌≡◌, ◌+◌, ◌<◌, ◌≤◌, ◌∷◌, [], ℕ, Some, None};
ghost use Rattle.update_records.specs.declared.update.Update.{Update};
ghost use Rattle.gum_core.specs.Updating.{last_place, last_request};
ghost use Rattle.cluster_rules.specs.declared.effect.Effect.TheVariants.{Acked, Send};
ghost use Rattle.cluster_rules.specs.Nodes.{acknowledges, becomes, nothing};
ghost use Rattle.cluster_rules.specs.Receiving.{receive};
ghost use Rattle.cluster_rules.specs.Updates.{Answer, Written, submit, unlogged};
ghost use Rattle.single_rules.specs.Single.{IsSound, Single, ask, asking, at_rest, following, grant, granting, made, outcome_of, release, releasing, updated};

use crate::AnyMachine;

/// At rest it queues an update, and asks itself for it.
#[tactic(auto, using(crate::proofs::Events::submits_one))]
pub fn submits_one<M: AnyMachine>()
    ensures { (a : Single M.machine) (u : Update) → a.passed < last_request
        → submit (at_rest a) u ≡ becomes (asking a u) (Send (ask a u) ∷ []) }
{}

/// It hears the Ask: it logs and applies the record at the next place, and grants itself the lock.
#[tactic(auto, using(crate::proofs::Events::grants_one))]
pub fn grants_one<M: AnyMachine>()
    ensures { (a : Single M.machine) (u : Update) (held : ℕ) → IsSound a → a.done < last_place → held ≤ a.view
        → receive (asking a u) (ask a u) held Written
        ≡ record { out = becomes (granting a u) (Send (grant a u) ∷ []); appended = Some (made a u); doubtful = None } }
{}

/// It hears the Granted: the update is acknowledged at its place, with what it came to, and the lock is to be released.
#[tactic(auto, using(crate::proofs::Events::finishes_one))]
pub fn finishes_one<M: AnyMachine>()
    ensures { (a : Single M.machine) (u : Update) (held : ℕ) (answer : Answer) → IsSound a
        → receive (granting a u) (grant a u) held answer
        ≡ unlogged (acknowledges (releasing a u) (Some (outcome_of a u)) (Acked a.view (a.done + 1) ∷ Send (release a) ∷ [])) }
{}

/// It hears the Release: it is at rest again.
#[tactic(auto, using(crate::proofs::Events::frees_one))]
pub fn frees_one<M: AnyMachine>()
    ensures { (a : Single M.machine) (u : Update) (held : ℕ) (answer : Answer) → IsSound a
        → receive (releasing a u) (release a) held answer ≡ unlogged (nothing (at_rest (updated a u))) }
{}

/// Behind an acknowledgement, before the Release comes, a further update is queued and asked for as well.
#[tactic(auto, using(crate::proofs::Events::submits_next))]
pub fn submits_next<M: AnyMachine>()
    ensures { (a : Single M.machine) (u next : Update) → a.passed + 1 < last_request
        → submit (releasing a u) next ≡ becomes (following a u next) (Send (ask (updated a u) next) ∷ []) }
{}

/// Behind the Release that Ask finds the lock free.
#[tactic(auto, using(crate::proofs::Events::frees_next))]
pub fn frees_next<M: AnyMachine>()
    ensures { (a : Single M.machine) (u next : Update) (held : ℕ) (answer : Answer) → IsSound a
        → receive (following a u next) (release a) held answer ≡ unlogged (nothing (asking (updated a u) next)) }
{}

/// Before the Release it would find the lock taken, and be lost until a tick: so messages come in the order in which they
/// were sent.
#[tactic(auto, using(crate::proofs::Events::asks_early))]
pub fn asks_early<M: AnyMachine>()
    ensures { (a : Single M.machine) (u next : Update) (held : ℕ) (answer : Answer) → IsSound a
        → receive (following a u next) (ask (updated a u) next) held answer ≡ unlogged (nothing (following a u next)) }
{}
