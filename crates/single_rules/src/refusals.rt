//! Where the log doesn't take a record, or no number is left for one.

ghost use Rattle.std.specs.Prelude.{◌≡◌, ◌<◌, ◌≤◌, ◌∷◌, [], ℕ, Bool, false, Some, None};
ghost use Rattle.update_records.specs.declared.update.Update.{Update};
ghost use Rattle.gum_core.specs.Updating.{last_place, last_request};
ghost use Rattle.cluster_rules.specs.declared.effect.Effect.TheVariants.{Send};
ghost use Rattle.cluster_rules.specs.declared.effect.HaltCause.TheVariants.{Disk, Fenced};
ghost use Rattle.cluster_rules.specs.Nodes.{becomes, halts, nothing};
ghost use Rattle.cluster_rules.specs.Receiving.{checkpoint, receive, tick};
ghost use Rattle.cluster_rules.specs.Updates.{Answer, InDoubt, Unwritten, submit, unlogged};
ghost use Rattle.single_rules.specs.Single.{IsSound, Single, ask, asking, at_rest, made};

use crate::AnyMachine;

/// A later view has claimed the log: the node halts, and nothing is appended.
#[tactic(auto, using(crate::proofs::Refused::halts_fenced))]
pub fn halts_fenced<M: AnyMachine>()
    ensures { (a : Single M.machine) (u : Update) (held : ℕ) (answer : Answer) → IsSound a → a.done < last_place → a.view < held
        → receive (asking a u) (ask a u) held answer ≡ unlogged (halts (Fenced held)) }
{}

/// The append failed: the node halts, and the record is in doubt.
#[tactic(auto, using(crate::proofs::Refused::halts_in_doubt))]
pub fn halts_in_doubt<M: AnyMachine>()
    ensures { (a : Single M.machine) (u : Update) (held : ℕ) → IsSound a → a.done < last_place → held ≤ a.view
        → receive (asking a u) (ask a u) held InDoubt ≡ record { out = halts Disk; appended = None; doubtful = Some (made a u) } }
{}

/// A checkpoint before the append failed: the node halts, and nothing is in doubt.
#[tactic(auto, using(crate::proofs::Refused::halts_unwritten))]
pub fn halts_unwritten<M: AnyMachine>()
    ensures { (a : Single M.machine) (u : Update) (held : ℕ) → IsSound a → a.done < last_place → held ≤ a.view
        → receive (asking a u) (ask a u) held Unwritten ≡ unlogged (halts Disk) }
{}

/// The log is full: the Ask is not answered, and the update stays queued.
#[tactic(auto, using(crate::proofs::Refused::grants_none))]
pub fn grants_none<M: AnyMachine>()
    ensures { (a : Single M.machine) (u : Update) (held : ℕ) (answer : Answer) → IsSound a → last_place ≤ a.done
        → receive (asking a u) (ask a u) held answer ≡ unlogged (nothing (asking a u)) }
{}

/// Each tick asks again for an update that stays queued.
#[tactic(auto, using(crate::proofs::Refused::asks_again))]
pub fn asks_again<M: AnyMachine>()
    ensures { (a : Single M.machine) (u : Update) → tick (asking a u) ≡ becomes (asking a u) (Send (ask a u) ∷ []) }
{}

/// No request number is left: nothing is queued.
#[tactic(auto, using(crate::proofs::Refused::queues_none))]
pub fn queues_none<M: AnyMachine>()
    ensures { (a : Single M.machine) (u : Update) → last_request ≤ a.passed → submit (at_rest a) u ≡ nothing (at_rest a) }
{}

/// A checkpoint of a log that a later view has claimed halts the node.
#[tactic(auto, using(crate::proofs::Refused::checkpoint_fenced))]
pub fn checkpoint_fenced<M: AnyMachine>()
    ensures { (a : Single M.machine) (held : ℕ) (good : Bool) → a.view < held → checkpoint (at_rest a) held good ≡ halts (Fenced held) }
{}

/// So does one that fails.
#[tactic(auto, using(crate::proofs::Refused::checkpoint_fails))]
pub fn checkpoint_fails<M: AnyMachine>()
    ensures { (a : Single M.machine) (held : ℕ) → held ≤ a.view → checkpoint (at_rest a) held false ≡ halts Disk }
{}
