//! Which record a message has a node log.

ghost use Rattle.std.specs.Prelude.{◌≡◌, ◌<◌, ◌≤◌, ℕ, Some};
ghost use Rattle.update_records.specs.declared.update.Update.{Update};
ghost use Rattle.gum_core.specs.Updating.{last_place};
ghost use Rattle.gum_messages.specs.Messages.{Sent};
ghost use Rattle.cluster_rules.specs.Nodes.{NodeState, number_of};
ghost use Rattle.cluster_rules.specs.Receiving.{receive};
ghost use Rattle.cluster_rules.specs.Updates.{InDoubt, Written};
ghost use Rattle.single_rules.specs.Logging.{no_entry, to_log};
ghost use Rattle.single_rules.specs.Single.{IsSound, Single, ask, asking, grant, granting, made, release, releasing};

use crate::AnyMachine;

/// At any node that no later view has fenced, `to_log` tells the record that a message has it append.
#[tactic(auto, using(crate::proofs::Told::logs_written, crate::proofs::Told::logs_in_doubt))]
pub fn logs_as_told<M: AnyMachine>()
    ensures written { (x : NodeState M.machine) (p : Sent) (held : ℕ) → held ≤ number_of x
        → (receive x p held Written).appended ≡ to_log x p }
    ensures in_doubt { (x : NodeState M.machine) (p : Sent) (held : ℕ) → held ≤ number_of x
        → (receive x p held InDoubt).doubtful ≡ to_log x p }
{}

/// Of the messages of an update alone, the Ask has a record logged, and no other.
#[tactic(auto, using(crate::proofs::Told::logs_ask, crate::proofs::Told::logs_no_granted, crate::proofs::Told::logs_no_release))]
pub fn logs_made<M: AnyMachine>()
    ensures ask { (a : Single M.machine) (u : Update) → IsSound a → a.done < last_place → to_log (asking a u) (ask a u) ≡ Some (made a u) }
    ensures granted { (a : Single M.machine) (u : Update) → IsSound a → to_log (granting a u) (grant a u) ≡ no_entry }
    ensures release { (a : Single M.machine) (u : Update) → IsSound a → to_log (releasing a u) (release a) ≡ no_entry }
{}
