//! A round in the world of the protocol.

ghost use Rattle.std.specs.Prelude.{List, length};
ghost use Rattle.update_records.specs.declared.update.Update.{Update};
ghost use Rattle.update_records.specs.Limits.{IsUpdate};
ghost use Rattle.cluster_rules.specs.Worlds.{World, run};
ghost use Rattle.single_rules.specs.InWorlds.{RestsIn, RoundOf, round_events};
ghost use Rattle.single_rules.specs.Rounds.{HasRoom};
ghost use Rattle.single_rules.specs.Single.{IsSound, Single};

use crate::AnyMachine;

/// In every world where the node is alone and at rest and owns the log, a submit and three deliveries are its round:
/// the order has one record more, which is acknowledged and answered once, and the node is at rest again.
pub fn happens_in_worlds<M: AnyMachine>()
    ensures { (a : Single M.machine) (u : Update) (w : World M.machine) (valid : IsUpdate u) → RestsIn a w → IsSound a → HasRoom a 1
        → RoundOf a u w (run (round_events a.node (length w.pool) u valid) w) }
{}
