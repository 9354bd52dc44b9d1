//! The promises of every run.

ghost use Rattle.std.specs.Prelude.{ℕ, List, [], ◌∷◌, ◌++◌, Ok};
ghost use Rattle.cluster_worlds.specs.declared.event.Event.{Event};
ghost use Rattle.cluster_worlds.specs.declared.told.Told.{Told};
ghost use Rattle.cluster_worlds.specs.Conditions.{IsEvent};
ghost use Rattle.cluster_worlds.specs.Runs.{IsOpening, Steps};
ghost use Rattle.cluster_worlds.specs.Worlds.{WorldState};
ghost use Rattle.world_laws.specs.Growing.{Grew};
ghost use Rattle.world_laws.specs.Kept.{Kept};
ghost use Rattle.world_laws.specs.Safe.{Safe};
ghost use Rattle.world_laws.specs.Typed.{IsTypedEvent, RunsTyped};

/// There is one update order: each node's registry is what its first records make, and each image that a crash now may
/// leave on the disk holds it, or it and one record in doubt behind it.
pub fn every_world_is_safe()
    ensures { (cap : ℕ) (first last : WorldState) (events : List Event) (tolds : List (List Told)) → IsOpening cap first
        → RunsTyped first events tolds last → Safe cap last }
{}

/// Each acknowledged update stands in the order, and in every node that is open in the view of its acknowledgement or in
/// a later one.
pub fn every_world_is_kept()
    ensures { (cap : ℕ) (first last : WorldState) (events : List Event) (tolds : List (List Told)) → IsOpening cap first
        → RunsTyped first events tolds last → Kept last }
{}

/// The order only grows, by the records of which the world tells that they joined it.
pub fn order_grows()
    ensures { (first last : WorldState) (events : List Event) (tolds : List (List Told)) → RunsTyped first events tolds last → Grew first tolds last }
{}

/// A run of no event, and one with an event more.
pub fn runs_go_on()
    ensures begins { (w : WorldState) → RunsTyped w [] [] w }
    ensures goes_on { (first w last : WorldState) (events : List Event) (tolds : List (List Told)) (e : Event) (t : List Told)
        → RunsTyped first events tolds w → IsEvent e → IsTypedEvent e → Steps e w (Ok t) last → RunsTyped first (events ++ e ∷ []) (tolds ++ t ∷ []) last }
{}
