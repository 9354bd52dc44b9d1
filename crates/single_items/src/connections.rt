//! Connections, one after the other.

ghost use Rattle.std.specs.Prelude.{List, ℕ};
ghost use Rattle.update_records.specs.Entry.{Entry};
ghost use Rattle.single_items.specs.Alone.{AloneRun};
ghost use Rattle.single_items.specs.Promises.{ConnectsAlone, EndsUnconnected, HangingUpLeads, OpensOverOrder, OpensUnconnected};
ghost use Rattle.single_items.specs.Standing.{NodeAlone, StandsAt};

/// A node that has just opened has no connection. Over a log that holds an order it begins with the registry of that order, and
/// in the incarnation behind it.
#[tactic(auto, using(crate::proofs::Connecting::opens_unconnected, crate::proofs::Connecting::opens_over_order))]
pub fn opens()
    ensures unconnected { OpensUnconnected }
    ensures over_order { OpensOverOrder }
{}

/// A connection begins at a node that has none.
#[tactic(auto, using(crate::proofs::Connecting::connects_alone))]
pub fn connects()
    ensures { ConnectsAlone }
{}

/// The client hangs up while no message is under way.
#[tactic(auto, using(crate::proofs::Connecting::hangs_up))]
pub fn hangs_up()
    ensures { (c : ℕ) (first : AloneRun) (stream : List ℕ) (z : NodeAlone) (output : List ℕ) (records : List Entry)
        → StandsAt c first stream z output records → HangingUpLeads c first stream z output records }
{}

/// Behind a connection the node is again one without a connection: groups and handles go on, and Alone with them.
pub fn ends()
    ensures { (c : ℕ) (first : AloneRun) (stream : List ℕ) (z : NodeAlone) (output : List ℕ) (records : List Entry)
        → StandsAt c first stream z output records → EndsUnconnected c first stream z }
{}
