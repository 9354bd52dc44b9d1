//! The node's events: a piece of the connection's stream, and a message that it sent to itself.

ghost use Rattle.std.specs.Prelude.{List, ℕ};
ghost use Rattle.update_records.specs.Entry.{Entry};
ghost use Rattle.single_items.specs.Alone.{AloneRun};
ghost use Rattle.single_items.specs.Promises.{MessageLeads, PieceLeads};
ghost use Rattle.single_items.specs.Standing.{NodeAlone, StandsAt};

/// A piece of the stream comes while no message is under way: the items that were taken are Alone's, also where an update of
/// theirs is queued, the stream has a fault behind them, or the log is full.
pub fn hears_piece()
    ensures { (c : ℕ) (first : AloneRun) (stream : List ℕ) (z : NodeAlone) (output : List ℕ) (records : List Entry)
        → StandsAt c first stream z output records → PieceLeads c first stream z output records }
{}

/// The oldest message comes, and the node doesn't halt: it logs Alone's record, answers the call as Alone does and goes on with
/// the connection's items, or has its lock free again.
#[tactic(auto, using(crate::proofs::Hearing::hears_message))]
pub fn hears_message()
    ensures { (c : ℕ) (first : AloneRun) (stream : List ℕ) (z : NodeAlone) (output : List ℕ) (records : List Entry)
        → StandsAt c first stream z output records → MessageLeads c first stream z output records }
{}
