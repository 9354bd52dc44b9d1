//! What it says that the node stands where Alone says.

ghost use Rattle.std.specs.Prelude.{List, ℕ};
ghost use Rattle.update_records.specs.Entry.{Entry};
ghost use Rattle.single_items.specs.Alone.{AloneRun};
ghost use Rattle.single_items.specs.Promises.{HaltsAlone, HaltsBecause, OrderGoesOn, TellsAlone, TellsFirst};
ghost use Rattle.single_items.specs.Standing.{NodeAlone, StandsAt};

/// With no message under way the connection was sent what Alone says of the items of its stream, and the records are Alone's.
pub fn tells_alone()
    ensures { (c : ℕ) (first : AloneRun) (stream : List ℕ) (z : NodeAlone) (output : List ℕ) (records : List Entry)
        → StandsAt c first stream z output records → TellsAlone c first stream z output records }
{}

/// At any moment what the connection was sent and what was logged are the first of that.
pub fn tells_first()
    ensures { (c : ℕ) (first : AloneRun) (stream : List ℕ) (z : NodeAlone) (output : List ℕ) (records : List Entry)
        → StandsAt c first stream z output records → TellsFirst c first stream output records }
{}

/// So they are where a message comes and the node halts, since a later view has claimed the log, or it has failed.
pub fn halts_alone()
    ensures { (c : ℕ) (first : AloneRun) (stream : List ℕ) (z : NodeAlone) (output : List ℕ) (records : List Entry)
        → StandsAt c first stream z output records → HaltsAlone c first stream z output records }
{}

/// It halts for no other reason.
pub fn halts_because()
    ensures { (c : ℕ) (first : AloneRun) (stream : List ℕ) (z : NodeAlone) (output : List ℕ) (records : List Entry)
        → StandsAt c first stream z output records → HaltsBecause first z }
{}

/// The order that the log holds goes on by the records, and the node has the registry of the whole order.
pub fn order_goes_on()
    ensures { (c : ℕ) (first : AloneRun) (stream : List ℕ) (z : NodeAlone) (output : List ℕ) (records : List Entry)
        → StandsAt c first stream z output records → OrderGoesOn first z records }
{}
