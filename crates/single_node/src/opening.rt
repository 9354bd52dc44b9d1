//! How a node comes to be alone, and how its connections begin and end.

ghost use Rattle.single_node.specs.Opening.{ConnectLeads, HangUpLeads, OpenFails, OpenLeads};

/// A node that was started and installs a view of itself alone is open over the log that it recovered, and has no connection;
/// or it halts for the fault at which the log wasn't recovered.
pub fn opens_alone()
    ensures opens { OpenLeads }
    ensures fails { OpenFails }
{}

/// A connection begins at a node that has none.
pub fn connect_leads()
    ensures { ConnectLeads }
{}

/// The client hangs up while no message is under way.
pub fn hang_up_leads()
    ensures { HangUpLeads }
{}
