//! What the events of a node come to where it is alone.

ghost use Rattle.single_node.specs.Laws.{BytesLead, HaltLeads, MessageLeads};

/// A piece of the connection's stream leads the node on, while none of its messages is under way.
pub fn bytes_lead()
    ensures { BytesLead }
{}

/// So does the oldest of its messages: the record that it has the node log is Alone's next one, and less is left to hear.
pub fn message_leads()
    ensures { MessageLeads }
{}

/// Where the node halts at it, since the log is fenced or failed, the records are the first of Alone's all the same.
pub fn halt_leads()
    ensures { HaltLeads }
{}
