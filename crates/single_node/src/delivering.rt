//! The node's messages are delivered to it, the oldest first, until none is left.

ghost use Rattle.single_node.specs.Delivering.{DeliveryGoesOn, DeliveryStops, PieceBegins};

/// Behind a piece of a connection's stream, and behind each message that was heard, the node is where Alone says, with what
/// was told and logged since; each message leaves less to hear, or the node halts at it.
pub fn messages_are_delivered()
    ensures begins { PieceBegins }
    ensures goes_on { DeliveryGoesOn }
    ensures stops { DeliveryStops }
{}
