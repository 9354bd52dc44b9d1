use cluster_worlds::Event;
use wire_fields::Octets;

/// What a line of a script says.
#[derive(Debug, Drop)]
pub enum Line {
    /// Nothing: the line is empty, or a remark.
    Empty,
    /// The greatest size of the registry, in bytes.
    Cap(u32),
    /// An event of the world.
    Step(Event),
    /// Delivers at most so many of the messages that were neither delivered nor passed over, the lowest first.
    Pump(u32),
    /// Passes over at most so many of these messages.
    Skip(u32),
    /// Delivers the message that this number picks among all.
    Pick(u32),
    /// The bytes of a bind come on this connection.
    Bind(u32),
    /// The bytes of a request come on this connection.
    Request { conn: u32, opnum: u16, stub: Octets },
    /// Prints this node.
    Show(u16),
}
