use wire_fields::Octets;

/// What is to be done next for a client.
#[derive(Debug, Drop)]
pub enum Ask {
    /// More of the server's stream is to be fed.
    Wait,
    /// These bytes are to be sent to the server.
    Write(Octets),
    /// This line is to be printed; it has its line feed.
    Line(Octets),
    /// Nothing: a command may be started.
    Idle,
}
