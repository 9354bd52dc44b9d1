/// Which end of a connection takes the stream. A server joins requests, a client responses.
#[derive(Clone, Copy, Debug, PartialEq, Eq)]
pub enum Side {
    Server,
    Client,
}
