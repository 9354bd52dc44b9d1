use uuid::Uuid;

/// A context handle as it is sent: 20 bytes (C706, 14.2.16.6).
#[derive(Clone, Copy, Debug, PartialEq, Eq)]
pub struct WireHandle {
    pub attributes: u32,
    pub id: Uuid,
}
