use clus_names::Path;

/// For whom an update was queued.
#[derive(Debug, Drop)]
pub enum Origin {
    /// A call of a connection.
    Call {
        conn: u32,
        call_id: u32,
        context: u16,
        opnum: u16,
        /// The path of the key that the update creates, where it creates one.
        target: Option<Path>,
    },
    /// A batch, which no client sent.
    Batch,
}
