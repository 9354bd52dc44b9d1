//! One member of a view.

/// A node in one of its incarnations.
///
/// Nodes are numbered from 1 to 16. The incarnations of a node count its starts from 1.
#[derive(Clone, Copy, Debug, PartialEq, Eq)]
pub struct Member {
    pub node: u16,
    pub inc: u64,
}
