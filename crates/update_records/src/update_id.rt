/// Which request made an update: the node, its incarnation, and the number of the request in it.
#[derive(Clone, Copy, Debug, PartialEq, Eq)]
pub struct UpdateId {
    pub node: u16,
    pub inc: u64,
    pub req: u64,
}
