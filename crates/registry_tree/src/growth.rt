/// How a change makes the size of a registry greater, and what it gives free, in bytes.
#[derive(Clone, Copy, Debug)]
pub struct Growth {
    pub added: usize,
    pub freed: usize,
}
