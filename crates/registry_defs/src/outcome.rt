/// What an update came to.
///
/// The status is 0 where it was made. A Create tells whether its key was made (disposition 1) or was there (2), and the
/// creation number of that key. A refused batch tells the number of the change that was refused, from 1.
#[derive(Clone, Copy, Debug, PartialEq, Eq)]
pub struct Outcome {
    pub status: u32,
    pub disposition: u32,
    pub birth: u64,
    pub index: u32,
}
