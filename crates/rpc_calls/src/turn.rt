use crate::item::Item;

/// What taking the next frame of a stream came to.
pub(crate) enum Turn {
    /// There is no whole frame.
    Waits,
    /// A frame was taken, and gave an item or none.
    Went(Option<Item>),
}
