//! Views as rows tell them.

use gum_messages::{Member, View};
use row_words::RowFault;
use std::alloc::Global;

/// The number of a view, and its members behind it.
pub(crate) fn view_in(alloc: Global, text: &str) -> Result<View, RowFault> {
    let (number, text) = text.split_once(' ').ok_or(RowFault::Bad)?;
    let mut members = Vec::new(alloc);
    for word in text.split(' ') {
        let (node, inc) = word.split_once('.').ok_or(RowFault::Bad)?;
        members.push(Member {
            node: node.parse()?,
            inc: inc.parse()?,
        })?;
    }
    View::new(number.parse()?, members).ok_or(RowFault::Bad)
}
