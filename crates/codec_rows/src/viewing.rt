//! Rows of views.

use crate::words::Words;
use gum_messages::{Member, View};
use row_words::RowFault;
use std::alloc::Global;

/// Prints the number, the locker and the members of a view's copy.
pub(crate) fn view_row(alloc: Global, words: &mut Words<'_>) -> Result<String, RowFault> {
    match view_of(alloc, words)? {
        Some(view) => tell_view(alloc, &view.copy(alloc)?),
        None => Ok(format!(in alloc; "refused\n")?),
    }
}

/// Prints the incarnation of a node in a view.
pub(crate) fn incarnation_row(alloc: Global, words: &mut Words<'_>) -> Result<String, RowFault> {
    let node = words.u16()?;
    let view = view_of(alloc, words)?.ok_or(RowFault::Bad)?;
    let inc = view.members().incarnation(node);
    Ok(format!(in alloc; "incarnation {inc}\n")?)
}

fn view_of(alloc: Global, words: &mut Words<'_>) -> Result<Option<View>, RowFault> {
    let number = words.u32()?;
    let members = members_of(alloc, words.rest())?;
    Ok(View::new(number, members))
}

fn members_of(alloc: Global, text: &str) -> Result<Vec<Member>, RowFault> {
    let mut members = Vec::new(alloc);
    if text.is_empty() {
        return Ok(members);
    }
    for word in text.split(' ') {
        members.push(member_of(word)?)?;
    }
    Ok(members)
}

fn member_of(word: &str) -> Result<Member, RowFault> {
    let (node, inc) = word.split_once('.').ok_or(RowFault::Bad)?;
    Ok(Member {
        node: node.parse()?,
        inc: inc.parse()?,
    })
}

fn tell_view(alloc: Global, view: &View) -> Result<String, RowFault> {
    let number = view.number();
    let mut text = format!(in alloc; "view {number}")?;
    match view.locker() {
        Some(node) => text.push_str(&format!(in alloc; " locker {node} members")?)?,
        None => text.push_str(" empty")?,
    }
    for member in view.members().as_slice() {
        let node = member.node;
        let inc = member.inc;
        text.push_str(&format!(in alloc; " {node}.{inc}")?)?;
    }
    text.push('\n')?;
    Ok(text)
}
