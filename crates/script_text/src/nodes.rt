//! The line that shows a node.

ghost use Rattle.std.specs.Prelude.{◌≡◌, IfOk, string_bytes};
ghost use Rattle.cluster_node.specs.States.{registry_in};
ghost use Rattle.script_text.specs.Lines.{rest_of_line};
ghost use Rattle.script_text.specs.Shows.{open_word, shows, state_word, state_words};

use crate::words::{hex_word, number_or_dash};
use cluster_node::Node;
use std::alloc::{AllocError, Global};

/// The line that shows the node with this number, with its line feed.
pub fn print_node(alloc: Global, number: u16, node: &Node) -> Result<Vec<u8>, AllocError>
    ensures { IfOk result (λ line. line.items ≡ shows number node.now) }
{
    Ok(node_line(alloc, number, node)?.into_bytes())
}

#[tactic(auto, unfolding(crate::specs::Shows::shows))]
fn node_line(alloc: Global, number: u16, node: &Node) -> Result<String, AllocError>
    ensures { IfOk result (λ line. string_bytes line ≡ shows number node.now) }
{
    let inc = node.inc();
    let view = node.view_number().unwrap_or(0);
    let open = open_word(node.is_open());
    let state = state_words(alloc, node)?;
    format!(in alloc; "node {number} inc {inc} view {view} {open}{state}")
}

#[tactic(auto, unfolding(crate::specs::Shows::state_words))]
fn state_words(alloc: Global, node: &Node) -> Result<String, AllocError>
    ensures { IfOk result (λ words. string_bytes words ≡ rest_of_line (state_words node.now)) }
{
    let done = number_or_dash(alloc, node.done())?;
    let state = state_word(alloc, node)?;
    format!(in alloc; " done {done} state {state}\n")
}

fn open_word(is_open: bool) -> &'static str
    ensures { result.now ≡ open_word is_open }
{
    if is_open { "open" } else { "closed" }
}

/// The encoding of the node's registry, or `-` without one.
fn state_word(alloc: Global, node: &Node) -> Result<String, AllocError>
    ensures { IfOk result (λ word. string_bytes word ≡ state_word (registry_in node.now)) }
{
    match node.registry() {
        Some(registry) => hex_word(alloc, &registry.to_bytes()?),
        None => String::from_str(alloc, "-"),
    }
}
