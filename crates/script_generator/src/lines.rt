//! The lines of a generated script that hold no request on a key.

ghost use Rattle.std.specs.Prelude.{◌≡◌, ◌∷◌, [], IfOk, string_bytes};
ghost use Rattle.script_generator.specs.Lines.{client_lines, install_lines, line, view_line};

use crate::cluster::Cluster;
use std::alloc::{AllocError, Global};

#[tactic(auto, unfolding(crate::specs::Lines::view_line))]
pub(crate) fn view_line(alloc: Global, cluster: &Cluster) -> Result<String, AllocError>
    ensures { IfOk result (λ line. string_bytes line ≡ view_line cluster.now) }
{
    let view = cluster.view;
    let first = cluster.incs.first;
    let second = cluster.incs.second;
    let third = cluster.incs.third;
    format!(in alloc; "view {view} 1.{first} 2.{second} 3.{third}\n")
}

/// All three nodes hear of the view.
#[tactic(auto, unfolding(crate::specs::Lines::install_lines))]
pub(crate) fn install_lines(alloc: Global, view: u64) -> Result<String, AllocError>
    ensures { IfOk result (λ lines. string_bytes lines ≡ install_lines view) }
{
    let first = line_of_two(alloc, "install", 1, view)?;
    let second = line_of_two(alloc, "install", 2, view)?;
    let third = line_of_two(alloc, "install", 3, view)?;
    format!(in alloc; "{first}{second}{third}")
}

/// A client connects to a node, binds, and asks for the root key with all rights.
#[tactic(auto, unfolding(crate::specs::Lines::client_lines))]
pub(crate) fn client_lines(alloc: Global, conn: u64, node: u64) -> Result<String, AllocError>
    ensures { IfOk result (λ lines. string_bytes lines ≡ client_lines conn node) }
{
    let connect = line_of_two(alloc, "connect", conn, node)?;
    let bind = line_of_one(alloc, "bind", conn)?;
    format!(in alloc; "{connect}{bind}request {conn} 28 3f000f00\n")
}

/// A word and a number.
pub(crate) fn line_of_one(alloc: Global, word: &str, number: u64) -> Result<String, AllocError>
    ensures { IfOk result (λ text. string_bytes text ≡ line word.now (number ∷ [])) }
{
    format!(in alloc; "{word} {number}\n")
}

/// A word and two numbers.
fn line_of_two(alloc: Global, word: &str, first: u64, second: u64) -> Result<String, AllocError>
    ensures { IfOk result (λ text. string_bytes text ≡ line word.now (first ∷ second ∷ [])) }
{
    format!(in alloc; "{word} {first} {second}\n")
}
