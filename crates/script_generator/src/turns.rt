//! One round of a generated script.

ghost use Rattle.std.specs.Prelude.{◌≡◌, ◌<◌, ◌≤◌, ◌^◌, ℕ, IfOk, OnOk, string_bytes};
ghost use Rattle.script_generator.specs.Clusters.{IsWithin, reborn};
ghost use Rattle.script_generator.specs.Rounds as rounds;
ghost use Rattle.script_generator.specs.Rounds.{death, death_lines, other, pick, pump, query_value, round, set_value, tick};

use crate::cluster::Cluster;
use crate::draws::Draws;
use crate::lines::{client_lines, install_lines, line_of_one, view_line};
use crate::requests::{query_line, set_line};
use std::alloc::{AllocError, Global};

/// The lines of the round with this number.
#[tactic(auto, unfolding(crate::specs::Rounds::round))]
pub(crate) fn turn(
    alloc: Global,
    number: u64,
    cluster: &mut Cluster,
    draws: &mut Draws,
) -> Result<String, AllocError>
    requires room { (most : ℕ) × IsWithin most cluster.old × (most < 2 ^ 63) }
    ensures lines { IfOk result (λ lines. string_bytes lines ≡ (round number cluster.old draws.old.x).lines) }
    ensures cluster { OnOk result (cluster.new ≡ (round number cluster.old draws.old.x).cluster) }
    ensures draws { OnOk result (draws.new.x ≡ (round number cluster.old draws.old.x).x) }
{
    if number % 100 == 0 {
        death(alloc, cluster, draws)
    } else {
        other(alloc, cluster, draws)
    }
}

/// One of the nodes dies and starts again.
#[tactic(auto, unfolding(crate::specs::Rounds::death))]
fn death(alloc: Global, cluster: &mut Cluster, draws: &mut Draws) -> Result<String, AllocError>
    requires room { (most : ℕ) × IsWithin most cluster.old × (most < 2 ^ 63) }
    ensures lines { IfOk result (λ lines. string_bytes lines ≡ (death cluster.old draws.old.x).lines) }
    ensures cluster { OnOk result (cluster.new ≡ (death cluster.old draws.old.x).cluster) }
    ensures draws { OnOk result (draws.new.x ≡ (death cluster.old draws.old.x).x) }
{
    let node = 1 + draws.draw(3);
    cluster.rebear(node);
    death_lines(alloc, node, cluster)
}

/// By the cluster behind it.
#[tactic(auto, unfolding(crate::specs::Rounds::death_lines))]
fn death_lines(alloc: Global, node: u64, cluster: &Cluster) -> Result<String, AllocError>
    ensures { IfOk result (λ lines. string_bytes lines ≡ death_lines node cluster.now) }
{
    let die = line_of_one(alloc, "die", node)?;
    let start = line_of_one(alloc, "start", node)?;
    let view = view_line(alloc, cluster)?;
    let installs = install_lines(alloc, cluster.view)?;
    let client = client_lines(alloc, cluster.greatest, node)?;
    format!(in alloc; "{die}{start}{view}{installs}pump 200\n{client}")
}

#[tactic(auto, unfolding(crate::specs::Rounds::other))]
fn other(alloc: Global, cluster: &Cluster, draws: &mut Draws) -> Result<String, AllocError>
    ensures lines { IfOk result (λ lines. string_bytes lines ≡ (other cluster.now draws.old.x).lines) }
    ensures draws { OnOk result (draws.new.x ≡ (other cluster.now draws.old.x).x) }
    ensures same { (other cluster.now draws.old.x).cluster ≡ cluster.now }
{
    let choice = draws.draw(8);
    chosen(alloc, choice, cluster, draws)
}

#[tactic(auto, unfolding(crate::specs::Rounds::choice))]
fn chosen(
    alloc: Global,
    choice: u64,
    cluster: &Cluster,
    draws: &mut Draws,
) -> Result<String, AllocError>
    ensures lines { IfOk result (λ lines. string_bytes lines ≡ (rounds.choice choice cluster.now draws.old.x).0) }
    ensures draws { OnOk result (draws.new.x ≡ (rounds.choice choice cluster.now draws.old.x).1) }
{
    match choice {
        0..=2 => set_value(alloc, cluster, draws),
        3 => query_value(alloc, cluster, draws),
        4 => pick(alloc, draws),
        5 => pump(alloc, draws),
        6 => tick(alloc, draws),
        _ => String::from_str(alloc, "skip 1\n"),
    }
}

#[tactic(auto, unfolding(crate::specs::Rounds::set_value))]
fn set_value(alloc: Global, cluster: &Cluster, draws: &mut Draws) -> Result<String, AllocError>
    ensures lines { IfOk result (λ lines. string_bytes lines ≡ (set_value cluster.now draws.old.x).0) }
    ensures draws { OnOk result (draws.new.x ≡ (set_value cluster.now draws.old.x).1) }
{
    let node = 1 + draws.draw(3);
    let digit = draws.draw(10);
    let number = draws.draw(65_536);
    let conn = cluster.conns.of_node(node);
    set_line(alloc, conn, node as u32, digit as u16, number as u32)
}

#[tactic(auto, unfolding(crate::specs::Rounds::query_value))]
fn query_value(alloc: Global, cluster: &Cluster, draws: &mut Draws) -> Result<String, AllocError>
    ensures lines { IfOk result (λ lines. string_bytes lines ≡ (query_value cluster.now draws.old.x).0) }
    ensures draws { OnOk result (draws.new.x ≡ (query_value cluster.now draws.old.x).1) }
{
    let node = 1 + draws.draw(3);
    let digit = draws.draw(10);
    let conn = cluster.conns.of_node(node);
    query_line(alloc, conn, node as u32, digit as u16)
}

#[tactic(auto, unfolding(crate::specs::Rounds::pick))]
fn pick(alloc: Global, draws: &mut Draws) -> Result<String, AllocError>
    ensures lines { IfOk result (λ lines. string_bytes lines ≡ (pick draws.old.x).0) }
    ensures draws { OnOk result (draws.new.x ≡ (pick draws.old.x).1) }
{
    let message = draws.draw(1_000_000);
    line_of_one(alloc, "pick", message)
}

#[tactic(auto, unfolding(crate::specs::Rounds::pump))]
fn pump(alloc: Global, draws: &mut Draws) -> Result<String, AllocError>
    ensures lines { IfOk result (λ lines. string_bytes lines ≡ (pump draws.old.x).0) }
    ensures draws { OnOk result (draws.new.x ≡ (pump draws.old.x).1) }
{
    let count = 1 + draws.draw(8);
    line_of_one(alloc, "pump", count)
}

#[tactic(auto, unfolding(crate::specs::Rounds::tick))]
fn tick(alloc: Global, draws: &mut Draws) -> Result<String, AllocError>
    ensures lines { IfOk result (λ lines. string_bytes lines ≡ (tick draws.old.x).0) }
    ensures draws { OnOk result (draws.new.x ≡ (tick draws.old.x).1) }
{
    let node = 1 + draws.draw(3);
    line_of_one(alloc, "tick", node)
}
