//! The whole script.

ghost use Rattle.std.specs.Prelude.{◌≡◌, IfOk, OnOk, ◌++◌, string_bytes};
ghost use Rattle.script_generator.specs.Clusters.{first_cluster};
ghost use Rattle.script_generator.specs.Lines.{client_lines};
ghost use Rattle.script_generator.specs.Rounds.{generated, opening, rounds};

use crate::cluster::Cluster;
use crate::draws::Draws;
use crate::lines::{client_lines, install_lines, view_line};
use crate::turns::turn;
use std::alloc::{AllocError, Global};

/// The script that this number generates: three nodes that start and are installed in their first view, a client at
/// each, and so many rounds.
#[tactic(auto, unfolding(crate::specs::Rounds::generated))]
pub fn generate(alloc: Global, number: u64, count: u32) -> Result<Vec<u8>, AllocError>
    ensures { IfOk result (λ script. script.items ≡ generated number count) }
{
    let mut script = opening(alloc)?.into_bytes();
    add_rounds(alloc, number, count, &mut script)?;
    Ok(script)
}

fn add_rounds(
    alloc: Global,
    number: u64,
    count: u32,
    script: &mut Vec<u8>,
) -> Result<(), AllocError>
    ensures { OnOk result (script.new.items ≡ script.old.items ++ rounds count 1 first_cluster number) }
{
    let mut cluster = Cluster::first();
    let mut draws = Draws { x: number };
    'rounds: for index in 0..count {
        let lines = turn(alloc, u64::from(index) + 1, &mut cluster, &mut draws)?;
        script.extend_from_slice(lines.as_bytes())?;
    }
    Ok(())
}

#[tactic(auto, unfolding(crate::specs::Rounds::opening))]
fn opening(alloc: Global) -> Result<String, AllocError>
    ensures { IfOk result (λ lines. string_bytes lines ≡ opening) }
{
    let view = view_line(alloc, &Cluster::first())?;
    let installs = install_lines(alloc, 1)?;
    let clients = opening_clients(alloc)?;
    format!(in alloc; "cap 1048576\nstart 1\nstart 2\nstart 3\n{view}{installs}pump 100\n{clients}")
}

fn opening_clients(alloc: Global) -> Result<String, AllocError>
    ensures { IfOk result (λ lines. string_bytes lines ≡ client_lines 1 1 ++ (client_lines 2 2 ++ client_lines 3 3)) }
{
    let first = client_lines(alloc, 1, 1)?;
    let second = client_lines(alloc, 2, 2)?;
    let third = client_lines(alloc, 3, 3)?;
    format!(in alloc; "{first}{second}{third}")
}
