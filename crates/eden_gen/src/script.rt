//! The script of a number.
ghost use Rattle.std.specs.Prelude.{◌≡◌, ◌≤◌, ◌+◌, ◌*◌, ◌++◌, length, OnOk, IfOk};
ghost use Rattle.eden_gen.specs.Generated.{creations_text, draws_in, random, round_text, rounds_text, script_text};

use crate::draws::Draws;
use crate::lines::{add_call, add_crash, add_creation, add_set, node_of};
use std::alloc::{AllocError, Global};

const CELLS: u64 = 6;

const ROUNDS: u64 = 2000;

fn add_creations(cells: u64, out: &mut Vec<u8>) -> Result<(), AllocError>
    ensures text { OnOk result (out.new.items ≡ out.old.items ++ creations_text cells) }
    ensures short { OnOk result (length out.new.items ≤ length out.old.items + cells * 60) }
{
    for behind in 0..cells {
        add_creation(behind + 1, out)?;
    }
    Ok(())
}

// The lines of one round, as of a script whose draws begin here.
fn add_round(draws: &mut Draws, round: u64, out: &mut Vec<u8>) -> Result<(), AllocError>
    ensures text { OnOk result (out.new.items ≡ out.old.items ++ round_text draws.old.random 0 round) }
    ensures short { OnOk result (length out.new.items ≤ length out.old.items + 110) }
    ensures draws { OnOk result (draws.new.random ≡ random draws.old.random (draws_in draws.old.random 0)) }
{
    let choice = draws.draw(16);
    let cell = draws.draw(6) + 1;
    match choice {
        0..=5 => add_set(round, cell, draws.draw(1000), out),
        6..=9 => add_call(round, cell, "Get()", out),
        10..=12 => add_call(round, cell, "Save()", out),
        13 => out.extend_from_slice(b"go 40\n"),
        14 => add_crash(node_of(cell), out),
        _ => out.extend_from_slice(b"go 200\n"),
    }
}

fn add_rounds(seed: u64, rounds: u64, out: &mut Vec<u8>) -> Result<(), AllocError>
    ensures text { OnOk result (out.new.items ≡ out.old.items ++ rounds_text seed rounds) }
    ensures short { OnOk result (length out.new.items ≤ length out.old.items + rounds * 110) }
{
    let mut draws = Draws { random: seed };
    for behind in 0..rounds {
        add_round(&mut draws, behind + 1, out)?;
    }
    Ok(())
}

/// The script of a number: three nodes with six Cells, and 2,000 rounds, each of which draws a call of a Cell, some turns, or a
/// crash with a restart.
///
/// The same number has the same script always.
pub fn gen_script(alloc: Global, number: u64) -> Result<Vec<u8>, AllocError>
    ensures text { IfOk result (λ script. script.items ≡ script_text number) }
    // It is no longer than a script may be.
    ensures short { IfOk result (λ script. length script.items ≤ 1048576) }
{
    let mut script = Vec::from_slice(alloc, b"nodes 3\n")?;
    add_creations(CELLS, &mut script)?;
    add_rounds(number, ROUNDS, &mut script)?;
    script.extend_from_slice(b"go 5000\nend\n")?;
    Ok(script)
}
