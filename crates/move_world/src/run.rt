//! Commands are carried out, one behind the other, and the log of them is kept.
ghost use Rattle.std.specs.Prelude.{◌≡◌, ◌≤◌, IsTrue, IfOk, map};
ghost use Rattle.eden_value.specs.Datum.{Datum};
ghost use Rattle.passive_store.specs.Seen.{disk_seen};
ghost use Rattle.move_laws.specs.World.{World as AnyWorld};
ghost use Rattle.move_world.specs.Kept.{rows};
ghost use Rattle.move_world.specs.Logs.{openings_from, blank_world, all_entries, IsLegalMove};
ghost use Rattle.move_world.specs.Counted.{AllCounted};
ghost use Rattle.move_world.specs.View.{meant, entry_of, log_of};
ghost use Rattle.move_world.specs.Worlds.{standings, IsWorld, IsOf, Reaches, commands_of, AreInReach};

use crate::answer::{Entry, Log};
use crate::commands::MoveCommand;
use crate::world::MoveWorld;
use passive_store::Store;
use std::alloc::{AllocError, Global};

/// The commands that open so many nodes.
fn openings(alloc: Global, nodes: u8) -> Result<Vec<MoveCommand>, AllocError>
    requires { nodes ≤ 8 }
    ensures opens { IfOk result (λ commands. map meant commands.items ≡ openings_from 1 nodes) }
{
    let mut commands = Vec::new(alloc);
    for n in 0..nodes {
        commands.push(MoveCommand::Restart { n: n + 1 })?;
    }
    Ok(commands)
}

/// Carries out commands, in order; each with its answer.
fn run_all<St: Store>(
    alloc: Global,
    world: &mut MoveWorld<St>,
    commands: Vec<MoveCommand>,
) -> Result<Vec<Entry>, AllocError>
where
    St::Device: Drop,
    requires world { IsWorld (standings St.seen (disk_seen St.Device.counts St.Device.told St.Device.due) world.old.seats.items)
        (rows world.old.letters) }
    requires reach { AreInReach (map meant commands.items) }
    ensures world { IsWorld (standings St.seen (disk_seen St.Device.counts St.Device.told St.Device.due) world.new.seats.items)
        (rows world.new.letters) }
    ensures all { IfOk result (λ es. commands_of (map entry_of es.items) ≡ map meant commands.items) }
    ensures counted { let look = disk_seen St.Device.counts St.Device.told St.Device.due in
        IfOk result (λ es. AllCounted (map entry_of es.items)
        (standings St.seen look world.old.seats.items) (standings St.seen look world.new.seats.items)) }
    ensures reaches { let look = disk_seen St.Device.counts St.Device.told St.Device.due in IsTrue St.Device.tells → (w : AnyWorld Datum)
        → IsOf St.layout (standings St.seen look world.old.seats.items) (rows world.old.letters) w
        → IfOk result (λ es. Reaches St.layout w (map entry_of es.items)
        (standings St.seen look world.new.seats.items) (rows world.new.letters)) }
{
    let mut entries = Vec::new(alloc);
    for command in commands {
        let answer = world.step(alloc, &command)?;
        entries.push(Entry { command, answer })?;
    }
    Ok(entries)
}

/// Opens so many nodes, in order, and carries out the commands. The log has all of them, each with its answer.
///
/// Over disks that keep nothing each answer is what its rule says over what the nodes had then.
pub fn run_moves<St: Store>(
    alloc: Global,
    world: &mut MoveWorld<St>,
    nodes: u8,
    commands: Vec<MoveCommand>,
) -> Result<Log, AllocError>
where
    St::Device: Drop,
    requires world { IsWorld (standings St.seen (disk_seen St.Device.counts St.Device.told St.Device.due) world.old.seats.items)
        (rows world.old.letters) }
    requires nodes { nodes ≤ 8 }
    requires reach { AreInReach (map meant commands.items) }
    ensures world { IsWorld (standings St.seen (disk_seen St.Device.counts St.Device.told St.Device.due) world.new.seats.items)
        (rows world.new.letters) }
    ensures nodes { IfOk result (λ log. log.nodes ≡ nodes) }
    ensures all { IfOk result (λ log. commands_of (map entry_of log.entries.items) ≡ map meant commands.items) }
    ensures counted { let look = disk_seen St.Device.counts St.Device.told St.Device.due in
        IfOk result (λ log. AllCounted (all_entries (log_of log))
        (standings St.seen look world.old.seats.items) (standings St.seen look world.new.seats.items)) }
    ensures legal { let look = disk_seen St.Device.counts St.Device.told St.Device.due in IsTrue St.Device.tells
        → IsOf St.layout (standings St.seen look world.old.seats.items) (rows world.old.letters) blank_world
        → IfOk result (λ log. IsLegalMove (log_of log)) }
{
    let opening = openings(alloc, nodes)?;
    let openings = run_all(alloc, world, opening)?;
    let entries = run_all(alloc, world, commands)?;
    Ok(Log {
        nodes,
        openings,
        entries,
    })
}
