//! A script is carried out over disks, and the text of its log is made.
ghost use Rattle.std.specs.Prelude.{◌≡◌, ◌≤◌, IsTrue, IfOk, length, map};
ghost use Rattle.eden_value.specs.Datum.{Datum};
ghost use Rattle.passive_store.specs.Seen.{disk_seen};
ghost use Rattle.move_world.specs.Disks.{KeepNothing};
ghost use Rattle.move_world.specs.Kept.{rows};
ghost use Rattle.move_world.specs.Logs.{blank_world, all_entries, IsLegalMove};
ghost use Rattle.move_world.specs.Counted.{AllCounted, CountsAsTold};
ghost use Rattle.move_world.specs.Texts as texts;
ghost use Rattle.move_world.specs.View.{meant, entry_of, log_of};
ghost use Rattle.move_world.specs.Worlds.{standings, IsWorld, IsOf, commands_of, AreInReach};

use crate::answer::Log;
use crate::commands::MoveCommand;
use crate::reading::MoveScript;
use crate::run::run_moves;
use crate::text::text_of;
use crate::world::MoveWorld;
use passive_store::Store;
use std::alloc::{AllocError, Global};
use std::mem;

/// The log of a script, and its text.
#[derive(Drop)]
pub struct Moved {
    pub log: Log,
    pub text: Vec<u8>,
}

/// Opens so many nodes, and carries out the commands; with the text of the log.
fn told_run<St: Store>(
    alloc: Global,
    world: &mut MoveWorld<St>,
    nodes: u8,
    commands: Vec<MoveCommand>,
) -> Result<Moved, AllocError>
where
    St::Device: Drop,
    requires world { IsWorld (standings St.seen (disk_seen St.Device.counts St.Device.told St.Device.due) world.old.seats.items)
        (rows world.old.letters) }
    requires nodes { nodes ≤ 8 }
    requires reach { AreInReach (map meant commands.items) }
    ensures world { IsWorld (standings St.seen (disk_seen St.Device.counts St.Device.told St.Device.due) world.new.seats.items)
        (rows world.new.letters) }
    ensures nodes { IfOk result (λ done. done.log.nodes ≡ nodes) }
    ensures all { IfOk result (λ done. commands_of (map entry_of done.log.entries.items) ≡ map meant commands.items) }
    ensures text { IfOk result (λ done. done.text.items ≡ texts.text_of (log_of done.log)) }
    ensures counted { let look = disk_seen St.Device.counts St.Device.told St.Device.due in
        IfOk result (λ done. AllCounted (all_entries (log_of done.log))
        (standings St.seen look world.old.seats.items) (standings St.seen look world.new.seats.items)) }
    ensures legal { let look = disk_seen St.Device.counts St.Device.told St.Device.due in IsTrue St.Device.tells
        → IsOf St.layout (standings St.seen look world.old.seats.items) (rows world.old.letters) blank_world
        → IfOk result (λ done. IsLegalMove (log_of done.log)) }
{
    let log = run_moves(alloc, world, nodes, commands)?;
    let text = text_of(alloc, &log)?;
    Ok(Moved { log, text })
}

/// Carries a script out over eight disks, by the numbers of their nodes, and gives the log with its text. There are eight disks again, also
/// where memory runs out.
///
/// Over disks that keep nothing each answer of the log is what its rule says over what the nodes had then.
pub fn carry_moves<St: Store + Drop>(
    alloc: Global,
    script: MoveScript,
    disks: &mut Vec<St::Device>,
) -> Result<Moved, AllocError>
where
    St::Device: Drop,
    requires eight { length disks.old.items ≡ 8 }
    requires nodes { script.nodes ≤ 8 }
    requires reach { AreInReach (map meant script.commands.items) }
    ensures nodes { IfOk result (λ done. done.log.nodes ≡ script.nodes) }
    ensures all { IfOk result (λ done. commands_of (map entry_of done.log.entries.items) ≡ map meant script.commands.items) }
    ensures text { IfOk result (λ done. done.text.items ≡ texts.text_of (log_of done.log)) }
    ensures legal { let look = disk_seen St.Device.counts St.Device.told St.Device.due in IsTrue St.Device.tells
        → KeepNothing St.layout (map look disks.old.items) → IfOk result (λ done. IsLegalMove (log_of done.log)) }
    // Each disk counts as many more faults and stops as the log has answers of its node that say so.
    ensures counts { let look = disk_seen St.Device.counts St.Device.told St.Device.due in
        IfOk result (λ done. CountsAsTold (log_of done.log) (map look disks.old.items) (map look disks.new.items)) }
    ensures eight { length disks.new.items ≡ 8 }
{
    let MoveScript { nodes, commands } = script;
    let mut room = Vec::new(alloc);
    room.reserve(8)?;
    let mut world = match MoveWorld::<St>::new(alloc, mem::replace(disks, Vec::new(alloc))) {
        Ok(world) => world,
        Err((back, e)) => {
            *disks = back;
            return Err(e);
        }
    };
    let done = told_run(alloc, &mut world, nodes, commands);
    *disks = world.close(room);
    done
}
