//! Commands are carried out, one behind the other, and the log of them is kept.
ghost use Rattle.std.specs.Prelude.{◌≡◌, ◌≤◌, IsTrue, IfOk, length, map};
ghost use Rattle.passive_store.specs.Layout.{IsLayout};
ghost use Rattle.passive_store.specs.Seen.{disk_seen};
ghost use Rattle.twin_world.specs.Disks.{ZerosKeepNothing};
ghost use Rattle.twin_world.specs.Logs.{IsLegalTwin};
ghost use Rattle.twin_world.specs.Scripts.{commands_of, AreInReach};
ghost use Rattle.twin_world.specs.Texts as texts;
ghost use Rattle.twin_world.specs.View.{meant, entry_of, log_of};
ghost use Rattle.twin_world.specs.Worlds.{standings, IsWorld, CanGoOn, AreBlank, Reaches, Runs};

use crate::answer::{Done, Entry, Log};
use crate::commands::TwinCommand;
use crate::text::text_of;
use crate::world::TwinWorld;
use passive_store::Store;
use std::alloc::{AllocError, Global};

/// The log of a script, and its text.
#[derive(Drop)]
pub struct Twinned {
    pub log: Log,
    pub text: Vec<u8>,
}

/// Carries out commands, in order; each with its answer.
fn run_all<St: Store>(
    alloc: Global,
    world: &mut TwinWorld<St>,
    commands: Vec<TwinCommand>,
) -> Result<Log, AllocError>
where
    St::Device: Drop,
    requires world { IsWorld (standings St.seen (disk_seen St.Device.counts St.Device.told St.Device.due) world.old.places.items) }
    requires reach { AreInReach (map meant commands.items) }
    ensures world { IsWorld (standings St.seen (disk_seen St.Device.counts St.Device.told St.Device.due) world.new.places.items) }
    ensures all { IfOk result (λ log. commands_of (map entry_of log.entries.items) ≡ map meant commands.items) }
    ensures runs { let look = disk_seen St.Device.counts St.Device.told St.Device.due in
        IfOk result (λ log. Runs St.Device.tells St.layout (map entry_of log.entries.items)
        (standings St.seen look world.old.places.items) (standings St.seen look world.new.places.items)) }
    ensures reaches { let look = disk_seen St.Device.counts St.Device.told St.Device.due in IsTrue St.Device.tells → IsLayout St.layout
        → ZerosKeepNothing St.layout → CanGoOn (length commands.items) (standings St.seen look world.old.places.items)
        → IfOk result (λ log. Reaches St.layout (map entry_of log.entries.items) (standings St.seen look world.old.places.items)
        (standings St.seen look world.new.places.items)) }
{
    let mut entries = Vec::new(alloc);
    for command in commands {
        let Done {
            answer,
            first_failed,
            second_failed,
        } = world.step(alloc, &command)?;
        entries.push(Entry {
            command,
            answer,
            first_failed,
            second_failed,
        })?;
    }
    Ok(Log { entries })
}

/// Carries out commands; with the text of the log.
pub fn told_run<St: Store>(
    alloc: Global,
    world: &mut TwinWorld<St>,
    commands: Vec<TwinCommand>,
) -> Result<Twinned, AllocError>
where
    St::Device: Drop,
    requires world { IsWorld (standings St.seen (disk_seen St.Device.counts St.Device.told St.Device.due) world.old.places.items) }
    requires reach { AreInReach (map meant commands.items) }
    ensures world { IsWorld (standings St.seen (disk_seen St.Device.counts St.Device.told St.Device.due) world.new.places.items) }
    ensures all { IfOk result (λ done. commands_of (map entry_of done.log.entries.items) ≡ map meant commands.items) }
    ensures text { IfOk result (λ done. done.text.items ≡ texts.text_of (log_of done.log)) }
    ensures runs { let look = disk_seen St.Device.counts St.Device.told St.Device.due in
        IfOk result (λ done. Runs St.Device.tells St.layout (map entry_of done.log.entries.items)
        (standings St.seen look world.old.places.items) (standings St.seen look world.new.places.items)) }
    ensures legal { let look = disk_seen St.Device.counts St.Device.told St.Device.due in IsTrue St.Device.tells → IsLayout St.layout
        → ZerosKeepNothing St.layout → CanGoOn (length commands.items) (standings St.seen look world.old.places.items)
        → AreBlank St.layout (standings St.seen look world.old.places.items)
        → IfOk result (λ done. IsLegalTwin (log_of done.log)) }
{
    let log = run_all(alloc, world, commands)?;
    let text = text_of(alloc, &log)?;
    Ok(Twinned { log, text })
}
