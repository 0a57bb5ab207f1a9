//! A script is carried out over eight disks.
ghost use Rattle.std.specs.Prelude.{◌≡◌, ◌≤◌, IsTrue, IfOk, length, map};
ghost use Rattle.passive_store.specs.Layout.{IsLayout};
ghost use Rattle.passive_store.specs.Seen.{disk_seen};
ghost use Rattle.twin_world.specs.Disks.{ZerosKeepNothing, KeepNothing, CanRise};
ghost use Rattle.twin_world.specs.Logs.{IsLegalTwin};
ghost use Rattle.twin_world.specs.Scripts.{commands_of, AreInReach};
ghost use Rattle.twin_world.specs.Texts as texts;
ghost use Rattle.twin_world.specs.View.{meant, entry_of, log_of};
ghost use Rattle.twin_world.specs.Worlds.{RunsOver, AllCounted};

use crate::commands::TwinScript;
use crate::run::{Twinned, told_run};
use crate::world::TwinWorld;
use passive_store::Store;
use std::alloc::{AllocError, Global};
use std::mem;

/// Carries a script out over eight disks, two for each of four nodes, and gives the log with its text. The disks stand there again.
///
/// Over disks that keep nothing the log is legal: what each command was answered is what its rule says. Over any disks, a count of
/// faults rises where an entry marks its disk, one of stops where an entry says that a disk stopped, and no other does; and answers that
/// say that there is no room, or no disk, have their cause in what is seen of the stores.
pub fn carry_twins<St: Store + Drop>(
    alloc: Global,
    script: TwinScript,
    disks: &mut Vec<St::Device>,
) -> Result<Twinned, AllocError>
where
    St::Device: Drop,
    requires reach { AreInReach (map meant script.commands.items) }
    requires eight { length disks.old.items ≡ 8 }
    ensures commands { IfOk result (λ done. commands_of (map entry_of done.log.entries.items) ≡ map meant script.commands.items) }
    ensures text { IfOk result (λ done. done.text.items ≡ texts.text_of (log_of done.log)) }
    ensures legal { let look = disk_seen St.Device.counts St.Device.told St.Device.due in IsTrue St.Device.tells → IsLayout St.layout
        → ZerosKeepNothing St.layout → KeepNothing St.layout (map look disks.old.items)
        → CanRise (length script.commands.items) (map look disks.old.items) → IfOk result (λ done. IsLegalTwin (log_of done.log)) }
    ensures runs { let look = disk_seen St.Device.counts St.Device.told St.Device.due in
        IfOk result (λ done. RunsOver St.Device.tells St.layout (map entry_of done.log.entries.items)
        (map look disks.old.items) (map look disks.new.items)) }
    ensures counts { let look = disk_seen St.Device.counts St.Device.told St.Device.due in
        IfOk result (λ done. AllCounted (map entry_of done.log.entries.items) (map look disks.old.items) (map look disks.new.items)) }
    ensures eight { length disks.new.items ≡ 8 }
{
    let mut room = Vec::new(alloc);
    room.reserve(8)?;
    let mut world = match TwinWorld::<St>::new(alloc, mem::replace(disks, Vec::new(alloc))) {
        Ok(world) => world,
        Err((back, e)) => {
            *disks = back;
            return Err(e);
        }
    };
    let done = told_run(alloc, &mut world, script.commands);
    *disks = world.close(room);
    done
}
