//! A script of Ejects that wander is carried out over eight disks.
ghost use Rattle.std.specs.Prelude.{◌≡◌, ◌≤◌, [], length, map};
ghost use Rattle.passive_blocks.specs.BlockLayout.{block_layout};
ghost use Rattle.passive_store.specs.Seen.{disk_seen};
ghost use Rattle.move_world.specs.View.{meant};
ghost use Rattle.move_world.specs.Worlds.{AreInReach};
ghost use Rattle.eden_world.specs.Legal.{disk_runs};
ghost use Rattle.shell_answers.specs.Answers.{writing};
ghost use Rattle.eden_shell.specs.Moving.{IsMovedTo};

use eden_disk::Disk;
use eden_io::Sink;
use move_world::{MoveScript, Moved, carry_moves};
use passive_blocks::BlockStore;
use shell_answers::{Further, Outcome, Report, deliver, refuse};
use std::alloc::Global;

/// Carries the script out over these disks, and writes the text of its log, which is given back.
pub fn tell_moves<K: Sink, D: Disk + Drop>(
    alloc: Global,
    script: MoveScript,
    sink: &mut K,
    disks: &mut Vec<D>,
) -> Report
    requires eight { length disks.old.items ≡ 8 }
    requires nodes { script.nodes ≤ 8 }
    requires reach { AreInReach (map meant script.commands.items) }
    ensures history { result.history ≡ [] }
    ensures moved { IsMovedTo
        (record {
          layout = block_layout;
          tells = D.tells;
          runs = disk_runs D.obeys (disk_seen D.counts D.told D.due) disks.old.items disks.new.items;
        })
        (writing K.written K.faults sink.old sink.new) script.nodes (map meant script.commands.items) result.outcome result.further }
    ensures eight { length disks.new.items ≡ 8 }
{
    match carry_moves::<BlockStore<D>>(alloc, script, disks) {
        Ok(Moved { log, text }) => deliver(alloc, Further::Move { log }, &text, sink),
        Err(_) => refuse(alloc, Outcome::OutOfMemory, sink),
    }
}
