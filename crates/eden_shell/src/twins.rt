//! A script of pairs of disks is carried out over eight disks.
ghost use Rattle.std.specs.Prelude.{◌≡◌, [], length, map};
ghost use Rattle.passive_blocks.specs.BlockLayout.{block_layout};
ghost use Rattle.passive_store.specs.Seen.{disk_seen};
ghost use Rattle.twin_world.specs.Scripts.{AreInReach};
ghost use Rattle.twin_world.specs.View.{meant};
ghost use Rattle.eden_world.specs.Legal.{disk_runs};
ghost use Rattle.shell_answers.specs.Answers.{writing};
ghost use Rattle.eden_shell.specs.Twins.{IsTwinnedTo};

use eden_disk::Disk;
use eden_io::Sink;
use passive_blocks::{BlockStore, blocks_are_a_layout};
use shell_answers::{Further, Outcome, Report, deliver, refuse};
use std::alloc::Global;
use twin_world::{TwinScript, Twinned, carry_twins};

/// Carries the script out over these disks, and writes the text of its log, which is given back.
pub fn tell_twins<K: Sink, D: Disk + Drop>(
    alloc: Global,
    script: TwinScript,
    sink: &mut K,
    disks: &mut Vec<D>,
) -> Report
    requires eight { length disks.old.items ≡ 8 }
    requires reach { AreInReach (map meant script.commands.items) }
    ensures history { result.history ≡ [] }
    ensures twinned { IsTwinnedTo
        (record {
          layout = block_layout;
          tells = D.tells;
          runs = disk_runs D.obeys (disk_seen D.counts D.told D.due) disks.old.items disks.new.items;
        })
        (writing K.written K.faults sink.old sink.new) (map meant script.commands.items) result.outcome result.further }
    ensures eight { length disks.new.items ≡ 8 }
{
    blocks_are_a_layout();
    match carry_twins::<BlockStore<D>>(alloc, script, disks) {
        Ok(Twinned { log, text }) => deliver(alloc, Further::Twin { log }, &text, sink),
        Err(_) => refuse(alloc, Outcome::OutOfMemory, sink),
    }
}
