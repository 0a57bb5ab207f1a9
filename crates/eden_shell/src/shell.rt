//! The whole call.
ghost use Rattle.std.specs.Prelude.{◌≡◌, ◌⊎◌, ◌≤◌, ℕ, List, Some, length, map, string_bytes};
ghost use Rattle.eden_io.specs.Causes.{Rose};
ghost use Rattle.passive_blocks.specs.BlockLayout.{block_layout};
ghost use Rattle.passive_store.specs.Seen.{disk_seen};
ghost use Rattle.eden_world.specs.Legal.{disk_runs};
ghost use Rattle.shell_answers.specs.Words.{AsksFor};
ghost use Rattle.shell_answers.specs.Reading.{SpellsFor, reading};
ghost use Rattle.shell_answers.specs.Answers.{Answers, writing};
ghost use Rattle.shell_answers.specs.declared.words.Task.{Task};

use crate::carry::carry_script;
use crate::moving::tell_moves;
use crate::twins::tell_twins;
use eden_disk::Disk;
use eden_io::{Sink, Source};
use eden_script::{a_script_is_fit, one_reading};
use line_forms::scripts_are_one;
use passive_blocks::{BlockStore, blocks_are_a_layout, blocks_are_read_by_calls};
use shell_answers::{
    Asked, Further, Outcome, Report, conclude, deliver, mode_of, read_script, refuse,
};
use std::alloc::Global;

/// Reads the words and the source, carries the script out over these disks, and writes the text of its history. For a wire it writes what
/// the script of the wire writes, and for Ejects that wander, and for pairs of disks, the text of their log.
///
/// There are eight disks, in the order of their nodes, and they stand there again. The history that is returned is the one
/// whose text was written; for a wire it is empty, and no disk is touched; for Ejects that wander and pairs of disks it is empty, and the
/// log is there.
pub fn eden<S: Source, K: Sink, D: Disk + Drop>(
    alloc: Global,
    words: &Vec<String>,
    source: &mut S,
    sink: &mut K,
    disks: &mut Vec<D>,
) -> Report
    requires eight { length disks.old.items ≡ 8 }
    // Each outcome has its cause, its history, what was written, and what became of the disks.
    ensures answers { Answers
        (record {
          words = map string_bytes words.now.items;
          source = reading S.left S.ended S.faults source.old source.new;
          sink = writing K.written K.faults sink.old sink.new;
          disks = record {
            layout = block_layout;
            tells = D.tells;
            runs = disk_runs D.obeys (disk_seen D.counts D.told D.due) disks.old.items disks.new.items;
          };
        })
        result.outcome result.history result.further }
    ensures eight { length disks.new.items ≡ 8 }
    // A text that spells what the words ask for runs, where nothing fails and there is memory.
    ensures complete { (task : Task) (bytes : List ℕ) → AsksFor (map string_bytes words.now.items) task → SpellsFor task bytes
        → S.left source.old ≡ Some bytes → length bytes ≤ 1048576
        → (Rose (S.faults source.old) (S.faults source.new) → ⊥) → (Rose (K.faults sink.old) (K.faults sink.new) → ⊥)
        → (result.outcome ≡ Outcome.Ran) ⊎ (result.outcome ≡ Outcome.OutOfMemory) }
{
    one_reading();
    scripts_are_one();
    match read_script(alloc, words, source) {
        Ok(Asked::History { job, script }) => {
            a_script_is_fit();
            blocks_are_a_layout();
            blocks_are_read_by_calls();
            match carry_script::<BlockStore<D>>(alloc, script, disks) {
                Ok(carried) => conclude(alloc, mode_of(job), carried, sink),
                Err(_) => refuse(alloc, Outcome::OutOfMemory, sink),
            }
        }
        Ok(Asked::Wire { text }) => deliver(alloc, Further::Nothing, &text, sink),
        Ok(Asked::Move { script }) => tell_moves(alloc, script, sink, disks),
        Ok(Asked::Twin { script }) => tell_twins(alloc, script, sink, disks),
        Err(outcome) => refuse(alloc, outcome, sink),
    }
}
