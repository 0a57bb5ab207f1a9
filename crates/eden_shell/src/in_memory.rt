//! The whole call over disks on which nothing was ever written.
ghost use Rattle.std.specs.Prelude.{◌≡◌, length, map, string_bytes};
ghost use Rattle.std.specs.Prelude.Bool.{true};
ghost use Rattle.passive_blocks.specs.BlockLayout.{block_layout};
ghost use Rattle.eden_world.specs.Legal.{disk_runs};
ghost use Rattle.shell_answers.specs.Reading.{reading};
ghost use Rattle.shell_answers.specs.Answers.{Answers, writing};
ghost use Rattle.eden_shell.specs.Blank.{AreBlank, sim_seen};
ghost use Rattle.eden_shell.specs.Legally.{IsLegally};

use crate::shell::eden;
use eden_disk::SimDisk;
use eden_io::{Sink, Source};
use line_forms::rows_are_fit;
use shell_answers::Report;
use std::alloc::Global;

/// What `eden` does, over eight disks of zeros in memory. Nothing is left to be taken for granted there: a run that came to its end is
/// legal, and so is the log of Ejects that wander or of pairs of disks, whatever the words, the script, the source and the sink.
pub fn eden_over_blank<S: Source, K: Sink>(
    alloc: Global,
    words: &Vec<String>,
    source: &mut S,
    sink: &mut K,
    disks: &mut Vec<SimDisk>,
) -> Report
    requires eight { length disks.old.items ≡ 8 }
    requires blank { AreBlank disks.old.items }
    ensures answers { Answers
        (record {
          words = map string_bytes words.now.items;
          source = reading S.left S.ended S.faults source.old source.new;
          sink = writing K.written K.faults sink.old sink.new;
          disks = record {
            layout = block_layout;
            tells = true;
            runs = disk_runs true sim_seen disks.old.items disks.new.items;
          };
        })
        result.outcome result.history result.further }
    ensures legally { IsLegally
        (record {
          words = map string_bytes words.now.items;
          source = reading S.left S.ended S.faults source.old source.new;
          sink = writing K.written K.faults sink.old sink.new;
          disks = record {
            layout = block_layout;
            tells = true;
            runs = disk_runs true sim_seen disks.old.items disks.new.items;
          };
        })
        result.outcome result.history result.further }
    ensures eight { length disks.new.items ≡ 8 }
{
    rows_are_fit();
    eden(alloc, words, source, sink, disks)
}
