//! The text of a history, written to a sink some entries at a time.
#![tactic(auto)]

ghost use Rattle.std.specs.Prelude.{◌≡◌, ◌≤◌, OnOk, OnErr, IsErrOf};
ghost use Rattle.std.specs.List.{flat_map};
ghost use Rattle.std.specs.Io.KnownBytes.{Appends};
ghost use Rattle.eden_io.specs.Causes.{Rose};
ghost use Rattle.eden_io.specs.Taken.{AppendsPart};
ghost use Rattle.journal.specs.Lines as text;

use eden_io::{Failed, Sink, write_all};
use journal::{Entry, History, Mode, line, summary};
use std::alloc::{AllocError, Global};
use thiserror::Error;

// So many bytes of lines are gathered before they are written.
const GATHERED: usize = 65_536;

/// Why a history was not written whole.
#[derive(Clone, Copy, Debug, PartialEq, Eq, Error)]
pub enum WriteRefusal {
    /// A write failed.
    #[error("a write failed")]
    Failed,
    #[error("there is no memory for the lines")]
    OutOfMemory,
}

impl From<AllocError> for WriteRefusal {
    ghost use Rattle.transcript.specs.declared.WriteRefusal.TheVariants.{OutOfMemory};

    ghost from_gives = { λ _ e. e ≡ OutOfMemory };

    fn from(_: AllocError) -> Self {
        WriteRefusal::OutOfMemory
    }
}

impl From<Failed> for WriteRefusal {
    ghost use Rattle.transcript.specs.declared.WriteRefusal.TheVariants.{Failed};

    ghost from_gives = { λ _ e. e ≡ Failed };

    fn from(_: Failed) -> Self {
        WriteRefusal::Failed
    }
}

// The lines of each entry, in order.
fn write_entries<K: Sink>(
    alloc: Global,
    mode: Mode,
    entries: &[Entry],
    sink: &mut K,
) -> Result<(), WriteRefusal>
    ensures all { OnOk result (Appends (K.written sink.old) (K.written sink.new) (flat_map (text.entry_text mode) entries.now)) }
    ensures part { OnErr result (AppendsPart (K.written sink.old) (K.written sink.new) (flat_map (text.entry_text mode) entries.now)) }
    ensures later { K.faults sink.old ≤ K.faults sink.new }
    ensures failed { IsErrOf result WriteRefusal.Failed → Rose (K.faults sink.old) (K.faults sink.new) }
{
    let mut lines = Vec::new(alloc);
    for entry in entries {
        line(alloc, mode, entry, &mut lines)?;
        if GATHERED <= lines.len() {
            write_all(sink, &lines)?;
            lines.clear();
        }
    }
    Ok(write_all(sink, &lines)?)
}

// The one line of the mode Summary.
fn write_summary<K: Sink>(
    alloc: Global,
    history: &History,
    sink: &mut K,
) -> Result<(), WriteRefusal>
    ensures all { OnOk result (Appends (K.written sink.old) (K.written sink.new) (text.summary_text history.now)) }
    ensures part { OnErr result (AppendsPart (K.written sink.old) (K.written sink.new) (text.summary_text history.now)) }
    ensures later { K.faults sink.old ≤ K.faults sink.new }
    ensures failed { IsErrOf result WriteRefusal.Failed → Rose (K.faults sink.old) (K.faults sink.new) }
{
    let mut counts = Vec::new(alloc);
    summary(alloc, history, &mut counts)?;
    write_all(sink, &counts)?;
    Ok(())
}

/// Writes the text of a history: the lines of each entry, in order, or in the mode Summary its one line.
///
/// It gathers the lines of some entries at a time. Where it is refused, a part of the text, from the front, was written.
pub fn write_history<K: Sink>(
    alloc: Global,
    mode: Mode,
    history: &History,
    sink: &mut K,
) -> Result<(), WriteRefusal>
    ensures all { OnOk result (Appends (K.written sink.old) (K.written sink.new) (text.text_of mode history.now)) }
    ensures part { OnErr result (AppendsPart (K.written sink.old) (K.written sink.new) (text.text_of mode history.now)) }
    ensures later { K.faults sink.old ≤ K.faults sink.new }
    ensures failed { IsErrOf result WriteRefusal.Failed → Rose (K.faults sink.old) (K.faults sink.new) }
{
    match mode {
        Mode::Summary => write_summary(alloc, history, sink),
        Mode::Plain | Mode::Trace | Mode::Full => {
            write_entries(alloc, mode, &history.entries, sink)
        }
    }
}
