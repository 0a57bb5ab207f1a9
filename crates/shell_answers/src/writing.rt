//! What is written: the line of a refusal, or the text of a history or of a log.
ghost use Rattle.std.specs.Prelude.{◌≡◌, ◌≢◌, [], true, false};
ghost use Rattle.std.specs.Io.KnownBytes.{Keeps};
ghost use Rattle.eden_io.specs.Taken.{AppendsPart};
ghost use Rattle.journal.specs.Lines.{text_of};
ghost use Rattle.shell_answers.specs.Answers.{Delivers, writing};
ghost use Rattle.shell_answers.specs.Outcomes.{line_of};

use crate::further::Further;
use crate::outcome::{Outcome, add_line};
use eden_io::{Sink, write_all};
use journal::{History, Mode};
use std::alloc::Global;
use transcript::{WriteRefusal, write_history};

/// What was carried out of a script, and whether it is all.
#[derive(Drop)]
pub struct Carried {
    pub history: History,
    pub whole: bool,
}

/// How the call ended, with the history of the run or the log of a script.
#[derive(Drop)]
pub struct Report {
    pub outcome: Outcome,
    pub history: History,
    pub further: Further,
}

// A call without a history.
fn told(alloc: Global, outcome: Outcome, further: Further) -> Report
    ensures outcome { result.outcome ≡ outcome }
    ensures history { result.history ≡ [] }
    ensures further { result.further ≡ further }
{
    Report {
        outcome,
        history: History {
            entries: Vec::new(alloc),
        },
        further,
    }
}

// Writes the line of an outcome that comes before a run.
fn write_line<K: Sink>(alloc: Global, due: Outcome, sink: &mut K) -> Outcome
    requires { due ≢ Outcome.WriteFault }
    ensures delivers { Delivers (writing K.written K.faults sink.old sink.new) due (line_of due) result }
    ensures nothing { result ≡ Outcome.OutOfMemory → Keeps (K.written sink.old) (K.written sink.new) }
    ensures memory { due ≡ Outcome.OutOfMemory → result ≡ Outcome.OutOfMemory }
{
    let mut line = Vec::new(alloc);
    if due == Outcome::OutOfMemory || add_line(due, &mut line).is_err() {
        return Outcome::OutOfMemory;
    }
    match write_all(sink, &line) {
        Ok(()) => due,
        Err(_) => Outcome::WriteFault,
    }
}

/// Ends a call before a run: writes the line of its outcome. Without memory for the line nothing is written.
pub fn refuse<K: Sink>(alloc: Global, due: Outcome, sink: &mut K) -> Report
    requires { due ≢ Outcome.WriteFault }
    ensures history { result.history ≡ [] }
    ensures further { result.further ≡ Further.Nothing }
    ensures delivers { Delivers (writing K.written K.faults sink.old sink.new) due (line_of due) result.outcome }
    ensures nothing { result.outcome ≡ Outcome.OutOfMemory → Keeps (K.written sink.old) (K.written sink.new) }
    ensures memory { due ≡ Outcome.OutOfMemory → result.outcome ≡ Outcome.OutOfMemory }
{
    let outcome = write_line(alloc, due, sink);
    told(alloc, outcome, Further::Nothing)
}

/// Ends a call whose text is made: writes it. There is no history; the log of a script is given back, if there is one.
pub fn deliver<K: Sink>(alloc: Global, further: Further, text: &[u8], sink: &mut K) -> Report
    ensures history { result.history ≡ [] }
    ensures further { result.further ≡ further }
    ensures delivers { Delivers (writing K.written K.faults sink.old sink.new) Outcome.Ran text.now result.outcome }
    ensures memory { result.outcome ≢ Outcome.OutOfMemory }
{
    let outcome = match write_all(sink, text) {
        Ok(()) => Outcome::Ran,
        Err(_) => Outcome::WriteFault,
    };
    told(alloc, outcome, further)
}

/// Ends a call behind a run: writes the text of what was carried out. Where that is not all, memory was wanted.
pub fn conclude<K: Sink>(alloc: Global, mode: Mode, carried: Carried, sink: &mut K) -> Report
    ensures history { result.history ≡ carried.history }
    ensures further { result.further ≡ Further.Nothing }
    ensures delivers { carried.whole ≡ true
        → Delivers (writing K.written K.faults sink.old sink.new) Outcome.Ran (text_of mode carried.history) result.outcome }
    ensures short { carried.whole ≡ false → result.outcome ≡ Outcome.OutOfMemory }
    ensures part { AppendsPart (K.written sink.old) (K.written sink.new) (text_of mode carried.history) }
{
    let Carried { history, whole } = carried;
    let outcome = match write_history(alloc, mode, &history, sink) {
        _ if !whole => Outcome::OutOfMemory,
        Ok(()) => Outcome::Ran,
        Err(WriteRefusal::Failed) => Outcome::WriteFault,
        Err(WriteRefusal::OutOfMemory) => Outcome::OutOfMemory,
    };
    Report {
        outcome,
        history,
        further: Further::Nothing,
    }
}
