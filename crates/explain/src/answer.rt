//! What the program answers.

ghost use Rattle.std.specs.Prelude.{◌≡◌, ◌≤◌, length, IfOk};
ghost use Rattle.explain.specs.Endings.{IsAnswered, IsDue, IsEnded, reading, status_of, writing};

use eden_io::{ReadRefusal, Sink, Source, read_all, write_all};
use mistakes::{first_mistake, text_of};
use std::alloc::{AllocError, Global};

/// The greatest length of a script, in bytes.
const SCRIPT_LIMIT: u32 = 1_048_576;

/// How a call ended.
#[derive(Clone, Copy, Debug, PartialEq, Eq)]
pub enum Ending {
    /// The bytes spell a script, and this was written.
    NoMistake,
    /// The first mistake in them was written.
    Told,
    /// There are words on the command line.
    BadWords,
    /// A read failed.
    ReadFault,
    /// A write failed.
    WriteFault,
    /// No memory was left.
    OutOfMemory,
    /// There are more bytes than a script may have.
    TooLong,
}

/// The exit status of an ending.
pub fn status(ending: Ending) -> u8
    ensures { result ≡ status_of ending }
{
    match ending {
        Ending::NoMistake => 0,
        Ending::BadWords => 2,
        Ending::Told => 3,
        Ending::ReadFault => 4,
        Ending::WriteFault => 5,
        Ending::OutOfMemory => 6,
        Ending::TooLong => 7,
    }
}

/// A text that is to be written, and how the call ends with it.
#[derive(Debug, Drop)]
struct Due {
    ending: Ending,
    text: Vec<u8>,
}

fn lined(alloc: Global, ending: Ending, line: &[u8]) -> Result<Due, AllocError>
    ensures { IfOk result (λ d. (d.ending ≡ ending) × (d.text.items ≡ line.now)) }
{
    let text = Vec::from_slice(alloc, line)?;
    Ok(Due { ending, text })
}

/// The answer for the bytes of a script.
fn answer(alloc: Global, bytes: &[u8]) -> Result<Due, AllocError>
    requires { length bytes.now ≤ 1048576 }
    ensures { IfOk result (λ d. IsAnswered bytes.now d.ending d.text.items) }
{
    match first_mistake(alloc, bytes)? {
        None => lined(alloc, Ending::NoMistake, b"no mistake\n"),
        Some(mistake) => {
            let text = text_of(alloc, bytes, &mistake)?;
            Ok(Due {
                ending: Ending::Told,
                text,
            })
        }
    }
}

/// What is to be written.
fn what_is_due<S: Source>(alloc: Global, asked: bool, source: &mut S) -> Result<Due, AllocError>
    ensures { IfOk result (λ d. IsDue asked (reading S.left S.ended S.faults source.old source.new) d.ending d.text.items) }
{
    if !asked {
        return lined(alloc, Ending::BadWords, b"usage: explain\n");
    }
    match read_all(alloc, source, SCRIPT_LIMIT) {
        Ok(bytes) => answer(alloc, &bytes),
        Err(ReadRefusal::Failed) => lined(alloc, Ending::ReadFault, b"read fault\n"),
        Err(ReadRefusal::TooLong) => lined(alloc, Ending::TooLong, b"script too long\n"),
        Err(ReadRefusal::OutOfMemory) => Err(AllocError),
    }
}

/// Reads a script to its end, where that is asked for, and writes its first mistake, or that there is none.
pub fn explain<S: Source, K: Sink>(
    alloc: Global,
    asked: bool,
    source: &mut S,
    sink: &mut K,
) -> Ending
    ensures { IsEnded asked (reading S.left S.ended S.faults source.old source.new)
        (writing K.written K.faults sink.old sink.new) result }
{
    let Ok(due) = what_is_due(alloc, asked, source) else {
        return Ending::OutOfMemory;
    };
    match write_all(sink, &due.text) {
        Ok(()) => due.ending,
        Err(_) => Ending::WriteFault,
    }
}
