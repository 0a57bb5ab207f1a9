//! How a call ends, with the line of an end that comes before a run.
ghost use Rattle.std.specs.Prelude.{◌≡◌, ◌++◌, OnOk};
ghost use Rattle.std.specs.Fmt.{decimal};
ghost use Rattle.shell_answers.specs.Outcomes as text;

use eden_script::ScriptCause;
use itoa::Buffer;
use std::alloc::AllocError;

/// How the whole call ended.
#[derive(Clone, Copy, Debug, PartialEq, Eq)]
pub enum Outcome {
    /// The script was carried out to its end, and the text of its history was written.
    Ran,
    /// The words are no line of words that is known.
    BadWords,
    /// The bytes are no script: the first bad line, counted from 1, and its first cause.
    BadScript { line: u32, cause: ScriptCause },
    /// A read failed.
    ReadFault,
    /// A write failed.
    WriteFault,
    OutOfMemory,
    /// There are more bytes than a script may have.
    TooLong,
}

/// The exit status of an outcome.
pub fn status(outcome: &Outcome) -> u8
    ensures { result ≡ text.status_of outcome.now }
{
    match outcome {
        Outcome::Ran => 0,
        Outcome::BadWords => 2,
        Outcome::BadScript { .. } => 3,
        Outcome::ReadFault => 4,
        Outcome::WriteFault => 5,
        Outcome::OutOfMemory => 6,
        Outcome::TooLong => 7,
    }
}

fn cause_word(cause: ScriptCause) -> &'static str
    ensures { result.now ≡ text.cause_text cause }
{
    match cause {
        ScriptCause::BadByte => "bad byte",
        ScriptCause::LongLine => "long line",
        ScriptCause::AfterEnd => "after end",
        ScriptCause::NoCommand => "no command",
        ScriptCause::Misplaced => "misplaced",
        ScriptCause::BadForm => "bad form",
        ScriptCause::BadNumber => "bad number",
        ScriptCause::UnknownName => "unknown name",
        ScriptCause::UnknownType => "unknown type",
        ScriptCause::DoubledName => "doubled name",
        ScriptCause::BadEdentype => "bad edentype",
        ScriptCause::NoEnd => "no end",
    }
}

fn add_number(n: u32, out: &mut Vec<u8>) -> Result<(), AllocError>
    ensures { OnOk result (out.new.items ≡ out.old.items ++ decimal n) }
{
    let mut digits = Buffer::new();
    out.extend_from_slice(digits.format(n).as_bytes())
}

fn add_bad_script(line: u32, cause: ScriptCause, out: &mut Vec<u8>) -> Result<(), AllocError>
    ensures { OnOk result (out.new.items ≡ out.old.items ++ text.bad_script_line line cause) }
{
    out.extend_from_slice(b"bad script line ")?;
    add_number(line, out)?;
    out.extend_from_slice(b": ")?;
    out.extend_from_slice(cause_word(cause).as_bytes())?;
    out.extend_from_slice(b"\n")
}

/// Adds the line of an outcome that comes before a run. Others have none.
pub fn add_line(outcome: Outcome, out: &mut Vec<u8>) -> Result<(), AllocError>
    ensures { OnOk result (out.new.items ≡ out.old.items ++ text.line_of outcome) }
{
    match outcome {
        Outcome::BadWords => {
            out.extend_from_slice(
                b"usage: eden run [--trace] | host DIR [--trace] | gen N | wire | twin | run --full | move\n",
            )
        }
        Outcome::BadScript { line, cause } => add_bad_script(line, cause, out),
        Outcome::ReadFault => out.extend_from_slice(b"read fault\n"),
        Outcome::TooLong => out.extend_from_slice(b"script too long\n"),
        Outcome::Ran | Outcome::WriteFault | Outcome::OutOfMemory => Ok(()),
    }
}
