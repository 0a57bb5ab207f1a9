//! The text of a log.
ghost use Rattle.std.specs.Prelude.{◌≡◌, ◌++◌, codes, map, OnOk, IfOk};
ghost use Rattle.std.specs.Fmt.{decimal};
ghost use Rattle.eden_value.specs.Datum.{text as text_datum};
ghost use Rattle.eden_value.specs.Printed.{printed};
ghost use Rattle.twin_world.specs.Texts as texts;
ghost use Rattle.twin_world.specs.View.{answer_of, entry_of, log_of, meant};

use crate::answer::{Answer, Entry, Log};
use crate::commands::TwinCommand;
use capability::Body;
use eden_value::{Value, print, texted};
use itoa::Buffer;
use std::alloc::{AllocError, Global};
use twin_store::TwinRefusal;

fn add_number(n: u64, out: &mut Vec<u8>) -> Result<(), AllocError>
    ensures { OnOk result (out.new.items ≡ out.old.items ++ decimal n) }
{
    let mut digits = Buffer::new();
    out.extend_from_slice(digits.format(n).as_bytes())
}

/// Why a call was refused.
fn refusal_word(refusal: TwinRefusal) -> &'static [u8]
    ensures { result.now ≡ texts.refusal_words refusal }
{
    match refusal {
        TwinRefusal::Lost => b"lost",
        TwinRefusal::Stopped => b"stop",
        TwinRefusal::Full => b"full",
        TwinRefusal::GenerationsSpent => b"spent",
        TwinRefusal::OutOfMemory => b"",
    }
}

/// Which disks are in use.
fn used_word(first: bool, second: bool) -> &'static [u8]
    ensures { result.now ≡ texts.used_words first second }
{
    match (first, second) {
        (true, true) => b"both",
        (true, false) => b"first",
        (false, true) => b"second",
        (false, false) => b"",
    }
}

/// A text, as it is printed.
fn add_text(alloc: Global, body: &[u8], out: &mut Vec<u8>) -> Result<(), AllocError>
    ensures { OnOk result (out.new.items ≡ out.old.items ++ printed (text_datum body.now)) }
{
    let mut bytes = Vec::new(alloc);
    bytes.extend_from_slice(body)?;
    let text = texted(bytes)?;
    print(alloc, &Value::Text { text }, out)
}

/// What was found.
fn add_found(alloc: Global, found: &Option<Body>, out: &mut Vec<u8>) -> Result<(), AllocError>
    ensures { OnOk result (out.new.items ≡ out.old.items ++ texts.found_words found.now) }
{
    match found {
        Some(body) => add_text(alloc, body.as_slice(), out),
        None => out.extend_from_slice(b"none"),
    }
}

/// A blank and a word.
fn add_word(word: &[u8], out: &mut Vec<u8>) -> Result<(), AllocError>
    ensures { OnOk result (out.new.items ≡ out.old.items ++ (codes " " ++ word.now)) }
{
    out.extend_from_slice(b" ")?;
    out.extend_from_slice(word)
}

/// What is said of an answer behind the numbers of a line.
fn add_said(alloc: Global, answer: &Answer, out: &mut Vec<u8>) -> Result<(), AllocError>
    ensures { OnOk result (out.new.items ≡ out.old.items ++ texts.said (answer_of answer.now)) }
{
    match answer {
        Answer::WrongState => out.extend_from_slice(b" state"),
        Answer::Opened { first, second } => add_word(used_word(*first, *second), out),
        Answer::Made => out.extend_from_slice(b" ok"),
        Answer::Found { text } => {
            out.extend_from_slice(b" ")?;
            add_found(alloc, text, out)
        }
        Answer::NoRoom => out.extend_from_slice(b" full"),
        Answer::Refused { refusal } => add_word(refusal_word(*refusal), out),
        Answer::CutShort { stopped: true } => out.extend_from_slice(b" stop"),
        Answer::CutShort { stopped: false } => out.extend_from_slice(b" fault"),
    }
}

/// The same of a closing and a blanking, of which nothing is said where it was done.
fn add_if_not_done(alloc: Global, answer: &Answer, out: &mut Vec<u8>) -> Result<(), AllocError>
    ensures { OnOk result (out.new.items ≡ out.old.items ++ texts.said_if_not_done (answer_of answer.now)) }
{
    match answer {
        Answer::Made => Ok(()),
        other => add_said(alloc, other, out),
    }
}

/// A line of a word, a number and an answer.
fn add_short(
    alloc: Global,
    word: &[u8],
    n: u8,
    answer: &Answer,
    out: &mut Vec<u8>,
) -> Result<(), AllocError>
    ensures { OnOk result (out.new.items ≡ out.old.items ++ texts.short_line word.now n (texts.said (answer_of answer.now))) }
{
    out.extend_from_slice(word)?;
    add_number(n as u64, out)?;
    add_said(alloc, answer, out)?;
    out.extend_from_slice(b"\n")
}

/// The same, with nothing said where it was done.
fn add_quiet(
    alloc: Global,
    word: &[u8],
    n: u8,
    answer: &Answer,
    out: &mut Vec<u8>,
) -> Result<(), AllocError>
    ensures { OnOk result (out.new.items ≡ out.old.items ++ texts.short_line word.now n (texts.said_if_not_done (answer_of answer.now))) }
{
    out.extend_from_slice(word)?;
    add_number(n as u64, out)?;
    add_if_not_done(alloc, answer, out)?;
    out.extend_from_slice(b"\n")
}

/// A line of a word, a node, a serial and an answer.
fn add_long(
    alloc: Global,
    word: &[u8],
    n: u8,
    serial: u32,
    answer: &Answer,
    out: &mut Vec<u8>,
) -> Result<(), AllocError>
    ensures { OnOk result (out.new.items ≡ out.old.items ++ texts.long_line word.now n serial (answer_of answer.now)) }
{
    out.extend_from_slice(word)?;
    add_number(n as u64, out)?;
    out.extend_from_slice(b" ")?;
    add_number(serial as u64, out)?;
    add_said(alloc, answer, out)?;
    out.extend_from_slice(b"\n")
}

/// The line of a command with its answer, if it has one.
fn add_line(
    alloc: Global,
    command: &TwinCommand,
    answer: &Answer,
    out: &mut Vec<u8>,
) -> Result<(), AllocError>
    ensures { OnOk result (out.new.items ≡ out.old.items ++ texts.line_of (meant command.now) (answer_of answer.now)) }
{
    match command {
        TwinCommand::Open { n } => add_short(alloc, b"open ", *n, answer, out),
        TwinCommand::Put { n, serial, .. } => add_long(alloc, b"put ", *n, *serial, answer, out),
        TwinCommand::Get { n, serial } => add_long(alloc, b"get ", *n, *serial, answer, out),
        TwinCommand::Delete { n, serial } => {
            add_long(alloc, b"delete ", *n, *serial, answer, out)
        }
        TwinCommand::Close { n } => add_quiet(alloc, b"close ", *n, answer, out),
        TwinCommand::Blank { disk } => add_quiet(alloc, b"blank ", *disk, answer, out),
        TwinCommand::Fail { .. } => Ok(()),
        TwinCommand::Stop { .. } => Ok(()),
    }
}

fn add_lines(alloc: Global, entries: &[Entry], out: &mut Vec<u8>) -> Result<(), AllocError>
    ensures { OnOk result (out.new.items ≡ out.old.items ++ texts.lines_of (map entry_of entries.now)) }
{
    for entry in entries {
        add_line(alloc, &entry.command, &entry.answer, out)?;
    }
    Ok(())
}

/// The text of a log.
pub fn text_of(alloc: Global, log: &Log) -> Result<Vec<u8>, AllocError>
    ensures { IfOk result (λ text. text.items ≡ texts.text_of (log_of log.now)) }
{
    let mut text = Vec::new(alloc);
    add_lines(alloc, &log.entries, &mut text)?;
    Ok(text)
}
