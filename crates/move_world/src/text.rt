//! The text of a log.
ghost use Rattle.std.specs.Prelude.{◌≡◌, ◌++◌, codes, map, OnOk, IfOk, List};
ghost use Rattle.std.specs.Fmt.{decimal};
ghost use Rattle.eden_value.specs.View.{datum};
ghost use Rattle.eden_value.specs.Printed.{printed, printed_uid};
ghost use Rattle.eden_move.specs.Calls.{own_uid, seen_letter, seen_refusal, uid_of};
ghost use Rattle.move_laws.specs.World.{Refused, Stopped};
ghost use Rattle.move_world.specs.Texts as texts;
ghost use Rattle.move_world.specs.View.{answer_of, entry_of, how_of, log_of, meant};

use crate::answer::{Answer, Ended, Entry, Log};
use crate::commands::MoveCommand;
use capability::Uid;
use eden_move::{Letter, MoveRefusal};
use eden_value::{Value, print};
use itoa::Buffer;
use passive_store::StoreRefusal;
use std::alloc::{AllocError, Global};

fn add_number(n: u64, out: &mut Vec<u8>) -> Result<(), AllocError>
    ensures { OnOk result (out.new.items ≡ out.old.items ++ decimal n) }
{
    let mut digits = Buffer::new();
    out.extend_from_slice(digits.format(n).as_bytes())
}

fn add_uid(uid: Uid, out: &mut Vec<u8>) -> Result<(), AllocError>
    ensures { OnOk result (out.new.items ≡ out.old.items ++ printed_uid uid) }
{
    add_number(uid.node as u64, out)?;
    out.extend_from_slice(b".")?;
    add_number(uid.epoch as u64, out)?;
    out.extend_from_slice(b".")?;
    add_number(uid.serial as u64, out)
}

/// A word, and behind a blank the number of a node, or of a place on a disk.
fn add_with(word: &[u8], n: u64, out: &mut Vec<u8>) -> Result<(), AllocError>
    ensures { OnOk result (out.new.items ≡ out.old.items ++ texts.with_node word.now n) }
{
    out.extend_from_slice(word)?;
    out.extend_from_slice(b" ")?;
    add_number(n, out)
}

/// Why a call was refused.
fn add_refusal(refusal: MoveRefusal, out: &mut Vec<u8>) -> Result<(), AllocError>
    ensures { OnOk result (out.new.items ≡ out.old.items ++ texts.refusal_words (seen_refusal refusal)) }
{
    match refusal {
        MoveRefusal::There => out.extend_from_slice(b"there"),
        MoveRefusal::Lent { to } => add_with(b"lent", to as u64, out),
        MoveRefusal::Gone { to } => add_with(b"gone", to as u64, out),
        MoveRefusal::Unknown => out.extend_from_slice(b"unknown"),
        MoveRefusal::Asleep => out.extend_from_slice(b"asleep"),
        MoveRefusal::TooLarge => out.extend_from_slice(b"too large"),
        MoveRefusal::GenerationsSpent => out.extend_from_slice(b"spent"),
        MoveRefusal::Damaged => out.extend_from_slice(b"damaged"),
        MoveRefusal::Fault => out.extend_from_slice(b"fault"),
        MoveRefusal::Full => out.extend_from_slice(b"full"),
        MoveRefusal::Stopped => Ok(()),
        MoveRefusal::OutOfMemory => Ok(()),
    }
}

/// Why a disk was not opened.
fn add_down(refusal: StoreRefusal, out: &mut Vec<u8>) -> Result<(), AllocError>
    ensures { OnOk result (out.new.items ≡ out.old.items ++ texts.store_words refusal) }
{
    match refusal {
        StoreRefusal::Failed => out.extend_from_slice(b"disk fault"),
        StoreRefusal::Stopped => out.extend_from_slice(b"stop"),
        StoreRefusal::Full => out.extend_from_slice(b"full"),
        StoreRefusal::Damaged { place } => add_with(b"damaged", place as u64, out),
        StoreRefusal::OutOfMemory => Ok(()),
    }
}

/// `N U` and these words.
fn add_eject(n: u8, uid: Uid, said: &[u8], out: &mut Vec<u8>) -> Result<(), AllocError>
    ensures { OnOk result (out.new.items ≡ out.old.items ++ texts.eject_line n uid said.now) }
{
    add_number(n as u64, out)?;
    out.extend_from_slice(b" ")?;
    add_uid(uid, out)?;
    out.extend_from_slice(b" ")?;
    out.extend_from_slice(said)?;
    out.extend_from_slice(b"\n")
}

/// `node N` and these words.
fn add_node(n: u8, said: &[u8], out: &mut Vec<u8>) -> Result<(), AllocError>
    ensures { OnOk result (out.new.items ≡ out.old.items ++ texts.node_line n said.now) }
{
    out.extend_from_slice(b"node ")?;
    add_number(n as u64, out)?;
    out.extend_from_slice(b" ")?;
    out.extend_from_slice(said)?;
    out.extend_from_slice(b"\n")
}

/// `refused` and why a call was.
fn refused_words(alloc: Global, refusal: MoveRefusal) -> Result<Vec<u8>, AllocError>
    ensures { IfOk result (λ said. said.items ≡ codes "refused " ++ texts.refusal_words (seen_refusal refusal)) }
{
    let mut said = Vec::new(alloc);
    said.extend_from_slice(b"refused ")?;
    add_refusal(refusal, &mut said)?;
    Ok(said)
}

/// A call that was refused; a stop takes the node down.
fn add_refused(
    alloc: Global,
    n: u8,
    uid: Uid,
    refusal: MoveRefusal,
    out: &mut Vec<u8>,
) -> Result<(), AllocError>
    ensures { OnOk result (out.new.items ≡ out.old.items ++ texts.refused_line n uid (seen_refusal refusal)) }
{
    if refusal == MoveRefusal::Stopped {
        return add_node(n, b"down stop", out);
    }
    let said = refused_words(alloc, refusal)?;
    add_eject(n, uid, &said, out)
}

/// A call on an Eject at a node, with the words of one that is answered.
fn add_call(
    alloc: Global,
    n: u8,
    uid: Uid,
    said: &[u8],
    how: &Ended,
    out: &mut Vec<u8>,
) -> Result<(), AllocError>
    ensures { OnOk result (out.new.items ≡ out.old.items ++ texts.call_line n uid said.now (how_of how.now)) }
{
    match how {
        Ended::Refused { refusal } => add_refused(alloc, n, uid, *refusal, out),
        Ended::Answered { .. } => add_eject(n, uid, said, out),
    }
}

/// What came of a letter from a node.
fn letter_words(alloc: Global, from: u8, letter: &Letter, put: bool) -> Result<Vec<u8>, AllocError>
    ensures { IfOk result (λ said. said.items ≡ texts.letter_words from (seen_letter letter.now) put) }
{
    let mut said = Vec::new(alloc);
    match letter {
        Letter::Take { .. } if put => said.extend_from_slice(b"here")?,
        Letter::Known { .. } if put => add_with(b"gone", from as u64, &mut said)?,
        _ => said.extend_from_slice(b"ignored")?,
    }
    Ok(said)
}

fn letter_uid(letter: &Letter) -> Uid
    ensures { result ≡ uid_of letter.now }
{
    match letter {
        Letter::Take { uid, .. } => *uid,
        Letter::Known { uid, .. } => *uid,
    }
}

/// A letter that came from a node to another.
fn add_letter(
    alloc: Global,
    a: u8,
    b: u8,
    letter: &Letter,
    how: &Ended,
    out: &mut Vec<u8>,
) -> Result<(), AllocError>
    ensures { OnOk result (out.new.items ≡ out.old.items
        ++ texts.letter_line a b (uid_of letter.now) (seen_letter letter.now) (how_of how.now)) }
{
    let uid = letter_uid(letter);
    match how {
        Ended::Refused { refusal } => add_refused(alloc, b, uid, *refusal, out),
        Ended::Answered { put, .. } => {
            let said = letter_words(alloc, a, letter, *put)?;
            add_eject(b, uid, &said, out)
        }
    }
}

/// `down` and why a disk was not opened.
fn down_words(alloc: Global, refusal: StoreRefusal) -> Result<Vec<u8>, AllocError>
    ensures { IfOk result (λ said. said.items ≡ codes "down " ++ texts.store_words refusal) }
{
    let mut said = Vec::new(alloc);
    said.extend_from_slice(b"down ")?;
    add_down(refusal, &mut said)?;
    Ok(said)
}

/// What any answer but that of a call writes.
fn add_other(alloc: Global, n: u8, answer: &Answer, out: &mut Vec<u8>) -> Result<(), AllocError>
    ensures { OnOk result (out.new.items ≡ out.old.items ++ texts.other_line n (answer_of answer.now)) }
{
    match answer {
        Answer::WrongState => add_node(n, b"state", out),
        Answer::NoLetter => out.extend_from_slice(b"no packet\n"),
        Answer::Up => add_node(n, b"up", out),
        Answer::Down { refusal } => {
            let said = down_words(alloc, *refusal)?;
            add_node(n, &said, out)
        }
        _ => Ok(()),
    }
}

/// `active` and a value.
fn active_words(alloc: Global, value: &Value) -> Result<Vec<u8>, AllocError>
    ensures { IfOk result (λ said. said.items ≡ codes "active " ++ printed (datum value.now)) }
{
    let mut said = Vec::new(alloc);
    said.extend_from_slice(b"active ")?;
    print(alloc, value, &mut said)?;
    Ok(said)
}

/// The line of a call on an Eject at a node.
fn add_answer(
    alloc: Global,
    n: u8,
    uid: Uid,
    said: &[u8],
    answer: &Answer,
    out: &mut Vec<u8>,
) -> Result<(), AllocError>
    ensures { OnOk result (out.new.items ≡ out.old.items ++ texts.answer_line n uid said.now (answer_of answer.now)) }
{
    match answer {
        Answer::Ends { how } => add_call(alloc, n, uid, said, how, out),
        Answer::Shows { value } => {
            let said = active_words(alloc, value)?;
            add_eject(n, uid, &said, out)
        }
        other => add_other(alloc, n, other, out),
    }
}

/// The line of a letter.
fn add_carried(
    alloc: Global,
    a: u8,
    b: u8,
    answer: &Answer,
    out: &mut Vec<u8>,
) -> Result<(), AllocError>
    ensures { OnOk result (out.new.items ≡ out.old.items ++ texts.carried_line a b (answer_of answer.now)) }
{
    match answer {
        Answer::Comes { letter, how } => add_letter(alloc, a, b, letter, how, out),
        other => add_other(alloc, b, other, out),
    }
}

/// The line of a crash.
fn add_crashed(alloc: Global, n: u8, answer: &Answer, out: &mut Vec<u8>) -> Result<(), AllocError>
    ensures { OnOk result (out.new.items ≡ out.old.items ++ texts.crashed_line n (answer_of answer.now)) }
{
    match answer {
        Answer::Done => add_node(n, b"down crash", out),
        other => add_other(alloc, n, other, out),
    }
}

/// The line of a lending.
fn add_lent(
    alloc: Global,
    n: u8,
    uid: Uid,
    to: u8,
    answer: &Answer,
    out: &mut Vec<u8>,
) -> Result<(), AllocError>
    ensures { OnOk result (out.new.items ≡ out.old.items
        ++ texts.answer_line n uid (texts.with_node (codes "lent") to) (answer_of answer.now)) }
{
    let mut said = Vec::new(alloc);
    add_with(b"lent", to as u64, &mut said)?;
    add_answer(alloc, n, uid, &said, answer, out)
}

/// The line of a command with its answer, if it has one.
fn add_line(
    alloc: Global,
    command: &MoveCommand,
    answer: &Answer,
    out: &mut Vec<u8>,
) -> Result<(), AllocError>
    ensures { OnOk result (out.new.items ≡ out.old.items ++ texts.line_of (meant command.now) (answer_of answer.now)) }
{
    match command {
        MoveCommand::Make { n, serial, .. } => {
            let uid = Uid {
                node: *n,
                epoch: 1,
                serial: *serial,
            };
            add_answer(alloc, *n, uid, b"made", answer, out)
        }
        MoveCommand::Wake { n, uid } => add_answer(alloc, *n, *uid, b"", answer, out),
        MoveCommand::Save { n, uid, .. } => add_answer(alloc, *n, *uid, b"saved", answer, out),
        MoveCommand::Move { n, uid, to } => add_lent(alloc, *n, *uid, *to, answer, out),
        MoveCommand::Again { n, uid } => add_answer(alloc, *n, *uid, b"sent", answer, out),
        MoveCommand::Carry { a, b, .. } => add_carried(alloc, *a, *b, answer, out),
        MoveCommand::Crash { n, .. } => add_crashed(alloc, *n, answer, out),
        MoveCommand::Restart { n } => add_other(alloc, *n, answer, out),
        MoveCommand::Fail { n, .. } => add_other(alloc, *n, answer, out),
        MoveCommand::Stop { n, .. } => add_other(alloc, *n, answer, out),
    }
}

/// The line of the opening of a node before the first command: none where it opens.
fn add_opening(
    alloc: Global,
    command: &MoveCommand,
    answer: &Answer,
    out: &mut Vec<u8>,
) -> Result<(), AllocError>
    ensures { OnOk result (out.new.items ≡ out.old.items ++ texts.opening_line (meant command.now) (answer_of answer.now)) }
{
    match answer {
        Answer::Up => Ok(()),
        other => add_line(alloc, command, other, out),
    }
}

fn add_openings(alloc: Global, entries: &[Entry], out: &mut Vec<u8>) -> Result<(), AllocError>
    ensures { OnOk result (out.new.items ≡ out.old.items ++ texts.opening_lines (map entry_of entries.now)) }
{
    for entry in entries {
        add_opening(alloc, &entry.command, &entry.answer, out)?;
    }
    Ok(())
}

fn add_lines(alloc: Global, entries: &[Entry], out: &mut Vec<u8>) -> Result<(), AllocError>
    ensures { OnOk result (out.new.items ≡ out.old.items ++ texts.lines_of (map entry_of entries.now)) }
{
    for entry in entries {
        add_line(alloc, &entry.command, &entry.answer, out)?;
    }
    Ok(())
}

/// The text of a log.
pub fn text_of(alloc: Global, log: &Log) -> Result<Vec<u8>, AllocError>
    ensures { IfOk result (λ text. text.items ≡ texts.text_of (log_of log.now)) }
{
    let mut text = Vec::new(alloc);
    add_openings(alloc, &log.openings, &mut text)?;
    add_lines(alloc, &log.entries, &mut text)?;
    Ok(text)
}
