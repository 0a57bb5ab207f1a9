//! The place on a line at which it is bad.

ghost use Rattle.std.specs.Prelude.{◌≡◌, ◌≤◌, ◌<◌, ◌^◌, ◌+◌, length, IfOk};
ghost use Rattle.std.specs.List.{take_while};
ghost use Rattle.script_words.specs.Causes as causes;
ghost use Rattle.script_words.specs.Form as form;
ghost use Rattle.mistakes.specs.Columns as columns;
ghost use Rattle.mistakes.specs.Columns.{IsColumn};

use crate::before::{Before, behind_nodes, introduces, value_of};
use crate::cut::length_behind;
use crate::form::{Form, form_of};
use crate::pieces::{Read, Role, Spot, read_form};
use eden_script::ScriptCause;
use eden_value::is_printable;
use std::alloc::{AllocError, Global};

fn is_no_blank(b: u8) -> bool
    ensures { result ≡ form.is_no_blank b }
{
    b != b' '
}

fn word_length(bytes: &[u8]) -> usize
    ensures count { result ≡ length (take_while form.is_no_blank bytes.now) }
    ensures few { result ≤ length bytes.now }
{
    bytes.iter().take_while(|b| is_no_blank(**b)).count()
}

/// The bytes before the first blank.
pub fn first_word(bytes: &[u8]) -> &[u8]
    ensures word { result.now ≡ causes.first_word bytes.now }
    ensures short { length result.now ≤ length bytes.now }
{
    let n = word_length(bytes);
    &bytes[..n]
}

fn printable_count(line: &[u8]) -> usize
    ensures { result ≡ length (take_while form.is_printable line.now) }
{
    line.iter().take_while(|b| is_printable(**b)).count()
}

fn is_no_capital(b: u8) -> bool
    ensures { result ≡ columns.is_no_capital b }
{
    !b.is_ascii_uppercase()
}

/// How many bytes stand before the first capital letter.
fn capital_place(line: &[u8]) -> usize
    ensures count { result ≡ length (take_while columns.is_no_capital line.now) }
    ensures few { result ≤ length line.now }
{
    line.iter().take_while(|b| is_no_capital(**b)).count()
}

/// Whether a word begins a command that introduces a name.
fn is_naming(word: &[u8]) -> bool
    ensures { result ≡ form.is_among columns.naming_words word.now }
{
    b"create".as_slice() == word
        || b"hold".as_slice() == word
        || b"call".as_slice() == word
        || b"restrict".as_slice() == word
        || b"walk".as_slice() == word
}

/// Where the name stands that is introduced a second time: behind the word of a command, or in an Edentype at its capital letter.
fn doubled_place(line: &[u8]) -> usize
    requires { length line.now < 2 ^ 31 }
    ensures place { result ≡ columns.doubled_place line.now }
    ensures within { result ≤ length line.now + 1 }
{
    let word = first_word(line);
    if is_naming(word) {
        word.len() + 1
    } else {
        capital_place(line)
    }
}

/// Whether a number is outside its bounds.
fn is_outside(spot: &Spot) -> bool {
    match spot.role {
        Role::Number { low, high } => {
            let n = value_of(spot.word);
            n < low || high < n
        }
        Role::Used => false,
    }
}

/// Whether no line before the one with which so many bytes begin introduces a name.
fn is_unknown(commands: &[u8], left: usize, spot: &Spot) -> bool {
    match spot.role {
        Role::Number { .. } => false,
        Role::Used => !introduces(commands, left, spot.word),
    }
}

/// How many bytes are left at the first spot that is meant.
fn spot_left(before: &Before, left: usize, cause: ScriptCause, spots: &[Spot]) -> Option<usize> {
    for spot in spots {
        let meant = match cause {
            ScriptCause::BadNumber => is_outside(spot),
            _ => is_unknown(before.commands, left, spot),
        };
        if meant {
            return Some(spot.left);
        }
    }
    None
}

/// How many bytes are left where a line has not the form of its command. Where it has it but for two stations that are one, at the second.
fn form_left(found: &Read) -> usize {
    match found.stops {
        Some(left) => left,
        None => match found.spots.last() {
            Some(spot) => spot.left,
            None => 0,
        },
    }
}

/// How many bytes are left at the place at which a line with this word of a command is bad.
fn command_left(
    alloc: Global,
    form: Form,
    cause: ScriptCause,
    behind: &[u8],
    around: (&Before, usize),
) -> Result<usize, AllocError> {
    let (before, left) = around;
    let found = read_form(alloc, form, before.nodes, behind)?;
    match cause {
        ScriptCause::BadForm => Ok(form_left(&found)),
        _ => Ok(spot_left(before, left, cause, &found.spots).unwrap_or(0)),
    }
}

/// How many bytes are left at the place at which a line of a command is bad, with which so many bytes of a script begin.
fn line_left(
    alloc: Global,
    bytes: &[u8],
    left: usize,
    line: &[u8],
    cause: ScriptCause,
) -> Result<usize, AllocError> {
    let nothing = Before {
        nodes: 0,
        commands: &[],
    };
    let found = behind_nodes(bytes).unwrap_or(nothing);
    let word = first_word(line);
    match form_of(word) {
        Some(form) => command_left(alloc, form, cause, &line[word.len()..], (&found, left)),
        None => Ok(line.len()),
    }
}

/// The column where so many bytes are left of a line.
fn column_at(line: &[u8], left: usize) -> u32
    requires { length line.now < 2 ^ 31 }
    ensures first { 1 ≤ result }
    ensures last { result ≤ length line.now + 1 }
{
    line.len().saturating_sub(left) as u32 + 1
}

/// The column of a line that is bad for this cause, with which so many bytes of a script begin.
pub fn column_on(
    alloc: Global,
    bytes: &[u8],
    left: usize,
    line: &[u8],
    cause: ScriptCause,
) -> Result<u32, AllocError>
    requires { length line.now < 2 ^ 31 }
    ensures { IfOk result (IsColumn cause line.now) }
{
    match cause {
        ScriptCause::BadByte => Ok(printable_count(line) as u32 + 1),
        ScriptCause::LongLine => Ok(4097),
        ScriptCause::UnknownType => Ok(
            (line.len() - length_behind(b' ', line) as usize) as u32 + 1,
        ),
        ScriptCause::DoubledName => Ok(doubled_place(line) as u32 + 1),
        ScriptCause::BadForm | ScriptCause::BadNumber | ScriptCause::UnknownName => {
            let left = line_left(alloc, bytes, left, line, cause)?;
            Ok(column_at(line, left))
        }
        ScriptCause::AfterEnd
        | ScriptCause::NoCommand
        | ScriptCause::Misplaced
        | ScriptCause::BadEdentype
        | ScriptCause::NoEnd => Ok(1),
    }
}
