//! A line of a script, and what the lines before it leave.

ghost use Rattle.std.specs.Prelude.{◌≡◌, ◌≤◌, ◌<◌, ◌==◌, ◌&&◌, IfOk, OnOk, map, true, length};
ghost use Rattle.std.specs.List.{list_all, list_any, take_while};
ghost use Rattle.script_words.specs.Form as form;
ghost use Rattle.eden_script.specs.Tree.{does};
ghost use Rattle.script_words.specs.Tree.{row_of};
ghost use Rattle.eden_script.specs.Causes as causes;
ghost use Rattle.script_words.specs.Causes.{names_in, names_of};
ghost use Rattle.eden_script.specs.Script as script;
ghost use Rattle.eden_script.specs.Reading as reading;
ghost use Rattle.eden_script.specs.Meaning.{written_command};
ghost use Rattle.eden_script.specs.Declarations.{type_names, types_in};
ghost use Rattle.eden_script.specs.View.{noted, room_after, line_of, seen_of};
ghost use Rattle.script_words.specs.View.{Gives, written};

use crate::command::command;
use crate::declared::is_type;
use crate::names::Names;
use epl_syntax::{Checked, Types};
use journal::{Arg, Command};
use script_words::{
    Fault, ScriptCause, all_printable, first_word, is_idle, last_digits, within, word,
};
use std::alloc::{AllocError, Global};

/// What the parts so far leave: the types, how many more may be declared, the number of nodes, 0 before `nodes`, the
/// names that were introduced, and whether `end` stood.
#[derive(Drop)]
pub struct Seen {
    pub types: Types,
    pub room: u8,
    pub nodes: u8,
    pub names: Names,
    pub ended: bool,
}

/// What a part says.
#[derive(Drop)]
pub enum Line {
    /// Nothing: a blank line or a comment.
    Idle,
    /// The command `nodes`.
    Nodes { n: u8 },
    /// A command behind `nodes`.
    Does { command: Command },
    /// A type.
    Declares { edentype: Checked },
    /// An Edentype without its end.
    Unended,
}

fn is_command_word(word: &[u8]) -> bool
    ensures { result ≡ form.is_among causes.command_words word.now }
{
    b"create".as_slice() == word
        || b"hold".as_slice() == word
        || b"call".as_slice() == word
        || b"restrict".as_slice() == word
        || b"walk".as_slice() == word
        || b"turn".as_slice() == word
        || b"go".as_slice() == word
        || b"crash".as_slice() == word
        || b"restart".as_slice() == word
        || b"cut".as_slice() == word
        || b"join".as_slice() == word
        || b"fail".as_slice() == word
        || b"stop".as_slice() == word
        || b"end".as_slice() == word
}

/// Whether the names in a value are known.
#[cycle(known)]
fn value_known(names: &Names, arg: &Arg) -> bool
    ensures { result ≡ list_all (form.is_among names.now) (names_in (written arg.now)) }
{
    match arg {
        Arg::Plain { .. } => true,
        Arg::Named { by } => names.has(by.name.as_slice()),
        Arg::List { items } => values_known(names, &items.args),
    }
}

#[cycle(known)]
fn values_known(names: &Names, args: &[Arg]) -> bool
    ensures { result ≡ list_all (form.is_among names.now) (names_of (row_of (map written args.now))) }
{
    for arg in args {
        if !value_known(names, arg) {
            return false;
        }
    }
    true
}

/// Whether the names that a command refers to are known.
fn uses_known(names: &Names, command: &Command) -> bool
    ensures { result ≡ list_all (form.is_among names.now) (causes.uses (does (written_command command.now))) }
{
    match command {
        Command::Call { target, args, .. } => names.has(target.name.as_slice())
            && values_known(names, &args.args),
        Command::Restrict { target, .. } => names.has(target.name.as_slice()),
        Command::Walk { target, .. } => names.has(target.name.as_slice()),
        _ => true,
    }
}

fn type_known(types: &Types, command: &Command) -> bool
    ensures { result ≡ list_all (form.is_among (type_names (types_in types.now))) (causes.types (does (written_command command.now))) }
{
    match command {
        Command::Create { type_name, .. } => is_type(types, type_name),
        _ => true,
    }
}

/// The name that a command introduces.
fn brings(command: &Command) -> Option<&[u8]>
    ensures { script.names_of_option result ≡ causes.brings (does (written_command command.now)) }
{
    match command {
        Command::Create { name, .. } => Some(name.as_slice()),
        Command::Hold { name, .. } => Some(name.as_slice()),
        Command::Call { name, .. } => Some(name.as_slice()),
        Command::Restrict { name, .. } => Some(name.as_slice()),
        Command::Walk { name, .. } => Some(name.as_slice()),
        _ => None,
    }
}

fn is_doubled(names: &Names, command: &Command) -> bool
    ensures { result ≡ list_any (form.is_among names.now) (causes.brings (does (written_command command.now))) }
{
    match brings(command) {
        Some(name) => names.has(name),
        None => false,
    }
}

/// Refuses a command that uses an unknown name or type, or that gives a name a second meaning.
fn check_names(seen: &Seen, command: &Command) -> Result<(), Fault>
    ensures { Gives (λ x. does (written_command command.now)) result
        (reading.named_in (seen_of seen.now) (does (written_command command.now))) }
{
    if !uses_known(&seen.names, command) {
        return Err(Fault::Bad {
            cause: ScriptCause::UnknownName,
        });
    }
    if !type_known(&seen.types, command) {
        return Err(Fault::Bad {
            cause: ScriptCause::UnknownType,
        });
    }
    if is_doubled(&seen.names, command) {
        return Err(Fault::Bad {
            cause: ScriptCause::DoubledName,
        });
    }
    Ok(())
}

/// A command whose names are as they have to be.
fn named(seen: &Seen, command: Command) -> Result<Line, Fault>
    ensures { Gives line_of result (reading.named_in (seen_of seen.now) (does (written_command command))) }
{
    check_names(seen, &command)?;
    Ok(Line::Does { command })
}

fn nodes_line(bytes: &[u8]) -> Result<Line, Fault>
    ensures { Gives line_of result (reading.read_nodes bytes.now) }
{
    let rest = word(bytes, b"nodes ")?;
    let n = last_digits(rest)?;
    let n = within(1, 8, n)? as u8;
    Ok(Line::Nodes { n })
}

fn command_line(alloc: Global, seen: &Seen, bytes: &[u8]) -> Result<Line, Fault>
    ensures { Gives line_of result (reading.judge_command (seen_of seen.now) bytes.now) }
{
    let command = command(alloc, seen.nodes, bytes)?;
    named(seen, command)
}

fn judge_word(alloc: Global, seen: &Seen, word: &[u8], bytes: &[u8]) -> Result<Line, Fault>
    ensures { Gives line_of result (reading.judge_word (seen_of seen.now) word.now bytes.now) }
{
    if word == b"nodes".as_slice() {
        if seen.nodes == 0 {
            return nodes_line(bytes);
        }
        return Err(Fault::Bad {
            cause: ScriptCause::Misplaced,
        });
    }
    if !is_command_word(word) {
        return Err(Fault::Bad {
            cause: ScriptCause::NoCommand,
        });
    }
    if seen.nodes == 0 {
        return Err(Fault::Bad {
            cause: ScriptCause::Misplaced,
        });
    }
    command_line(alloc, seen, bytes)
}

/// What a line says.
pub fn judge(alloc: Global, seen: &Seen, bytes: &[u8]) -> Result<Line, Fault>
    ensures { Gives line_of result (reading.judge (seen_of seen.now) bytes.now) }
{
    if !all_printable(bytes) {
        return Err(Fault::Bad {
            cause: ScriptCause::BadByte,
        });
    }
    if bytes.len() > 4096 {
        return Err(Fault::Bad {
            cause: ScriptCause::LongLine,
        });
    }
    if is_idle(bytes) {
        return Ok(Line::Idle);
    }
    if seen.ended {
        return Err(Fault::Bad {
            cause: ScriptCause::AfterEnd,
        });
    }
    judge_word(alloc, seen, first_word(bytes), bytes)
}

fn is_end(command: &Command) -> bool
    ensures { result ≡ script.is_finish (written_command command.now) }
{
    match command {
        Command::End => true,
        _ => false,
    }
}

/// Notes the names of a line, whether it declares a type, and whether it ends the script.
pub fn note(alloc: Global, seen: &mut Seen, line: &Line) -> Result<(), AllocError>
    ensures noted { OnOk result (seen_of seen.new ≡ noted (seen_of seen.old) (line_of line.now)) }
    ensures types { OnOk result (seen.new.types ≡ seen.old.types) }
    ensures room { OnOk result (seen.new.room ≡ room_after seen.old.room (line_of line.now)) }
{
    match line {
        Line::Idle => {}
        Line::Nodes { n } => seen.nodes = *n,
        Line::Does { command } => {
            if let Some(name) = brings(command) {
                seen.names.add(alloc, name)?;
            }
            if is_end(command) {
                seen.ended = true;
            }
        }
        Line::Declares { .. } => seen.room = seen.room.saturating_sub(1),
        Line::Unended => seen.ended = false,
    }
    Ok(())
}
