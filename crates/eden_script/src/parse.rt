//! Scripts, part by part.

ghost use Rattle.std.specs.Prelude.{◌≡◌, ◌≤◌, ◌<◌, ◌^◌, ◌+◌, ◌++◌, OnOk, IfOk, IfErr, length, List, ℕ};
ghost use Rattle.eden_script.specs.Declarations.{types_in};
ghost use Rattle.eden_script.specs.Meaning.{written_commands};
ghost use Rattle.eden_script.specs.Script as script;
ghost use Rattle.eden_script.specs.Script.{IsScript, IsRefusal, AtMostOne, commands_of};
ghost use Rattle.journal.specs.Laws.{WriteNone};
ghost use Rattle.eden_script.specs.View.{IsCounted, KeepsRules, line_of, seen_of};

use crate::declared::DECLARED_LIMIT;
use crate::flaw::Flaw;
use crate::line::{Line, Seen, note};
use crate::names::Names;
use crate::part::first_part;
use epl_parser::{
    conditions_are_in_monitors, constants_are_values, refusals_are_one, types_are_named,
    types_are_one,
};
use epl_syntax::Types;
use journal::{Command, Commands, Script};
use script_words::{ScriptCause, ScriptRefusal};
use std::alloc::{AllocError, Global};

/// Lines have more bytes on average, so that a list of so many commands seldom grows.
const LINE: usize = 16;

/// Adds the command or the type of a part.
fn keep(commands: &mut Vec<Command>, types: &mut Types, said: Line) -> Result<(), AllocError>
    requires { KeepsRules types.old said }
    ensures commands { OnOk result
        (written_commands commands.new.items ≡ written_commands commands.old.items ++ commands_of (line_of said)) }
    ensures types { OnOk result (types_in types.new ≡ script.types_after (types_in types.old) (line_of said)) }
{
    match said {
        Line::Does { command } => commands.push(command)?,
        Line::Declares { edentype } => types.add(edentype)?,
        _ => {}
    }
    Ok(())
}

/// Notes what a part leaves, and keeps its command.
fn follow(
    alloc: Global,
    seen: &mut Seen,
    commands: &mut Vec<Command>,
    said: Line,
) -> Result<(), AllocError>
    requires counted { IsCounted seen.old }
    requires rules { KeepsRules seen.old.types said }
    ensures counted { OnOk result (IsCounted seen.new) }
    ensures seen { OnOk result (seen_of seen.new ≡ script.after (seen_of seen.old) (line_of said)) }
    ensures commands { OnOk result
        (written_commands commands.new.items ≡ written_commands commands.old.items ++ commands_of (line_of said)) }
{
    note(alloc, seen, &said)?;
    keep(commands, &mut seen.types, said)
}

/// The script that the bytes spell, with its types and its commands in order; else the first bad line, counted from 1, and
/// its first cause. `NoEnd` has the number of lines plus 1. No capability is written out in a script.
pub fn parse_script(alloc: Global, bytes: &[u8]) -> Result<Script, ScriptRefusal>
    requires { length bytes.now < 2 ^ 31 }
    ensures script { IfOk result (IsScript bytes.now) }
    ensures bare { IfOk result (λ s. WriteNone s.commands) }
    ensures bad { IfErr result (IsRefusal bytes.now) }
{
    types_are_named();
    conditions_are_in_monitors();
    constants_are_values();
    let mut seen = Seen {
        types: Types::native(alloc)?,
        room: DECLARED_LIMIT,
        nodes: 0,
        names: Names::new(alloc),
        ended: false,
    };
    let mut commands = Vec::with_capacity(alloc, bytes.len() / LINE)?;
    let mut rest = bytes;
    let mut lines = 0;
    while !rest.is_empty() {
        let (said, count, behind) = match first_part(alloc, &seen, rest) {
            Ok(found) => found,
            Err(Flaw::At { at }) => {
                return Err(ScriptRefusal::Bad {
                    line: lines + at.line + 1,
                    cause: at.cause,
                });
            }
            Err(Flaw::Memory) => return Err(ScriptRefusal::OutOfMemory),
        };
        follow(alloc, &mut seen, &mut commands, said)?;
        rest = behind;
        lines += count;
    }
    if !seen.ended {
        return Err(ScriptRefusal::Bad {
            line: lines + 1,
            cause: ScriptCause::NoEnd,
        });
    }
    Ok(Script {
        types: seen.types,
        nodes: seen.nodes,
        commands: Commands { commands },
    })
}

/// A text spells at most one script, and then it has no bad line; it has at most one first bad line.
pub fn one_reading()
    ensures { (bytes : List ℕ) → AtMostOne bytes }
{
    types_are_one();
    refusals_are_one();
}
