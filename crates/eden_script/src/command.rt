//! Commands, behind their words.

ghost use Rattle.std.specs.Prelude.{◌≡◌, ◌≤◌, ◌<◌, ◌==◌, ◌&&◌, IfOk, map, true, length};
ghost use Rattle.std.specs.List.{list_all};
ghost use Rattle.std.specs.Option.{option_map};
ghost use Rattle.std.specs.Str.{bytes_eq};
ghost use Rattle.script_words.specs.Form as form;
ghost use Rattle.eden_script.specs.Reading as reading;
ghost use Rattle.script_words.specs.Reading.{in_range};
ghost use Rattle.eden_script.specs.Meaning.{written_command};
ghost use Rattle.script_words.specs.Meaning.{written_mode};
ghost use Rattle.script_words.specs.View.{Gives, written};

use capability::{Rights, Uid};
use eden_disk::ImageMode;
use journal::{Arg, Args, Command};
use script_words::{
    Fault, ScriptCause, behind, crash_mode, digits, digits_and, end, last_digits, lower_and_blank,
    mode, mode_in_range, quoted, reference, reference_words, same_number, two_digits, txt, upper,
    values, within, word,
};
use std::alloc::Global;

/// What stands behind `create `, where there are `most` nodes.
pub fn create(alloc: Global, most: u8, bytes: &[u8]) -> Result<Command, Fault>
    ensures { Gives written_command result (reading.read_create most bytes.now) }
{
    let (name, rest) = lower_and_blank(bytes)?;
    let (node, rest) = digits_and(b" ", rest)?;
    let (type_name, rest) = upper(rest)?;
    end(rest)?;
    let node = within(1, most as u64, node)? as u8;
    Ok(Command::Create {
        name: txt(alloc, name)?,
        node,
        type_name: txt(alloc, type_name)?,
    })
}

/// What stands behind `hold `, where there are `most` nodes.
pub fn hold(alloc: Global, most: u8, bytes: &[u8]) -> Result<Command, Fault>
    ensures { Gives written_command result (reading.read_hold most bytes.now) }
{
    let (name, rest) = lower_and_blank(bytes)?;
    let (node, rest) = digits_and(b".", rest)?;
    let (epoch, rest) = digits_and(b".", rest)?;
    let serial = last_digits(rest)?;
    let uid = Uid {
        node: within(1, most as u64, node)? as u8,
        epoch: within(1, 4294967295, epoch)? as u32,
        serial: within(1, 4294967295, serial)? as u32,
    };
    Ok(Command::Hold {
        name: txt(alloc, name)?,
        uid,
    })
}

fn args_in_range(args: Option<Vec<Arg>>) -> Result<Vec<Arg>, Fault>
    ensures { Gives (λ v. map written v.items) result (in_range (option_map (λ v. map written v.items) args)) }
{
    match args {
        Some(args) => Ok(args),
        None => Err(Fault::Bad {
            cause: ScriptCause::BadNumber,
        }),
    }
}

/// What stands behind `call `.
pub fn call(alloc: Global, bytes: &[u8]) -> Result<Command, Fault>
    ensures { Gives written_command result (reading.read_call bytes.now) }
{
    let (name, rest) = lower_and_blank(bytes)?;
    let (target, rest) = reference_words(rest)?;
    let rest = word(rest, b".")?;
    let (operation, rest) = upper(rest)?;
    let rest = word(rest, b"(")?;
    let (args, rest) = values(alloc, true, 4, b")", 4096, rest)?;
    end(rest)?;
    let target = reference(alloc, target)?;
    let args = args_in_range(args)?;
    Ok(Command::Call {
        name: txt(alloc, name)?,
        target,
        operation: txt(alloc, operation)?,
        args: Args { args },
    })
}

/// What stands behind `restrict `.
pub fn restrict(alloc: Global, bytes: &[u8]) -> Result<Command, Fault>
    ensures { Gives written_command result (reading.read_restrict bytes.now) }
{
    let (name, rest) = lower_and_blank(bytes)?;
    let (target, rest) = reference_words(rest)?;
    let rest = word(rest, b" ")?;
    let mask = last_digits(rest)?;
    let target = reference(alloc, target)?;
    let bits = within(0, 65535, mask)? as u16;
    Ok(Command::Restrict {
        name: txt(alloc, name)?,
        target,
        mask: Rights { bits },
    })
}

/// What stands behind `walk `.
pub fn walk(alloc: Global, bytes: &[u8]) -> Result<Command, Fault>
    ensures { Gives written_command result (reading.read_walk bytes.now) }
{
    let (name, rest) = lower_and_blank(bytes)?;
    let (target, rest) = reference_words(rest)?;
    let rest = word(rest, b" ")?;
    let (path, rest) = quoted(alloc, rest)?;
    end(rest)?;
    let target = reference(alloc, target)?;
    Ok(Command::Walk {
        name: txt(alloc, name)?,
        target,
        path,
    })
}

/// What stands behind `turn `.
pub fn turn(bytes: &[u8]) -> Result<Command, Fault>
    ensures { Gives written_command result (reading.read_turn bytes.now) }
{
    let i = last_digits(bytes)?;
    let i = within(0, 1_000_000, i)? as u32;
    Ok(Command::Turn { i })
}

/// What stands behind `go `.
pub fn go(bytes: &[u8]) -> Result<Command, Fault>
    ensures { Gives written_command result (reading.read_go bytes.now) }
{
    let n = last_digits(bytes)?;
    let n = within(1, 1_000_000, n)? as u32;
    Ok(Command::Go { n })
}

/// What stands behind `crash `, where there are `most` nodes.
pub fn crash(most: u8, bytes: &[u8]) -> Result<Command, Fault>
    ensures { Gives written_command result (reading.read_crash most bytes.now) }
{
    let (node, rest) = digits(bytes)?;
    let mode = crash_mode(rest)?;
    let node = within(1, most as u64, node)? as u8;
    let mode = mode_in_range(mode)?;
    Ok(Command::Crash { node, mode })
}

/// What stands behind `restart `, where there are `most` nodes.
pub fn restart(most: u8, bytes: &[u8]) -> Result<Command, Fault>
    ensures { Gives written_command result (reading.read_restart most bytes.now) }
{
    let node = last_digits(bytes)?;
    let node = within(1, most as u64, node)? as u8;
    Ok(Command::Restart { node })
}

/// Two different stations.
fn stations(most: u8, bytes: &[u8]) -> Result<(u8, u8), Fault>
    ensures { Gives (λ x. x) result (reading.read_stations most bytes.now) }
{
    let (a, b) = two_digits(bytes)?;
    if same_number(a, b) {
        return Err(Fault::Bad {
            cause: ScriptCause::BadForm,
        });
    }
    let a = within(0, most as u64, a)? as u8;
    let b = within(0, most as u64, b)? as u8;
    Ok((a, b))
}

/// What stands behind `cut `, where there are `most` nodes.
pub fn cut(most: u8, bytes: &[u8]) -> Result<Command, Fault>
    ensures { Gives written_command result (reading.read_cut most bytes.now) }
{
    let (a, b) = stations(most, bytes)?;
    Ok(Command::Cut { a, b })
}

/// What stands behind `join `, where there are `most` nodes.
pub fn join(most: u8, bytes: &[u8]) -> Result<Command, Fault>
    ensures { Gives written_command result (reading.read_join most bytes.now) }
{
    let (a, b) = stations(most, bytes)?;
    Ok(Command::Join { a, b })
}

/// What stands behind `fail `, where there are `most` nodes.
pub fn fail(most: u8, bytes: &[u8]) -> Result<Command, Fault>
    ensures { Gives written_command result (reading.read_fail most bytes.now) }
{
    let (node, after) = two_digits(bytes)?;
    let node = within(1, most as u64, node)? as u8;
    let after = within(1, 1_000_000, after)? as u32;
    Ok(Command::Fail { node, after })
}

/// What stands behind `stop `, where there are `most` nodes.
pub fn stop(most: u8, bytes: &[u8]) -> Result<Command, Fault>
    ensures { Gives written_command result (reading.read_stop most bytes.now) }
{
    let (node, rest) = digits_and(b" ", bytes)?;
    let (after, rest) = digits(rest)?;
    let mode = mode(rest)?;
    let node = within(1, most as u64, node)? as u8;
    let after = within(1, 1_000_000, after)? as u32;
    let mode = mode_in_range(mode)?;
    Ok(Command::Stop { node, after, mode })
}

fn link_or_fault(most: u8, bytes: &[u8]) -> Result<Command, Fault>
    ensures { Gives written_command result (reading.read_link_or_fault most bytes.now) }
{
    if let Some(rest) = behind(bytes, b"cut ") {
        return cut(most, rest);
    }
    if let Some(rest) = behind(bytes, b"join ") {
        return join(most, rest);
    }
    if let Some(rest) = behind(bytes, b"fail ") {
        return fail(most, rest);
    }
    if let Some(rest) = behind(bytes, b"stop ") {
        return stop(most, rest);
    }
    if bytes == b"end".as_slice() {
        return Ok(Command::End);
    }
    Err(Fault::Bad {
        cause: ScriptCause::BadForm,
    })
}

fn run(most: u8, bytes: &[u8]) -> Result<Command, Fault>
    ensures { Gives written_command result (reading.read_run most bytes.now) }
{
    if let Some(rest) = behind(bytes, b"turn ") {
        return turn(rest);
    }
    if let Some(rest) = behind(bytes, b"go ") {
        return go(rest);
    }
    if let Some(rest) = behind(bytes, b"crash ") {
        return crash(most, rest);
    }
    if let Some(rest) = behind(bytes, b"restart ") {
        return restart(most, rest);
    }
    link_or_fault(most, bytes)
}

/// The command that a line spells.
pub fn command(alloc: Global, most: u8, bytes: &[u8]) -> Result<Command, Fault>
    ensures { Gives written_command result (reading.read_command most bytes.now) }
{
    if let Some(rest) = behind(bytes, b"create ") {
        return create(alloc, most, rest);
    }
    if let Some(rest) = behind(bytes, b"hold ") {
        return hold(alloc, most, rest);
    }
    if let Some(rest) = behind(bytes, b"call ") {
        return call(alloc, rest);
    }
    if let Some(rest) = behind(bytes, b"restrict ") {
        return restrict(alloc, rest);
    }
    if let Some(rest) = behind(bytes, b"walk ") {
        return walk(alloc, rest);
    }
    run(most, bytes)
}
