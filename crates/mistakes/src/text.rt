//! The words of an answer.

ghost use Rattle.std.specs.Prelude.{◌≡◌, ◌++◌, ◌-◌, map, replicate, OnOk, IfOk};
ghost use Rattle.mistakes.specs.Answers.{line_numbered};
ghost use Rattle.mistakes.specs.Words as words;

use crate::column::first_word;
use crate::cut::line_behind;
use crate::differing::{add_difference, add_number};
use crate::mistake::{Mistake, TypeFault};
use crate::told::{add_kept, cause_word, form_told, line_told, rule_told, rule_word};
use eden_script::ScriptCause;
use eden_value::is_printable;
use epl_check::Difference;
use epl_syntax::Rule;
use std::alloc::{AllocError, Global};

fn add_fault(fault: Option<TypeFault>, out: &mut Vec<u8>) -> Result<(), AllocError>
    ensures { OnOk result (out.new.items ≡ out.old.items ++ words.fault_text fault) }
{
    match fault {
        None => Ok(()),
        Some(TypeFault::TooMany) => out.extend_from_slice(b": too many types"),
        Some(TypeFault::BadToken) => out.extend_from_slice(b": bad token"),
        Some(TypeFault::TooDeep) => out.extend_from_slice(b": too deep"),
        Some(TypeFault::Broken { rule, .. }) => {
            out.extend_from_slice(b": ")?;
            out.extend_from_slice(rule_word(rule).as_bytes())
        }
    }
}

/// A byte as it is shown.
fn shown_byte(b: u8) -> u8
    ensures { result ≡ words.shown_byte b }
{
    if is_printable(b) { b } else { b'?' }
}

fn add_shown(line: &[u8], out: &mut Vec<u8>) -> Result<(), AllocError>
    ensures { OnOk result (out.new.items ≡ out.old.items ++ words.shown line.now) }
{
    for b in line {
        out.push(shown_byte(*b))?;
    }
    Ok(())
}

fn add_blanks(count: u32, out: &mut Vec<u8>) -> Result<(), AllocError>
    ensures { OnOk result (out.new.items ≡ out.old.items ++ replicate count 32) }
{
    for _ in 0..count {
        out.push(b' ')?;
    }
    Ok(())
}

fn add_line_and_mark(line: &[u8], column: u32, out: &mut Vec<u8>) -> Result<(), AllocError>
    ensures { OnOk result (out.new.items ≡ out.old.items ++ words.line_and_mark line.now column) }
{
    add_shown(line, out)?;
    out.extend_from_slice(b"\n")?;
    add_blanks(column.saturating_sub(1), out)?;
    out.extend_from_slice(b"^\n")
}

fn add_marked(
    cause: ScriptCause,
    line: &[u8],
    column: u32,
    out: &mut Vec<u8>,
) -> Result<(), AllocError>
    ensures { OnOk result (out.new.items ≡ out.old.items ++ words.marked cause line.now column) }
{
    match cause {
        ScriptCause::NoEnd => Ok(()),
        _ => add_line_and_mark(line, column, out),
    }
}

fn add_broken_wanted(
    rule: Rule,
    difference: Option<Difference>,
    out: &mut Vec<u8>,
) -> Result<(), AllocError>
    ensures { OnOk result (out.new.items ≡ out.old.items ++ words.broken_wanted rule difference) }
{
    match difference {
        None => out.extend_from_slice(rule_told(rule).as_bytes()),
        Some(difference) => add_difference(difference, out),
    }
}

fn add_fault_wanted(
    alloc: Global,
    fault: TypeFault,
    wanted: &[&'static [u8]],
    out: &mut Vec<u8>,
) -> Result<(), AllocError>
    ensures { OnOk result (out.new.items ≡ out.old.items ++ words.fault_wanted fault (map (λ w. w.now) wanted.now)) }
{
    match fault {
        TypeFault::TooMany => out.extend_from_slice(b"at most 64 types"),
        TypeFault::BadToken => add_kept(alloc, wanted, out),
        TypeFault::TooDeep => {
            out.extend_from_slice(b"at most 32 statements, kinds or expressions in one another")
        }
        TypeFault::Broken { rule, difference } => add_broken_wanted(rule, difference, out),
    }
}

fn add_line_wanted(cause: ScriptCause, word: &[u8], out: &mut Vec<u8>) -> Result<(), AllocError>
    ensures { OnOk result (out.new.items ≡ out.old.items ++ words.line_wanted cause word.now) }
{
    match cause {
        ScriptCause::BadForm | ScriptCause::BadNumber => out.extend_from_slice(form_told(word)),
        _ => out.extend_from_slice(line_told(cause).as_bytes()),
    }
}

fn add_wanted(
    alloc: Global,
    mistake: &Mistake,
    line: &[u8],
    out: &mut Vec<u8>,
) -> Result<(), AllocError>
    ensures { OnOk result (out.new.items ≡ out.old.items ++ words.wanted_text mistake.now mistake.now.fault line.now) }
{
    match mistake.fault {
        Some(fault) => add_fault_wanted(alloc, fault, &mistake.wanted, out),
        None => add_line_wanted(mistake.cause, first_word(line), out),
    }
}

fn add_place(mistake: &Mistake, out: &mut Vec<u8>) -> Result<(), AllocError>
    ensures { OnOk result (out.new.items ≡ out.old.items ++ words.place_text mistake.now) }
{
    out.extend_from_slice(b"line ")?;
    add_number(mistake.line as u64, out)?;
    out.extend_from_slice(b", column ")?;
    add_number(mistake.column as u64, out)?;
    out.extend_from_slice(b": ")?;
    out.extend_from_slice(cause_word(mistake.cause).as_bytes())?;
    add_fault(mistake.fault, out)?;
    out.extend_from_slice(b"\n")
}

/// The answer for a mistake in these bytes.
pub fn text_of(alloc: Global, bytes: &[u8], mistake: &Mistake) -> Result<Vec<u8>, AllocError>
    ensures { IfOk result (λ text. text.items ≡ words.text_of bytes.now mistake.now) }
{
    let (line, _) = line_behind(bytes, mistake.line.saturating_sub(1));
    let mut out = Vec::new(alloc);
    add_place(mistake, &mut out)?;
    add_marked(mistake.cause, line, mistake.column, &mut out)?;
    out.extend_from_slice(b"wanted: ")?;
    add_wanted(alloc, mistake, line, &mut out)?;
    out.extend_from_slice(b"\n")?;
    Ok(out)
}
