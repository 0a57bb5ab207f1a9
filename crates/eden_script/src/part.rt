//! Parts of a script.

ghost use Rattle.std.specs.Prelude.{◌≡◌, ◌<◌, ◌≤◌, ◌^◌, IfOk, length};
ghost use Rattle.eden_script.specs.Flaws as flaws;
ghost use Rattle.eden_script.specs.Parts as parts;
ghost use Rattle.script_words.specs.Lines.{lines_of};
ghost use Rattle.eden_script.specs.View.{PartFinds, FirstFinds, IsCounted, seen_of, place_of};
ghost use Rattle.std.specs.Option.{option_map};

use crate::cut::{begins_edentype, count_lines, declaration, line_at_place};
use crate::declared::{Refused, declared, is_room, name_flaw, place_flaw};
use crate::flaw::{Flaw, Place, earlier, is_earlier, line_flaw};
use crate::line::{Line, Seen, judge};
use epl_parser::{refusals_are_one, types_are_one};
use script_words::{Fault, ScriptCause, first_line};
use std::alloc::{AllocError, Global};

/// What a line says.
fn line(alloc: Global, seen: &Seen, bytes: &[u8]) -> Result<Line, Flaw>
    ensures { PartFinds (seen_of seen.now) (parts.line bytes.now) result }
{
    match judge(alloc, seen, bytes) {
        Ok(said) => Ok(said),
        Err(Fault::Bad { cause }) => Err(Flaw::At {
            at: Place { line: 0, cause },
        }),
        Err(Fault::Memory) => Err(Flaw::Memory),
    }
}

/// What may be found of an Edentype's text before it is read as one.
fn outer_flaw(alloc: Global, seen: &Seen, text: &[u8]) -> Result<Option<Place>, AllocError>
    requires long { 8 ≤ length text.now }
    requires short { length text.now < 2 ^ 32 }
    ensures { IfOk result (λ o. option_map place_of o ≡ flaws.outer_flaw (seen_of seen.now) text.now) }
{
    let inner = earlier(place_flaw(seen), name_flaw(alloc, &seen.types, text)?);
    Ok(earlier(line_flaw(text), inner))
}

/// What the text of an Edentype says.
fn edentype(alloc: Global, seen: &Seen, text: &[u8]) -> Result<Line, Flaw>
    requires counted { IsCounted seen.now }
    requires long { 8 ≤ length text.now }
    requires short { length text.now < 2 ^ 32 }
    ensures { PartFinds (seen_of seen.now) (parts.declaration text.now) result }
{
    types_are_one();
    refusals_are_one();
    let outer = outer_flaw(alloc, seen, text)?;
    if !is_room(seen) {
        return Err(Flaw::At {
            at: with_text(outer, 0),
        });
    }
    match declared(alloc, &seen.types, text) {
        Ok(edentype) => match outer {
            Some(at) => Err(Flaw::At { at }),
            None => Ok(Line::Declares { edentype }),
        },
        Err(Refused::At { place }) => Err(Flaw::At {
            at: with_text(outer, line_at_place(text, place)),
        }),
        Err(Refused::Memory) => Err(Flaw::Memory),
    }
}

/// The earlier one of a flaw and of a bad text at a line.
fn with_text(outer: Option<Place>, line: u32) -> Place
    ensures { place_of result ≡ flaws.with_text (option_map place_of outer) line }
{
    let text = Place {
        line,
        cause: ScriptCause::BadEdentype,
    };
    match outer {
        Some(outer) if is_earlier(outer, text) => outer,
        _ => text,
    }
}

/// What the lines of an Edentype without its end say.
fn unclosed(seen: &Seen, bytes: &[u8]) -> Result<Line, Flaw>
    requires { length bytes.now < 2 ^ 32 }
    ensures { PartFinds (seen_of seen.now) (parts.unclosed (lines_of bytes.now)) result }
{
    match line_flaw(bytes) {
        Some(at) => Err(Flaw::At { at }),
        None => Ok(Line::Unended),
    }
}

/// What the first part says, how many lines it has, and the bytes behind it.
pub fn first_part<'a>(
    alloc: Global,
    seen: &Seen,
    bytes: &'a [u8],
) -> Result<(Line, u32, &'a [u8]), Flaw>
    requires counted { IsCounted seen.now }
    requires some { 0 < length bytes.now }
    requires short { length bytes.now < 2 ^ 32 }
    ensures { FirstFinds (seen_of seen.now) bytes.now result }
{
    let (text, behind) = first_line(bytes);
    if !begins_edentype(text) {
        return match line(alloc, seen, text) {
            Ok(said) => Ok((said, 1, behind)),
            Err(flaw) => Err(flaw),
        };
    }
    match declaration(bytes, text, behind) {
        Some((text, behind)) => match edentype(alloc, seen, text) {
            Ok(said) => Ok((said, count_lines(text), behind)),
            Err(flaw) => Err(flaw),
        },
        None => match unclosed(seen, bytes) {
            Ok(said) => Ok((said, count_lines(bytes), &bytes[bytes.len()..])),
            Err(flaw) => Err(flaw),
        },
    }
}
