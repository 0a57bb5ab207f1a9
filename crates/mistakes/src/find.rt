//! The first mistake in a script.

ghost use Rattle.std.specs.Prelude.{◌≡◌, ◌≢◌, ◌<◌, ◌≤◌, ◌^◌, map, take, IfOk, length};
ghost use Rattle.eden_script.specs.Script.{IsBadLine};
ghost use Rattle.mistakes.specs.Answers.{IsAnswer, IsMistake, IsWanted};
ghost use Rattle.mistakes.specs.Wanted.{IsSifted, MayStand, samples};

use crate::bad_type::{BadType, bad_type};
use crate::column::column_on;
use crate::cut::{column_in, line_behind};
use crate::mistake::{Mistake, TypeFault};
use crate::wanted::wanted;
use eden_script::{ScriptCause, ScriptRefusal, parse_script};
use std::alloc::{AllocError, Global};

/// The bytes before a place.
fn before_place(text: &[u8], place: u32) -> &[u8]
    ensures bytes { result.now ≡ take place text.now }
    ensures short { length result.now ≤ length text.now }
{
    text.get(..place as usize).unwrap_or(text)
}

/// What may stand at a place of a text.
fn wanted_at(alloc: Global, text: &[u8], place: u32) -> Result<Vec<&'static [u8]>, AllocError>
    requires { length text.now < 2 ^ 31 }
    ensures { IfOk result (λ v. IsSifted (MayStand (take place text.now)) samples (map (λ w. w.now) v.items)) }
{
    let before = before_place(text, place);
    wanted(alloc, before)
}

/// What may stand where a text is refused: of a bad token, what goes on with the tokens before it.
fn wanted_in(alloc: Global, bad: BadType) -> Result<Vec<&'static [u8]>, AllocError>
    requires { length bad.text.now < 2 ^ 31 }
    ensures { IfOk result (λ v. IsWanted bad.entry.text.now bad.entry.place bad.entry.fault (map (λ w. w.now) v.items)) }
{
    match bad.fault {
        TypeFault::BadToken => wanted_at(alloc, bad.text, bad.place),
        TypeFault::TooMany | TypeFault::TooDeep | TypeFault::Broken { .. } => Ok(Vec::new(alloc)),
    }
}

/// A bad line in the text of an Edentype.
fn type_mistake(alloc: Global, bytes: &[u8], line: u32) -> Result<Mistake, AllocError>
    requires short { length bytes.now < 2 ^ 31 }
    requires bad { IsBadLine bytes.now line ScriptCause.BadEdentype }
    ensures { IfOk result (IsMistake bytes.now) }
{
    let bad = bad_type(alloc, bytes, line)?;
    Ok(Mistake {
        line,
        column: column_in(bad.text, bad.place),
        cause: ScriptCause::BadEdentype,
        fault: Some(bad.fault),
        wanted: wanted_in(alloc, bad)?,
    })
}

/// A bad line for another cause.
fn line_mistake(
    alloc: Global,
    bytes: &[u8],
    line: u32,
    cause: ScriptCause,
) -> Result<Mistake, AllocError>
    requires short { length bytes.now < 2 ^ 31 }
    requires bad { IsBadLine bytes.now line cause }
    requires other { cause ≢ ScriptCause.BadEdentype }
    ensures { IfOk result (IsMistake bytes.now) }
{
    let (text, from) = line_behind(bytes, line.saturating_sub(1));
    Ok(Mistake {
        line,
        column: column_on(alloc, bytes, from.len(), text, cause)?,
        cause,
        fault: None,
        wanted: Vec::new(alloc),
    })
}

/// The first mistake in the bytes of a script, or none where they spell one.
pub fn first_mistake(alloc: Global, bytes: &[u8]) -> Result<Option<Mistake>, AllocError>
    requires { length bytes.now < 2 ^ 31 }
    ensures { IfOk result (IsAnswer bytes.now) }
{
    match parse_script(alloc, bytes) {
        Ok(_) => Ok(None),
        Err(ScriptRefusal::Bad { line, cause }) => {
            let found = if cause == ScriptCause::BadEdentype {
                type_mistake(alloc, bytes, line)?
            } else {
                line_mistake(alloc, bytes, line, cause)?
            };
            Ok(Some(found))
        }
        Err(ScriptRefusal::OutOfMemory) => Err(AllocError),
    }
}
