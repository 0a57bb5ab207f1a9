//! What a line ends with.

ghost use Rattle.std.specs.Prelude.{◌≡◌};
ghost use Rattle.std.specs.Option.{option_map};
ghost use Rattle.eden_value.specs.View.{datum};
ghost use Rattle.script_words.specs.Meaning.{written_mode};
ghost use Rattle.script_words.specs.Reading as script;
ghost use Rattle.script_words.specs.View.{Gives};
ghost use Rattle.line_forms.specs.Reading as reading;
ghost use Rattle.line_forms.specs.View.{last_of};

use crate::form::{Ending, Last};
use eden_disk::ImageMode;
use eden_value::Value;
use script_words::{Fault, ScriptCause, crash_mode, end, mode, quoted, read_value, word};
use std::alloc::Global;

/// A value alone.
fn read_datum(alloc: Global, bytes: &[u8]) -> Result<Value, Fault>
    ensures { Gives datum result (reading.read_datum bytes.now) }
{
    match read_value(alloc, bytes)? {
        Ok(value) => Ok(value),
        Err(cause) => Err(Fault::Bad { cause }),
    }
}

/// What ends a line is none where a number in it is out of its range.
fn value_ending(alloc: Global, bytes: &[u8]) -> Result<Option<Last>, Fault>
    ensures { Gives (option_map last_of) result (reading.read_value_ending bytes.now) }
{
    let rest = word(bytes, b" ")?;
    match read_datum(alloc, rest) {
        Ok(value) => Ok(Some(Last::Datum { value })),
        Err(
            Fault::Bad {
                cause: ScriptCause::BadNumber,
            },
        ) => Ok(None),
        Err(fault) => Err(fault),
    }
}

fn text_ending(alloc: Global, bytes: &[u8]) -> Result<Option<Last>, Fault>
    ensures { Gives (option_map last_of) result (reading.read_text_ending bytes.now) }
{
    let rest = word(bytes, b" ")?;
    let (text, rest) = quoted(alloc, rest)?;
    end(rest)?;
    Ok(Some(Last::Text { text }))
}

fn as_mode(mode: Option<ImageMode>) -> Option<Last>
    ensures { option_map last_of result ≡ reading.as_mode (option_map written_mode mode) }
{
    match mode {
        Some(mode) => Some(Last::Mode { mode }),
        None => None,
    }
}

fn mode_ending(bytes: &[u8]) -> Result<Option<Last>, Fault>
    ensures { Gives (option_map last_of) result (reading.read_mode_ending bytes.now) }
{
    let mode = mode(bytes)?;
    Ok(as_mode(mode))
}

fn maybe_mode_ending(bytes: &[u8]) -> Result<Option<Last>, Fault>
    ensures { Gives (option_map last_of) result (reading.read_maybe_mode_ending bytes.now) }
{
    let mode = crash_mode(bytes)?;
    Ok(as_mode(mode))
}

fn no_ending(bytes: &[u8]) -> Result<Option<Last>, Fault>
    ensures { Gives (option_map last_of) result (reading.read_no_ending bytes.now) }
{
    end(bytes)?;
    Ok(Some(Last::Nothing))
}

/// What a line ends with.
pub fn read_ending(alloc: Global, ending: Ending, bytes: &[u8]) -> Result<Option<Last>, Fault>
    ensures { Gives (option_map last_of) result (reading.read_ending ending bytes.now) }
{
    match ending {
        Ending::Nothing => no_ending(bytes),
        Ending::Value => value_ending(alloc, bytes),
        Ending::Text => text_ending(alloc, bytes),
        Ending::Mode => mode_ending(bytes),
        Ending::MaybeMode => maybe_mode_ending(bytes),
    }
}

/// What ended a line, with its numbers in their ranges.
pub fn in_range(last: Option<Last>) -> Result<Last, Fault>
    ensures { Gives last_of result (script.in_range (option_map last_of last)) }
{
    match last {
        Some(last) => Ok(last),
        None => Err(Fault::Bad {
            cause: ScriptCause::BadNumber,
        }),
    }
}
