//! Modes, and numbers that are the same.

ghost use Rattle.std.specs.Prelude.{◌≡◌, ◌≤◌, ◌==◌, ◌&&◌, true, length};
ghost use Rattle.std.specs.List.{list_all};
ghost use Rattle.std.specs.Option.{option_map};
ghost use Rattle.std.specs.Str.{bytes_eq};
ghost use Rattle.script_words.specs.Form as form;
ghost use Rattle.script_words.specs.Reading as reading;
ghost use Rattle.script_words.specs.Meaning.{written_mode};
ghost use Rattle.script_words.specs.View.{Gives};

use crate::cause::ScriptCause;
use crate::reader::{Fault, last_digits, up_to, word};
use eden_disk::ImageMode;

/// A mode that is none where its byte is out of its range.
pub fn mode(bytes: &[u8]) -> Result<Option<ImageMode>, Fault>
    ensures { Gives (option_map written_mode) result (reading.read_mode bytes.now) }
{
    if bytes == b" keep".as_slice() {
        return Ok(Some(ImageMode::Keep));
    }
    if bytes == b" lose".as_slice() {
        return Ok(Some(ImageMode::Lose));
    }
    let rest = word(bytes, b" garble ")?;
    let byte = last_digits(rest)?;
    Ok(garble(byte))
}

fn garble(digits: &[u8]) -> Option<ImageMode>
    ensures { option_map written_mode result ≡ reading.garbled (reading.up_to 255 digits.now) }
{
    let byte = up_to(255, digits)? as u8;
    Some(ImageMode::Garble { byte })
}

/// Such a mode, or none, which stands for the loss.
pub fn crash_mode(bytes: &[u8]) -> Result<Option<ImageMode>, Fault>
    ensures { Gives (option_map written_mode) result (reading.read_crash_mode bytes.now) }
{
    if bytes.is_empty() {
        return Ok(Some(ImageMode::Lose));
    }
    mode(bytes)
}

/// A mode whose byte is in its range.
pub fn mode_in_range(mode: Option<ImageMode>) -> Result<ImageMode, Fault>
    ensures { Gives written_mode result (reading.in_range (option_map written_mode mode)) }
{
    match mode {
        Some(mode) => Ok(mode),
        None => Err(Fault::Bad {
            cause: ScriptCause::BadNumber,
        }),
    }
}

fn all_zeros(digits: &[u8]) -> bool
    ensures { result ≡ list_all (λ b. b == 48) digits.now }
{
    digits.iter().all(|b| *b == b'0')
}

/// Whether a word is another one behind zeros.
fn is_padded(short: &[u8], front: &[u8], back: &[u8]) -> bool
    ensures { result ≡ list_all (λ b. b == 48) front.now && bytes_eq back.now short.now }
{
    all_zeros(front) && back == short
}

/// Whether the shorter word of digits and the longer stand for the same number.
fn same_padded(short: &[u8], long: &[u8]) -> bool
    requires few { length short.now ≤ length long.now }
    requires short { list_all form.is_digit short.now ≡ true }
    requires long { list_all form.is_digit long.now ≡ true }
    ensures { result ≡ form.number_of short.now == form.number_of long.now }
{
    let extra = long.len() - short.len();
    is_padded(short, &long[..extra], &long[extra..])
}

/// Whether two words of digits stand for the same number.
pub fn same_number(a: &[u8], b: &[u8]) -> bool
    requires first { list_all form.is_digit a.now ≡ true }
    requires second { list_all form.is_digit b.now ≡ true }
    ensures { result ≡ form.number_of a.now == form.number_of b.now }
{
    if a.len() <= b.len() {
        same_padded(a, b)
    } else {
        same_padded(b, a)
    }
}
