//! References and values.

ghost use Rattle.std.specs.Prelude.{◌≡◌, ◌≤◌, ◌<◌, ◌^◌, ℕ, ℤ, pos, List, [], ◌∷◌, length, drop, take, map, Some, None, Ok, Err, IfOk};
ghost use Rattle.std.specs.Prelude.{IfSome, option_copied, slice_index, codes, false, true};
ghost use Rattle.std.specs.Option.{option_map};
ghost use Rattle.script_words.specs.Form as form;
ghost use Rattle.script_words.specs.Grammar.{minus};
ghost use Rattle.script_words.specs.Reading as reading;
ghost use Rattle.script_words.specs.Meaning.{reference_of};
ghost use Rattle.script_words.specs.View.{Gives, written, plainly, values_read};

use crate::cause::ScriptCause;
use crate::reader::{Fault, behind, digits, lower, up_to, within, word};
use eden_value::{Txt, Value, is_printable, texted};
use journal::{Arg, Args, Ref};
use std::alloc::{AllocError, Global};

/// Bytes as a text.
pub fn txt(alloc: Global, bytes: &[u8]) -> Result<Txt, AllocError>
    ensures { IfOk result (λ t. t ≡ bytes.now) }
{
    texted(Vec::from_slice(alloc, bytes)?)
}

/// A text behind its first quote, and what stands behind the last.
fn text_body<'a>(alloc: Global, bytes: &'a [u8]) -> Result<Option<(Vec<u8>, &'a [u8])>, AllocError>
    ensures { IfOk result (λ r. option_map (λ x. (x.0.items, x.1.now)) r ≡ reading.text_body false bytes.now) }
{
    let mut found = Vec::new(alloc);
    let mut escaped = false;
    for (i, b) in bytes.iter().enumerate() {
        if escaped {
            if *b != b'"' && *b != b'\\' {
                return Ok(None);
            }
            escaped = false;
            found.push(*b)?;
        } else if *b == b'"' {
            return Ok(Some((found, &bytes[i + 1..])));
        } else if *b == b'\\' {
            escaped = true;
        } else if is_printable(*b) {
            found.push(*b)?;
        } else {
            return Ok(None);
        }
    }
    Ok(None)
}

/// A text behind its first quote.
fn text(alloc: Global, bytes: &[u8]) -> Result<(Txt, &[u8]), Fault>
    ensures { Gives (λ x. (x.0, x.1.now)) result (reading.read_text bytes.now) }
{
    match text_body(alloc, bytes)? {
        Some((found, rest)) if found.len() <= 1024 => Ok((texted(found)?, rest)),
        _ => Err(Fault::Bad {
            cause: ScriptCause::BadForm,
        }),
    }
}

/// A text with both quotes.
pub fn quoted(alloc: Global, bytes: &[u8]) -> Result<(Txt, &[u8]), Fault>
    ensures { Gives (λ x. (x.0, x.1.now)) result (reading.read_quoted bytes.now) }
{
    let rest = word(bytes, b"\"")?;
    text(alloc, rest)
}

/// Whether a point and a digit stand in front.
fn has_result(bytes: &[u8]) -> bool
    ensures { result ≡ reading.has_result bytes.now }
{
    match bytes {
        [b'.', digit, ..] => digit.is_ascii_digit(),
        _ => false,
    }
}

/// The words of a reference.
#[derive(Clone, Copy)]
pub struct RefWords<'a> {
    /// The name.
    pub name: &'a [u8],
    /// The digits of the number of a result, if there are some.
    pub result: Option<&'a [u8]>,
}

/// NAME, or NAME.K with the digits of K.
pub fn reference_words(bytes: &[u8]) -> Result<(RefWords<'_>, &[u8]), Fault>
    ensures { Gives (λ x. ((x.0.name.now, option_copied x.0.result), x.1.now)) result (reading.read_ref bytes.now) }
{
    let (name, rest) = lower(bytes)?;
    if !has_result(rest) {
        return Ok((RefWords { name, result: None }, rest));
    }
    let (result, rest) = digits(&rest[1..])?;
    Ok((
        RefWords {
            name,
            result: Some(result),
        },
        rest,
    ))
}

/// A reference whose number is from 1 to 8.
pub fn reference(alloc: Global, words: RefWords) -> Result<Ref, Fault>
    ensures { Gives reference_of result (reading.reference (words.entry.name.now, option_copied words.entry.result)) }
{
    let result = match words.result {
        Some(digits) => within(1, 8, digits)? as u8,
        None => 0,
    };
    Ok(Ref {
        name: txt(alloc, words.name)?,
        result,
    })
}

/// A number, behind its sign.
fn positive(digits: &[u8]) -> Option<Arg>
    ensures { option_map written result ≡ reading.positive (reading.up_to 9223372036854775807 digits.now) }
{
    let n = up_to(9223372036854775807, digits)?;
    Some(Arg::Plain {
        value: Value::Int { n: n as i64 },
    })
}

/// The number below zero that is so far from it.
fn minus(n: u64) -> i64
    requires { n ≤ 9223372036854775808 }
    ensures { result ≡ minus n }
{
    if n == 0 { 0 } else { -1 - (n - 1) as i64 }
}

fn negative(digits: &[u8]) -> Option<Arg>
    ensures { option_map written result ≡ reading.negative (reading.up_to 9223372036854775808 digits.now) }
{
    let n = up_to(9223372036854775808, digits)?;
    Some(Arg::Plain {
        value: Value::Int { n: minus(n) },
    })
}

/// A value that is none where a number in it is out of its range, and what stands behind it.
type Found<'a> = (Option<Arg>, &'a [u8]);

fn positive_value(bytes: &[u8]) -> Result<Found<'_>, Fault>
    ensures { Gives (λ x. (option_map written x.0, x.1.now)) result (reading.read_positive bytes.now) }
{
    let (number, rest) = digits(bytes)?;
    Ok((positive(number), rest))
}

fn negative_value(bytes: &[u8]) -> Result<Found<'_>, Fault>
    ensures { Gives (λ x. (option_map written x.0, x.1.now)) result (reading.read_negative bytes.now) }
{
    let (number, rest) = digits(bytes)?;
    Ok((negative(number), rest))
}

fn text_value(alloc: Global, bytes: &[u8]) -> Result<Found<'_>, Fault>
    ensures { Gives (λ x. (option_map written x.0, x.1.now)) result (reading.read_text_value bytes.now) }
{
    let (text, rest) = text(alloc, bytes)?;
    Ok((
        Some(Arg::Plain {
            value: Value::Text { text },
        }),
        rest,
    ))
}

/// The value of a word of values.
fn constant(name: &[u8]) -> Option<Value>
    ensures { option_map plainly result ≡ reading.constant name.now }
{
    if name == b"true".as_slice() {
        return Some(Value::Bool { b: true });
    }
    if name == b"false".as_slice() {
        return Some(Value::Bool { b: false });
    }
    if name == b"none".as_slice() {
        return Some(Value::Cap { cap: None });
    }
    None
}

/// A reference to a result as a value.
fn result_value(alloc: Global, name: &[u8], digits: &[u8]) -> Result<Option<Arg>, AllocError>
    ensures { IfOk result (λ r. option_map written r ≡ reading.result_value name.now digits.now) }
{
    let Some(k) = up_to(8, digits) else {
        return Ok(None);
    };
    if k == 0 {
        return Ok(None);
    }
    let name = txt(alloc, name)?;
    Ok(Some(Arg::Named {
        by: Ref {
            name,
            result: k as u8,
        },
    }))
}

/// A name alone, which may be a word of values.
fn name_value(alloc: Global, name: &[u8]) -> Result<Option<Arg>, AllocError>
    ensures { IfOk result (λ r. option_map written r ≡ reading.name_value name.now) }
{
    if let Some(value) = constant(name) {
        return Ok(Some(Arg::Plain { value }));
    }
    let name = txt(alloc, name)?;
    Ok(Some(Arg::Named {
        by: Ref { name, result: 0 },
    }))
}

/// Whether a name alone is a word of values.
fn is_value_word(words: RefWords) -> bool
    ensures { result ≡ reading.is_value_word (words.entry.name.now, option_copied words.entry.result) }
{
    words.result.is_none() && is_constant(words.name)
}

fn is_constant(name: &[u8]) -> bool
    ensures { result ≡ form.is_constant name.now }
{
    name == b"true".as_slice() || name == b"false".as_slice() || name == b"none".as_slice()
}

/// A word of values, or a name where names are read.
fn named_value(alloc: Global, names: bool, bytes: &[u8]) -> Result<Found<'_>, Fault>
    ensures { Gives (λ x. (option_map written x.0, x.1.now)) result (reading.read_named names bytes.now) }
{
    let (words, rest) = reference_words(bytes)?;
    if !names && !is_value_word(words) {
        return Err(Fault::Bad {
            cause: ScriptCause::BadForm,
        });
    }
    let value = match words.result {
        Some(digits) => result_value(alloc, words.name, digits)?,
        None => name_value(alloc, words.name)?,
    };
    Ok((value, rest))
}

/// A value that is no list.
fn flat(alloc: Global, names: bool, bytes: &[u8]) -> Result<Found<'_>, Fault>
    ensures { Gives (λ x. (option_map written x.0, x.1.now)) result (reading.read_flat names bytes.now) }
{
    let Some((first, rest)) = bytes.split_first() else {
        return Err(Fault::Bad {
            cause: ScriptCause::BadForm,
        });
    };
    if *first == b'"' {
        text_value(alloc, rest)
    } else if *first == b'-' {
        negative_value(rest)
    } else if first.is_ascii_digit() {
        positive_value(bytes)
    } else {
        named_value(alloc, names, bytes)
    }
}

/// One value more, where there are values.
fn added(found: Option<Vec<Arg>>, next: Option<Arg>) -> Result<Option<Vec<Arg>>, AllocError>
    ensures { IfOk result (λ r. values_read r ≡ reading.added (values_read found) (option_map written next)) }
{
    match (found, next) {
        (Some(mut found), Some(next)) => {
            // most lists have one value, and then take room for one
            if found.is_empty() {
                found.reserve_exact(1)?;
            }
            found.push(next)?;
            Ok(Some(found))
        }
        _ => Ok(None),
    }
}

fn listed(found: Option<Vec<Arg>>) -> Option<Arg>
    ensures { option_map written result ≡ reading.listed (values_read found) }
{
    match found {
        Some(args) => Some(Arg::List {
            items: Args { args },
        }),
        None => None,
    }
}

/// Values, and what stands behind them.
pub type FoundValues<'a> = (Option<Vec<Arg>>, &'a [u8]);

fn closed<'a>(
    found: Option<Vec<Arg>>,
    close: &[u8],
    bytes: &'a [u8],
) -> Result<FoundValues<'a>, Fault>
    ensures { Gives (λ x. (values_read x.0, x.1.now)) result (reading.read_close close.now (values_read found) bytes.now) }
{
    let rest = word(bytes, close)?;
    Ok((found, rest))
}

/// Values up to and with what closes them, at most so many and one.
#[cycle(value)]
pub fn values<'a>(
    alloc: Global,
    names: bool,
    levels: u8,
    close: &[u8],
    most: usize,
    bytes: &'a [u8],
) -> Result<FoundValues<'a>, Fault>
    ensures { Gives (λ x. (values_read x.0, x.1.now)) result
        (reading.read_values (reading.read_value names levels) close.now most bytes.now) }
{
    if let Some(rest) = behind(bytes, close) {
        return Ok((Some(Vec::new(alloc)), rest));
    }
    let (first, mut rest) = value(alloc, names, levels, bytes)?;
    let mut found = added(Some(Vec::new(alloc)), first)?;
    let mut left = most;
    while left > 0 {
        let Some(next) = behind(rest, b", ") else {
            return closed(found, close, rest);
        };
        let (next, after) = value(alloc, names, levels, next)?;
        found = added(found, next)?;
        rest = after;
        left -= 1;
    }
    closed(found, close, rest)
}

/// A value in which lists stand at most so deep, with names in it or without.
#[cycle(value)]
pub fn value(alloc: Global, names: bool, levels: u8, bytes: &[u8]) -> Result<Found<'_>, Fault>
    ensures { Gives (λ x. (option_map written x.0, x.1.now)) result (reading.read_value names levels bytes.now) }
{
    if levels == 0 {
        return flat(alloc, names, bytes);
    }
    let inner = levels - 1;
    let Some(rest) = behind(bytes, b"[") else {
        return flat(alloc, names, bytes);
    };
    let (found, rest) = values(alloc, names, inner, b"]", 255, rest)?;
    Ok((listed(found), rest))
}

/// A value whose numbers are in their ranges.
pub fn in_range(found: Option<Arg>) -> Result<Arg, Fault>
    ensures { Gives written result (reading.in_range (option_map written found)) }
{
    match found {
        Some(arg) => Ok(arg),
        None => Err(Fault::Bad {
            cause: ScriptCause::BadNumber,
        }),
    }
}
