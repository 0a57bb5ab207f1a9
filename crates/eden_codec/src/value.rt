//! Values at the front of bytes.
ghost use Rattle.std.specs.Prelude.{◌≡◌};
ghost use Rattle.eden_value.specs.View.{datum, datums};
ghost use Rattle.grammar.specs.Gives.{Gives};
ghost use Rattle.grammar.specs.Reading.{one, one_of, times};
ghost use Rattle.eden_codec.specs.Alphabet.{in_alphabet};
ghost use Rattle.eden_codec.specs.Reading.{int_at, text_at, cap_at, plain_of, plain_at, kind_of, any_at, value_at, row_at};

use crate::field::{Alphabet, byte_of, truth_of};
use crate::tag;
use capability::{Cap, Rights, Uid};
use eden_value::{DEPTH_LIMIT, Items, LIST_LIMIT, TEXT_LIMIT, Txt, Value, listed, texted};
use grammar::{Stop, number_of};
use std::alloc::Global;

/// What the first byte says of a value that is no list.
#[derive(Clone, Copy)]
pub enum Plain {
    Integer,
    Truth,
    Text,
    Absent,
    Capability,
}

/// So many bytes of an alphabet.
pub fn bytes_of(
    alloc: Global,
    alphabet: Alphabet,
    count: u64,
    bytes: &[u8],
) -> Result<(Vec<u8>, &[u8]), Stop>
    ensures { Gives (λ x. (x.0.items, x.1.now)) result (times count (one_of (in_alphabet alphabet)) bytes.now) }
{
    let mut found = Vec::new(alloc);
    let mut rest = bytes;
    for _ in 0..count {
        let (b, after) = byte_of(alphabet, rest)?;
        found.push(b)?;
        rest = after;
    }
    Ok((found, rest))
}

fn int_of(bytes: &[u8]) -> Result<(i64, &[u8]), Stop>
    ensures { Gives (λ x. (x.0, x.1.now)) result (int_at bytes.now) }
{
    let (n, rest) = number_of(bytes, 8, 0, u64::MAX)?;
    Ok((n.cast_signed(), rest))
}

fn text_of(alloc: Global, bytes: &[u8]) -> Result<(Txt, &[u8]), Stop>
    ensures { Gives (λ x. (x.0, x.1.now)) result (text_at bytes.now) }
{
    let (count, rest) = number_of(bytes, 2, 0, TEXT_LIMIT as u64)?;
    let (bytes, rest) = bytes_of(alloc, Alphabet::Printable, count, rest)?;
    Ok((texted(bytes)?, rest))
}

fn cap_of(bytes: &[u8]) -> Result<(Cap, &[u8]), Stop>
    ensures { Gives (λ x. (x.0, x.1.now)) result (cap_at bytes.now) }
{
    let (node, rest) = number_of(bytes, 1, 1, 8)?;
    let (epoch, rest) = number_of(rest, 4, 1, 0xFFFF_FFFF)?;
    let (serial, rest) = number_of(rest, 4, 1, 0xFFFF_FFFF)?;
    let (bits, rest) = number_of(rest, 2, 0, 0xFFFF)?;
    let uid = Uid {
        node: node as u8,
        epoch: epoch as u32,
        serial: serial as u32,
    };
    let rights = Rights { bits: bits as u16 };
    Ok((Cap { uid, rights }, rest))
}

/// What a value is that is no list.
fn plain_of(bytes: &[u8]) -> Result<(Plain, &[u8]), Stop>
    ensures { Gives (λ x. (x.0, x.1.now)) result (one plain_of bytes.now) }
{
    match bytes {
        [tag::INT, rest @ ..] => Ok((Plain::Integer, rest)),
        [tag::BOOL, rest @ ..] => Ok((Plain::Truth, rest)),
        [tag::TEXT, rest @ ..] => Ok((Plain::Text, rest)),
        [tag::ABSENT_CAP, rest @ ..] => Ok((Plain::Absent, rest)),
        [tag::CAP, rest @ ..] => Ok((Plain::Capability, rest)),
        _ => Err(Stop::At { left: bytes.len() }),
    }
}

/// What a value is, `None` being a list.
fn kind_of(bytes: &[u8]) -> Result<(Option<Plain>, &[u8]), Stop>
    ensures { Gives (λ x. (x.0, x.1.now)) result (one kind_of bytes.now) }
{
    match bytes {
        [tag::INT, rest @ ..] => Ok((Some(Plain::Integer), rest)),
        [tag::BOOL, rest @ ..] => Ok((Some(Plain::Truth), rest)),
        [tag::TEXT, rest @ ..] => Ok((Some(Plain::Text), rest)),
        [tag::ABSENT_CAP, rest @ ..] => Ok((Some(Plain::Absent), rest)),
        [tag::CAP, rest @ ..] => Ok((Some(Plain::Capability), rest)),
        [tag::LIST, rest @ ..] => Ok((None, rest)),
        _ => Err(Stop::At { left: bytes.len() }),
    }
}

fn plain_value(alloc: Global, plain: Plain, bytes: &[u8]) -> Result<(Value, &[u8]), Stop>
    ensures { Gives (λ x. (datum x.0, x.1.now)) result (plain_at plain bytes.now) }
{
    match plain {
        Plain::Integer => {
            let (n, rest) = int_of(bytes)?;
            Ok((Value::Int { n }, rest))
        }
        Plain::Truth => {
            let (b, rest) = truth_of(bytes)?;
            Ok((Value::Bool { b }, rest))
        }
        Plain::Text => {
            let (text, rest) = text_of(alloc, bytes)?;
            Ok((Value::Text { text }, rest))
        }
        Plain::Absent => Ok((Value::Cap { cap: None }, bytes)),
        Plain::Capability => {
            let (cap, rest) = cap_of(bytes)?;
            Ok((Value::Cap { cap: Some(cap) }, rest))
        }
    }
}

/// A value in which lists nest at most `depth` deep.
#[cycle(value)]
fn value_of(alloc: Global, depth: u8, bytes: &[u8]) -> Result<(Value, &[u8]), Stop>
    ensures { Gives (λ x. (datum x.0, x.1.now)) result (value_at depth bytes.now) }
{
    if depth == 0 {
        let (plain, rest) = plain_of(bytes)?;
        return plain_value(alloc, plain, rest);
    }
    let (kind, rest) = kind_of(bytes)?;
    any_value(alloc, depth - 1, kind, rest)
}

/// What stands behind the first byte, `None` being a list; lists in a list nest at most `depth` deep.
#[cycle(value)]
fn any_value(
    alloc: Global,
    depth: u8,
    kind: Option<Plain>,
    bytes: &[u8],
) -> Result<(Value, &[u8]), Stop>
    ensures { Gives (λ x. (datum x.0, x.1.now)) result (any_at (value_at depth) kind bytes.now) }
{
    match kind {
        Some(plain) => plain_value(alloc, plain, bytes),
        None => {
            let (count, rest) = number_of(bytes, 2, 0, LIST_LIMIT as u64)?;
            let (values, rest) = values_of(alloc, depth, count, rest)?;
            let items = listed(values)?;
            Ok((Value::List { items }, rest))
        }
    }
}

/// So many values.
#[cycle(value)]
fn values_of(
    alloc: Global,
    depth: u8,
    count: u64,
    bytes: &[u8],
) -> Result<(Vec<Value>, &[u8]), Stop>
    ensures { Gives (λ x. (datums x.0.items, x.1.now)) result (times count (value_at depth) bytes.now) }
{
    let mut values = Vec::new(alloc);
    let mut rest = bytes;
    for _ in 0..count {
        let (value, after) = value_of(alloc, depth, rest)?;
        values.push(value)?;
        rest = after;
    }
    Ok((values, rest))
}

/// The values of a representation, behind their number.
pub fn items_of(alloc: Global, bytes: &[u8]) -> Result<(Items, &[u8]), Stop>
    ensures { Gives (λ x. (x.0, x.1.now)) result (row_at (value_at 4) bytes.now) }
{
    let (count, rest) = number_of(bytes, 1, 0, 64)?;
    let (values, rest) = values_of(alloc, DEPTH_LIMIT, count, rest)?;
    Ok((Items { values }, rest))
}
