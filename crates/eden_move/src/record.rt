//! Records of Ejects that wander, and how they are kept.
ghost use Rattle.std.specs.Prelude.{◌≡◌, Bool, Some, None, ◌<◌, ◌≤◌, List, [], ◌∷◌, length, IfOk, IfSome, Err};
ghost use Rattle.eden_value.specs.Datum.{number};
ghost use Rattle.eden_value.specs.View.{datum, datums};
ghost use Rattle.eden_value.specs.Limits.{IsValue};
ghost use Rattle.std.specs.Option.{option_map};
ghost use Rattle.move_laws.specs.Wander.{generation};
ghost use Rattle.eden_codec.specs.declared.encode.EncodeRefusal.TheVariants.{TooLarge};
ghost use Rattle.eden_move.specs.Records.{seen_record, record_in, record_values, record_rep, int_value, int_first, only_one};
ghost use Rattle.eden_move.specs.Records.{record_at, record_by, record_of, record_bytes, is_long, IsRecord};

use capability::{BODY_LIMIT, Body};
use eden_codec::{DecodeRefusal, EncodeRefusal, Rep, decode_rep, encode_rep};
use eden_value::{Items, Value, copy, texted};
use std::alloc::{AllocError, Global};

/// What a node keeps of an Eject.
#[derive(Drop)]
pub enum Record {
    /// It is here, with this value.
    Here {
        generation: u32,
        value: Value,
    },
    /// It is lent to a node, in whose letter this value went.
    Lent {
        generation: u32,
        to: u8,
        value: Value,
    },
    /// It has gone to a node, which has it.
    Gone {
        generation: u32,
        to: u8,
    },
}

impl Record {
    /// How often the Eject was lent before, and one.
    pub fn generation(&self) -> u32
        ensures { result ≡ generation (Some (seen_record self.now)) }
    {
        match self {
            Record::Here { generation, .. } => *generation,
            Record::Lent { generation, .. } => *generation,
            Record::Gone { generation, .. } => *generation,
        }
    }
}

const TYPE_NAME: &[u8] = b"Record";

/// The state, the generation and the other node, as values.
fn heading(alloc: Global, state: i64, generation: u32, other: u8) -> Result<Vec<Value>, AllocError>
    ensures { IfOk result (λ made. datums made.items ≡ number state ∷ int_value generation ∷ int_value other ∷ []) }
{
    let mut values = Vec::with_capacity(alloc, 4)?;
    values.push(Value::Int { n: state })?;
    values.push(Value::Int {
        n: i64::from(generation),
    })?;
    values.push(Value::Int {
        n: i64::from(other),
    })?;
    Ok(values)
}

fn values_of(alloc: Global, record: &Record) -> Result<Vec<Value>, AllocError>
    ensures { IfOk result (λ made. datums made.items ≡ record_values (seen_record «record».now)) }
{
    match record {
        Record::Here { generation, value } => {
            let mut values = heading(alloc, 0, *generation, 0)?;
            values.push(copy(alloc, value)?)?;
            Ok(values)
        }
        Record::Lent {
            generation,
            to,
            value,
        } => {
            let mut values = heading(alloc, 1, *generation, *to)?;
            values.push(copy(alloc, value)?)?;
            Ok(values)
        }
        Record::Gone { generation, to } => heading(alloc, 2, *generation, *to),
    }
}

fn rep_of(alloc: Global, record: &Record) -> Result<Rep, AllocError>
    ensures { IfOk result (λ rep. rep ≡ record_rep (seen_record «record».now)) }
{
    let values = values_of(alloc, record)?;
    let type_name = texted(Vec::from_slice(alloc, TYPE_NAME)?)?;
    Ok(Rep {
        type_name,
        version: 1,
        values: Items { values },
    })
}

/// The bytes of a record.
pub fn bytes_of(alloc: Global, record: &Record) -> Result<Body, EncodeRefusal>
    // They spell the record, where its numbers and its value are within their limits.
    ensures spells { IsRecord (seen_record «record».now) → IfOk result (λ body. record_in body ≡ Some (seen_record «record».now)) }
    ensures bytes { IfOk result (λ body. body ≡ record_bytes (seen_record «record».now)) }
    ensures limit { IfOk result (λ body. length body ≤ BODY_LIMIT) }
    ensures short { IfOk result (λ _. is_long (seen_record «record».now) ≡ Bool.false) }
    ensures too_large { result ≡ Err TooLarge → is_long (seen_record «record».now) ≡ Bool.true }
{
    match rep_of(alloc, record) {
        Ok(rep) => encode_rep(alloc, &rep),
        Err(_) => Err(EncodeRefusal::OutOfMemory),
    }
}

/// The first of values, where it is an integer, and the rest.
fn int_first(values: &[Value]) -> Option<(i64, &[Value])>
    ensures { option_map (λ p. (p.0, datums p.1.now)) result ≡ int_first (datums values.now) }
{
    match values {
        [Value::Int { n }, rest @ ..] => Some((*n, rest)),
        _ => None,
    }
}

/// The one value of a row of one.
fn only(values: &[Value]) -> Option<&Value>
    ensures { option_map (λ v. datum v.now) result ≡ only_one (datums values.now) }
{
    match values {
        [value] => Some(value),
        _ => None,
    }
}

/// The record that ends in these values, by its state.
fn record_at(
    alloc: Global,
    state: u32,
    generation: u32,
    to: u8,
    values: &[Value],
) -> Result<Option<Record>, AllocError>
    ensures { IfOk result (λ found. option_map seen_record found ≡ record_at state generation to (datums values.now)) }
{
    match state {
        0 => match only(values) {
            Some(value) => Ok(Some(Record::Here {
                generation,
                value: copy(alloc, value)?,
            })),
            None => Ok(None),
        },
        1 => match only(values) {
            Some(value) => Ok(Some(Record::Lent {
                generation,
                to,
                value: copy(alloc, value)?,
            })),
            None => Ok(None),
        },
        2 => {
            if values.is_empty() {
                Ok(Some(Record::Gone { generation, to }))
            } else {
                Ok(None)
            }
        }
        _ => Ok(None),
    }
}

fn record_with(alloc: Global, values: &[Value]) -> Result<Option<Record>, AllocError>
    ensures { IfOk result (λ found. option_map seen_record found ≡ record_by (datums values.now)) }
{
    let Some((state, values)) = int_first(values) else {
        return Ok(None);
    };
    let Some((generation, values)) = int_first(values) else {
        return Ok(None);
    };
    let Some((other, values)) = int_first(values) else {
        return Ok(None);
    };
    if state < 0
        || state > 2
        || generation < 1
        || generation > 4_294_967_295
        || other < 0
        || other > 8
    {
        return Ok(None);
    }
    record_at(alloc, state as u32, generation as u32, other as u8, values)
}

fn record_of_rep(alloc: Global, rep: &Rep) -> Result<Option<Record>, AllocError>
    ensures { IfOk result (λ found. option_map seen_record found ≡ record_of (Some rep.now)) }
{
    let name = &rep.type_name;
    let values = &rep.values;
    if name.as_slice() != TYPE_NAME || rep.version != 1 {
        return Ok(None);
    }
    record_with(alloc, &values.values)
}

/// The record that the bytes spell, if they spell one.
pub fn record_of(alloc: Global, bytes: &[u8]) -> Result<Option<Record>, AllocError>
    ensures read { IfOk result (λ found. option_map seen_record found ≡ record_in bytes.now) }
    // Its numbers and its value are within their limits.
    ensures fits { IfOk result (λ found. IfSome found (λ r. IsRecord (seen_record r))) }
{
    match decode_rep(alloc, bytes) {
        Ok(rep) => record_of_rep(alloc, &rep),
        Err(DecodeRefusal::TooLarge) => Ok(None),
        Err(DecodeRefusal::NotRep { place: _ }) => Ok(None),
        Err(DecodeRefusal::OutOfMemory) => Err(AllocError),
    }
}
