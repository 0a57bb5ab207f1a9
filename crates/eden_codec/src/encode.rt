//! A representation written as bytes.
ghost use Rattle.std.specs.Prelude.{◌≡◌, ◌↔◌, ◌<◌, ◌≤◌, ◌++◌, min, length, FitsSigned, OnOk, IfOk};
ghost use Rattle.std.specs.Int.{w64, bytes_high_first};
ghost use mir.Val.{of_z};
ghost use Rattle.eden_value.specs.Datum.{cap as option_datum};
ghost use Rattle.eden_value.specs.View.{datum, datums};
ghost use Rattle.eden_value.specs.Range.{CapInRange, InRange, AllInRange};
ghost use Rattle.eden_codec.specs.declared.encode.EncodeRefusal.TheVariants.{OutOfMemory};
ghost use Rattle.eden_codec.specs.Form.{IsRep, RepInRange};
ghost use Rattle.eden_codec.specs.Spells.{SpellsRep};
ghost use Rattle.eden_codec.specs.Spelling as spelled;

use crate::rep::Rep;
use crate::size::values_size;
use crate::tag;
use capability::{BODY_LIMIT, Body, Cap, Seq};
use eden_value::Value;
use std::alloc::{AllocError, Global};

/// Why a representation was not written.
#[derive(Drop)]
pub enum EncodeRefusal {
    /// Its spelling has more than `BODY_LIMIT` bytes.
    TooLarge,
    OutOfMemory,
}

impl From<AllocError> for EncodeRefusal {
    ghost from_gives = { λ _ e. e ≡ OutOfMemory };

    fn from(_e: AllocError) -> EncodeRefusal {
        EncodeRefusal::OutOfMemory
    }
}

fn add_cap(cap: Cap, out: &mut Vec<u8>) -> Result<(), AllocError>
    ensures spelled { OnOk result (out.new.items ≡ out.old.items ++ spelled.cap_spelling cap) }
    ensures range { CapInRange cap }
{
    out.extend_from_slice(&cap.uid.node.to_be_bytes())?;
    out.extend_from_slice(&cap.uid.epoch.to_be_bytes())?;
    out.extend_from_slice(&cap.uid.serial.to_be_bytes())?;
    out.extend_from_slice(&cap.rights.bits.to_be_bytes())?;
    Ok(())
}

fn add_option(cap: Option<Cap>, out: &mut Vec<u8>) -> Result<(), AllocError>
    ensures spelled { OnOk result (out.new.items ≡ out.old.items ++ spelled.option_spelling cap) }
    ensures range { OnOk result (InRange (option_datum cap)) }
{
    let Some(cap) = cap else {
        out.push(tag::ABSENT_CAP)?;
        return Ok(());
    };
    out.push(tag::CAP)?;
    add_cap(cap, out)?;
    Ok(())
}

/// The two lowest bytes of a length.
fn add_length(length: usize, out: &mut Vec<u8>) -> Result<(), AllocError>
    ensures { OnOk result (out.new.items ≡ out.old.items ++ bytes_high_first 2 length) }
{
    out.extend_from_slice(&[(length / 256 % 256) as u8, (length % 256) as u8])?;
    Ok(())
}

fn add_text(text: &[u8], out: &mut Vec<u8>) -> Result<(), AllocError>
    ensures { OnOk result (out.new.items ≡ out.old.items ++ spelled.text_spelling text.now) }
{
    add_length(text.len(), out)?;
    out.extend_from_slice(text)?;
    Ok(())
}

fn add_int(n: i64, out: &mut Vec<u8>) -> Result<(), AllocError>
    ensures spelled { OnOk result (out.new.items ≡ out.old.items ++ bytes_high_first 8 (of_z w64 n)) }
    ensures range { FitsSigned w64 n }
{
    out.extend_from_slice(&n.cast_unsigned().to_be_bytes())?;
    Ok(())
}

#[cycle(encode)]
fn add_value(value: &Value, out: &mut Vec<u8>) -> Result<(), AllocError>
    ensures spelled { OnOk result (out.new.items ≡ out.old.items ++ spelled.value_spelling (datum value.now)) }
    ensures range { OnOk result (InRange (datum value.now)) }
{
    match value {
        Value::Int { n } => {
            out.push(tag::INT)?;
            add_int(*n, out)
        }
        Value::Bool { b } => out.extend_from_slice(&[tag::BOOL, u8::from(*b)]),
        Value::Text { text } => {
            out.push(tag::TEXT)?;
            add_text(text.as_slice(), out)
        }
        Value::Cap { cap } => add_option(*cap, out),
        Value::List { items } => {
            out.push(tag::LIST)?;
            add_length(items.values.len(), out)?;
            add_values(items.values.as_slice(), out)?;
            Ok(())
        }
    }
}

#[cycle(encode)]
fn add_values(values: &[Value], out: &mut Vec<u8>) -> Result<(), AllocError>
    ensures spelled { OnOk result (out.new.items ≡ out.old.items ++ spelled.values_spelling (datums values.now)) }
    ensures range { OnOk result (AllInRange (datums values.now)) }
{
    for value in values {
        add_value(value, out)?;
    }
    Ok(())
}

fn add_name(name: &[u8], out: &mut Vec<u8>) -> Result<(), AllocError>
    ensures { OnOk result (out.new.items ≡ out.old.items ++ spelled.name_spelling name.now) }
{
    out.push((name.len() % 256) as u8)?;
    out.extend_from_slice(name)?;
    Ok(())
}

fn add_row(values: &[Value], out: &mut Vec<u8>) -> Result<(), AllocError>
    ensures spelled { OnOk result (out.new.items ≡ out.old.items ++ spelled.row_spelling (datums values.now)) }
    ensures range { OnOk result (AllInRange (datums values.now)) }
{
    out.push((values.len() % 256) as u8)?;
    add_values(values, out)?;
    Ok(())
}

/// The first byte of each representation.
const FORMAT: u8 = 1;

fn add_rep(rep: &Rep, out: &mut Vec<u8>) -> Result<(), AllocError>
    ensures spelled { OnOk result (out.new.items ≡ out.old.items ++ spelled.spelling rep.now) }
    ensures range { OnOk result (RepInRange rep.now) }
{
    let name = &rep.type_name;
    let values = &rep.values;
    out.push(FORMAT)?;
    add_name(name.as_slice(), out)?;
    out.extend_from_slice(&rep.version.to_be_bytes())?;
    add_row(&values.values, out)?;
    Ok(())
}

/// The length of the spelling, or 2^64 - 1 where it is past that.
fn rep_size(rep: &Rep) -> u64
    ensures { result ≡ min (length (spelled.spelling rep.now)) u64.MAX }
{
    let name = &rep.type_name;
    // A byte before the name, its length, the version and the number of values.
    let around = (name.bytes.len() as u64).saturating_add(5);
    values_size(&rep.values).saturating_add(around)
}

/// The bytes that spell a representation.
///
/// A length past the limit is told before any memory is taken. Else the memory of all the bytes is taken at once. What
/// is no representation, as a name too long, has bytes too, but they spell none.
pub fn encode_rep(alloc: Global, rep: &Rep) -> Result<Body, EncodeRefusal>
    ensures ok { IsRep rep.now → IfOk result (λ body. SpellsRep body rep.now) }
    ensures spelled { IfOk result (λ body. body ≡ spelled.spelling rep.now) }
    ensures within_limit { IfOk result (λ body. length body ≤ BODY_LIMIT) }
    ensures too_large { (result ≡ Err EncodeRefusal.TooLarge) ↔ (BODY_LIMIT < length (spelled.spelling rep.now)) }
{
    let size = rep_size(rep);
    if size > u64::from(BODY_LIMIT) {
        return Err(EncodeRefusal::TooLarge);
    }
    let mut bytes = Vec::with_capacity(alloc, size as usize)?;
    add_rep(rep, &mut bytes)?;
    Ok(Seq { items: bytes })
}
