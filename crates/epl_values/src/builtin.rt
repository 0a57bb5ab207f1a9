//! What built-in functions give of values.
ghost use Rattle.std.specs.Prelude.{◌≡◌, ◌≢◌, ℕ, ◌∷◌, [], length, IfSome, IfNone};
ghost use Rattle.eden_value.specs.Datum.{list, number, data_of};
ghost use Rattle.eden_value.specs.View.{datum, datums};
ghost use Rattle.epl_syntax.specs.declared.tree.Builtin.TheVariants as builtin;
ghost use Rattle.epl_syntax.specs.Operators as meaning;
ghost use Rattle.epl_values.specs.Comes.{Comes};

use crate::operator::list_of;
use crate::stop::Stop;
use capability::{Cap, Rights, restrict};
use eden_value::{Listed, Value, share, texted};
use epl_syntax::{Builtin, FaultCause};
use itoa::Buffer;
use std::alloc::Global;

/// The place in so many items that a number points at.
fn place_in(size: usize, n: i64) -> Result<usize, Stop>
    ensures { Comes (λ (i : ℕ). i) result (meaning.place_in size n) }
{
    if n < 0 || n as u64 >= size as u64 {
        return Err(Stop::Fault {
            cause: FaultCause::BadIndex,
        });
    }
    Ok(n as usize)
}

/// The item of a list at a place.
#[tactic(auto, using(crate::proofs::Operands::listed, crate::proofs::Operands::length_datums))]
fn item_in(items: Listed, n: i64) -> Result<Value, Stop>
    ensures { Comes datum result (meaning.item_at (list (data_of items)) (number n)) }
{
    let values = items.as_slice();
    let place = place_in(values.len(), n)?;
    Ok(share(&values[place])?)
}

/// `l[i]`: the item at a place, counted from 0.
pub(crate) fn item_at(of: Value, at: Value) -> Result<Value, Stop>
    ensures { Comes datum result (meaning.item_at (datum of) (datum at)) }
{
    match (of, at) {
        (Value::List { items }, Value::Int { n }) => item_in(items, n),
        _ => Err(Stop::Fault {
            cause: FaultCause::BadKind,
        }),
    }
}

fn size_of(value: &Value) -> Result<Value, Stop>
    ensures { Comes datum result (meaning.size_of (datum value.now)) }
{
    match value {
        Value::Text { text } => Ok(Value::Int {
            n: text.bytes.len() as i64,
        }),
        Value::List { items } => Ok(Value::Int {
            n: items.values.len() as i64,
        }),
        _ => Err(Stop::Fault {
            cause: FaultCause::BadKind,
        }),
    }
}

fn decimals(alloc: Global, value: &Value) -> Result<Value, Stop>
    ensures { Comes datum result (meaning.applied builtin.Str (datum value.now ∷ [])) }
{
    match value {
        Value::Int { n } => {
            let mut digits = Buffer::new();
            let text = texted(Vec::from_slice(alloc, digits.format(*n).as_bytes())?)?;
            Ok(Value::Text { text })
        }
        _ => Err(Stop::Fault {
            cause: FaultCause::BadKind,
        }),
    }
}

/// A list with another item at a place.
#[tactic(auto, using(crate::proofs::Operands::listed, crate::proofs::Operands::length_datums, crate::proofs::Operands::set_datums))]
fn put_in(items: Listed, n: i64, item: Value) -> Result<Value, Stop>
    ensures { Comes datum result (meaning.applied builtin.Put (list (data_of items) ∷ number n ∷ datum item ∷ [])) }
{
    let mut values = items.into_values()?;
    let place = place_in(values.len(), n)?;
    values[place] = item;
    list_of(values)
}

/// `put`, of three values.
fn put(of: Value, at: Value, item: Value) -> Result<Value, Stop>
    ensures { Comes datum result (meaning.applied builtin.Put (datum of ∷ datum at ∷ datum item ∷ [])) }
{
    match (of, at) {
        (Value::List { items }, Value::Int { n }) => put_in(items, n, item),
        _ => Err(Stop::Fault {
            cause: FaultCause::BadKind,
        }),
    }
}

/// A list without the item at a place.
#[tactic(auto, using(crate::proofs::Operands::listed, crate::proofs::Operands::length_datums))]
fn cut_of(items: Listed, n: i64) -> Result<Value, Stop>
    ensures { Comes datum result (meaning.applied builtin.Cut (list (data_of items) ∷ number n ∷ [])) }
{
    let mut values = items.into_values()?;
    let place = place_in(values.len(), n)?;
    values.remove(place);
    list_of(values)
}

/// `cut`, of two values.
fn cut(of: Value, at: Value) -> Result<Value, Stop>
    ensures { Comes datum result (meaning.applied builtin.Cut (datum of ∷ datum at ∷ [])) }
{
    match (of, at) {
        (Value::List { items }, Value::Int { n }) => cut_of(items, n),
        _ => Err(Stop::Fault {
            cause: FaultCause::BadKind,
        }),
    }
}

/// So many bytes of a text, from a place on, all of which have to be there.
fn part_of(alloc: Global, bytes: &[u8], from: i64, count: i64) -> Result<Value, Stop>
    ensures { Comes datum result (meaning.part_of bytes.now from count) }
{
    if from < 0 || count < 0 || from as u64 + count as u64 > bytes.len() as u64 {
        return Err(Stop::Fault {
            cause: FaultCause::BadIndex,
        });
    }
    let from = from as usize;
    let text = texted(Vec::from_slice(alloc, &bytes[from..from + count as usize])?)?;
    Ok(Value::Text { text })
}

/// `part`, of the bytes of a text.
fn part(alloc: Global, of: &Value, from: &Value, count: &Value) -> Result<Value, Stop>
    ensures { Comes datum result (meaning.applied builtin.Part (datum of.now ∷ datum from.now ∷ datum count.now ∷ [])) }
{
    match (of, from, count) {
        (Value::Text { text }, Value::Int { n: from }, Value::Int { n: count }) => {
            part_of(alloc, text.as_slice(), *from, *count)
        }
        _ => Err(Stop::Fault {
            cause: FaultCause::BadKind,
        }),
    }
}

/// A capability, if there is one, with the rights that are also in a mask.
fn masked(cap: Option<Cap>, mask: i64) -> Result<Value, Stop>
    ensures { Comes datum result (meaning.masked cap mask) }
{
    if mask < 0 || mask > 65535 {
        return Err(Stop::Fault {
            cause: FaultCause::BadMask,
        });
    }
    let mask = Rights { bits: mask as u16 };
    let cap = match cap {
        Some(cap) => Some(restrict(cap, mask)),
        None => None,
    };
    Ok(Value::Cap { cap })
}

/// `restrict`.
fn restricted(of: &Value, mask: &Value) -> Result<Value, Stop>
    ensures { Comes datum result (meaning.applied builtin.Restrict (datum of.now ∷ datum mask.now ∷ [])) }
{
    match (of, mask) {
        (Value::Cap { cap }, Value::Int { n }) => masked(*cap, *n),
        _ => Err(Stop::Fault {
            cause: FaultCause::BadKind,
        }),
    }
}

/// `size`, of arguments.
fn size_applied(args: &[Value]) -> Result<Value, Stop>
    ensures { Comes datum result (meaning.applied builtin.Size (datums args.now)) }
{
    match args {
        [value] => size_of(value),
        _ => Err(Stop::Fault {
            cause: FaultCause::BadKind,
        }),
    }
}

/// `str`, of arguments.
fn decimals_applied(alloc: Global, args: &[Value]) -> Result<Value, Stop>
    ensures { Comes datum result (meaning.applied builtin.Str (datums args.now)) }
{
    match args {
        [value] => decimals(alloc, value),
        _ => Err(Stop::Fault {
            cause: FaultCause::BadKind,
        }),
    }
}

/// `restrict`, of arguments.
fn restrict_applied(args: &[Value]) -> Result<Value, Stop>
    ensures { Comes datum result (meaning.applied builtin.Restrict (datums args.now)) }
{
    match args {
        [of, mask] => restricted(of, mask),
        _ => Err(Stop::Fault {
            cause: FaultCause::BadKind,
        }),
    }
}

/// `part`, of arguments.
fn part_applied(alloc: Global, args: &[Value]) -> Result<Value, Stop>
    ensures { Comes datum result (meaning.applied builtin.Part (datums args.now)) }
{
    match args {
        [of, from, count] => part(alloc, of, from, count),
        _ => Err(Stop::Fault {
            cause: FaultCause::BadKind,
        }),
    }
}

/// The two values of a list that has two.
fn two(values: Vec<Value>) -> Option<(Value, Value)>
    ensures some { IfSome result (λ p. values.items ≡ p.0 ∷ p.1 ∷ []) }
    ensures none { IfNone result (length values.items ≢ 2) }
{
    let mut values = values;
    if values.len() != 2 {
        return None;
    }
    let second = values.pop()?;
    let first = values.pop()?;
    Some((first, second))
}

/// The three values of a list that has three.
fn three(values: Vec<Value>) -> Option<(Value, Value, Value)>
    ensures some { IfSome result (λ p. values.items ≡ p.0 ∷ p.1 ∷ p.2 ∷ []) }
    ensures none { IfNone result (length values.items ≢ 3) }
{
    let mut values = values;
    if values.len() != 3 {
        return None;
    }
    let third = values.pop()?;
    let second = values.pop()?;
    let first = values.pop()?;
    Some((first, second, third))
}

/// `cut`, of arguments.
#[tactic(auto, using(crate::proofs::Applied::cut_wrong))]
fn cut_applied(args: Vec<Value>) -> Result<Value, Stop>
    ensures { Comes datum result (meaning.applied builtin.Cut (datums args.items)) }
{
    match two(args) {
        Some((of, at)) => cut(of, at),
        None => Err(Stop::Fault {
            cause: FaultCause::BadKind,
        }),
    }
}

/// `put`, of arguments.
#[tactic(auto, using(crate::proofs::Applied::put_wrong))]
fn put_applied(args: Vec<Value>) -> Result<Value, Stop>
    ensures { Comes datum result (meaning.applied builtin.Put (datums args.items)) }
{
    match three(args) {
        Some((of, at, item)) => put(of, at, item),
        None => Err(Stop::Fault {
            cause: FaultCause::BadKind,
        }),
    }
}

/// A built-in function of its arguments.
pub(crate) fn applied(alloc: Global, builtin: Builtin, args: Vec<Value>) -> Result<Value, Stop>
    ensures { Comes datum result (meaning.applied builtin (datums args.items)) }
{
    match builtin {
        Builtin::Size => size_applied(&args),
        Builtin::Str => decimals_applied(alloc, &args),
        Builtin::Put => put_applied(args),
        Builtin::Cut => cut_applied(args),
        Builtin::Part => part_applied(alloc, &args),
        Builtin::Restrict => restrict_applied(&args),
    }
}
