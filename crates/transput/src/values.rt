//! The values of an Eject, by their places. A value of another kind, or none, counts as the least of the kind.
ghost use Rattle.std.specs.Prelude.{◌≡◌, [], drop, take, codes, IfOk};
ghost use Rattle.eden_value.specs.View.{datum, datums};
ghost use Rattle.eden_value.specs.Datum.{text};
ghost use Rattle.epl_syntax.specs.Simple.{argument, number_in, truth_in, text_in, cap_in, items_in};

use capability::Cap;
use eden_value::{Items, Txt, Value, copy_items, texted};
use std::alloc::{AllocError, Global};
use std::mem;

/// No values.
pub fn no_items(alloc: Global) -> Items
    ensures { result ≡ [] }
{
    Items {
        values: Vec::new(alloc),
    }
}

/// The empty text.
pub fn no_text(alloc: Global) -> Result<Value, AllocError>
    ensures { IfOk result (λ value. datum value ≡ text []) }
{
    let text = texted(Vec::new(alloc))?;
    Ok(Value::Text { text })
}

/// The number at a place, 0 where none stands there.
pub fn number_at(values: &Items, place: usize) -> i64
    ensures { result ≡ number_in (argument place values.now) }
{
    match values.values.get(place) {
        Some(Value::Int { n }) => *n,
        _ => 0,
    }
}

/// The truth value at a place, false where none stands there.
pub fn truth_at(values: &Items, place: usize) -> bool
    ensures { result ≡ truth_in (argument place values.now) }
{
    match values.values.get(place) {
        Some(Value::Bool { b }) => *b,
        _ => false,
    }
}

/// The bytes of the text at a place, none where no text stands there.
pub fn text_at(values: &Items, place: usize) -> &[u8]
    ensures { result.now ≡ text_in (argument place values.now) }
{
    match values.values.get(place) {
        Some(Value::Text { text }) => text.as_slice(),
        _ => &[],
    }
}

/// The capability at a place, the absent one where none stands there.
pub fn cap_at(values: &Items, place: usize) -> Option<Cap>
    ensures { result ≡ cap_in (argument place values.now) }
{
    match values.values.get(place) {
        Some(Value::Cap { cap }) => *cap,
        _ => None,
    }
}

/// The items of a list, none where the value is no list.
fn items_of(value: &Value) -> &[Value]
    ensures { datums result.now ≡ items_in (datum value.now) }
{
    match value {
        Value::List { items } => items.as_slice(),
        _ => &[],
    }
}

/// The items of the list at a place, none where no list stands there.
pub fn items_at(values: &Items, place: usize) -> &[Value]
    ensures { datums result.now ≡ items_in (argument place values.now) }
{
    match values.values.get(place) {
        Some(value) => items_of(value),
        None => &[],
    }
}

/// The value at a place, which is taken away. Those before it stay.
pub fn take_value(values: &mut Items, place: usize) -> Value
    ensures value { datum result ≡ argument place values.old }
    ensures before { take place values.new ≡ take place values.old }
{
    match values.values.get_mut(place) {
        Some(value) => mem::replace(value, Value::Bool { b: false }),
        None => Value::Cap { cap: None },
    }
}

/// The items of the list at a place, which are taken away.
pub fn take_items(alloc: Global, values: &mut Items, place: usize) -> Result<Items, AllocError>
    ensures { IfOk result (λ items. items ≡ items_in (argument place values.old)) }
{
    match take_value(values, place) {
        Value::List { items } => Ok(Items {
            values: items.into_values()?,
        }),
        _ => Ok(no_items(alloc)),
    }
}

/// All but the first.
pub fn without_first(items: Items) -> Items
    ensures { result ≡ drop 1 items }
{
    let mut values = items.values;
    if !values.is_empty() {
        values.remove(0);
    }
    Items { values }
}

/// A copy of the items of a list, none where the value is no list.
fn copied(alloc: Global, value: &Value) -> Result<Items, AllocError>
    ensures { IfOk result (λ items. items ≡ items_in (datum value.now)) }
{
    match value {
        Value::List { items } => Ok(Items {
            values: items.share()?.into_values()?,
        }),
        _ => Ok(no_items(alloc)),
    }
}

/// A copy of the items of the list at a place, none where no list stands there.
pub fn copied_items(alloc: Global, values: &Items, place: usize) -> Result<Items, AllocError>
    ensures { IfOk result (λ items. items ≡ items_in (argument place values.now)) }
{
    match values.values.get(place) {
        Some(value) => copied(alloc, value),
        None => Ok(no_items(alloc)),
    }
}
