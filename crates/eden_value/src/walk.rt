//! Copies, capabilities and comparison of values.
ghost use Rattle.std.specs.Prelude.{◌≡◌, ◌↔◌, ◌++◌, IsTrue, IfOk, OnOk};
ghost use Rattle.eden_value.specs.View.{datum, datums};
ghost use Rattle.eden_value.specs.Caps as held;

use crate::value::{Items, Value};
use capability::Cap;
use std::alloc::{AllocError, Global};

/// A value equal to this one. A text or a list takes no memory: it is shared.
pub fn share(value: &Value) -> Result<Value, AllocError>
    ensures { IfOk result (λ v. v ≡ value.now) }
{
    match value {
        Value::Int { n } => Ok(Value::Int { n: *n }),
        Value::Bool { b } => Ok(Value::Bool { b: *b }),
        Value::Text { text } => {
            let text = text.share()?;
            Ok(Value::Text { text })
        }
        Value::Cap { cap } => Ok(Value::Cap { cap: *cap }),
        Value::List { items } => {
            let items = items.share()?;
            Ok(Value::List { items })
        }
    }
}

/// A value equal to this one. A text or a list takes no memory: it is shared.
pub fn copy(_alloc: Global, value: &Value) -> Result<Value, AllocError>
    ensures { IfOk result (λ v. v ≡ value.now) }
{
    share(value)
}

/// The same values in a row.
pub(crate) fn copies(alloc: Global, values: &[Value]) -> Result<Vec<Value>, AllocError>
    ensures { IfOk result (λ v. v.items ≡ values.now) }
{
    let mut made = Vec::with_capacity(alloc, values.len())?;
    for value in values {
        made.push(share(value)?)?;
    }
    Ok(made)
}

/// The same values in a row, in the memory of the row and no more.
pub fn copy_items(alloc: Global, items: &Items) -> Result<Items, AllocError>
    ensures { IfOk result (λ copied. copied ≡ items.now) }
{
    let values = copies(alloc, &items.values)?;
    Ok(Items { values })
}

#[cycle(add_caps)]
fn add_caps(value: &Value, found: &mut Vec<Cap>) -> Result<(), AllocError>
    ensures { OnOk result (found.new.items ≡ found.old.items ++ held.caps (datum value.now)) }
{
    match value {
        Value::Cap { cap: Some(cap) } => found.push(*cap)?,
        Value::List { items } => add_all_caps(items.values.as_slice(), found)?,
        _ => {}
    }
    Ok(())
}

#[cycle(add_caps)]
fn add_all_caps(values: &[Value], found: &mut Vec<Cap>) -> Result<(), AllocError>
    ensures { OnOk result (found.new.items ≡ found.old.items ++ held.caps_of (datums values.now)) }
{
    for value in values {
        add_caps(value, found)?;
    }
    Ok(())
}

/// The capabilities that are present in a value, from left to right.
pub fn caps(alloc: Global, value: &Value) -> Result<Vec<Cap>, AllocError>
    ensures { IfOk result (λ v. v.items ≡ held.caps (datum value.now)) }
{
    let mut found = Vec::new(alloc);
    add_caps(value, &mut found)?;
    Ok(found)
}

/// Whether two values are the same.
#[cycle(equal)]
pub fn equal(a: &Value, b: &Value) -> bool
    ensures { IsTrue result ↔ (a.now ≡ b.now) }
{
    match (a, b) {
        (Value::Int { n }, Value::Int { n: m }) => *n == *m,
        (Value::Bool { b: c }, Value::Bool { b: d }) => *c == *d,
        (Value::Text { text: s }, Value::Text { text: t }) => s.as_slice() == t.as_slice(),
        (Value::Cap { cap: c }, Value::Cap { cap: d }) => *c == *d,
        (Value::List { items: x }, Value::List { items: y }) => are_equal(
            x.values.as_slice(),
            y.values.as_slice(),
        ),
        _ => false,
    }
}

#[cycle(equal)]
fn are_equal(a: &[Value], b: &[Value]) -> bool
    ensures { IsTrue result ↔ (a.now ≡ b.now) }
{
    if a.len() != b.len() {
        return false;
    }
    for i in 0..a.len() {
        if !equal(&a[i], &b[i]) {
            return false;
        }
    }
    true
}
