//! Kinds of values.
ghost use Rattle.std.specs.Prelude.{◌≡◌};
ghost use Rattle.eden_value.specs.View.{datum, datums};
ghost use Rattle.eden_value.specs.Shape.{shape, has_shape, have_shape};

use crate::value::Value;

/// What a variable, an argument or a result may hold. Contracts see it as its `shape`.
#[derive(Drop)]
pub enum Kind {
    Int,
    Bool,
    Text,
    Cap,
    List { of: Box<Kind> },
}

/// Whether a value is of a kind. The absent capability is of the kind of capabilities, and an empty
/// list is of every list kind.
#[cycle(has_kind)]
pub fn has_kind(value: &Value, kind: &Kind) -> bool
    ensures { result ≡ has_shape (datum value.now) (shape kind.now) }
{
    match (value, kind) {
        (Value::Int { .. }, Kind::Int) => true,
        (Value::Bool { .. }, Kind::Bool) => true,
        (Value::Text { .. }, Kind::Text) => true,
        (Value::Cap { .. }, Kind::Cap) => true,
        (Value::List { items }, Kind::List { of }) => have_kind(items.values.as_slice(), of),
        _ => false,
    }
}

#[cycle(has_kind)]
fn have_kind(values: &[Value], kind: &Kind) -> bool
    ensures { result ≡ have_shape (datums values.now) (shape kind.now) }
{
    for value in values {
        if !has_kind(value, kind) {
            return false;
        }
    }
    true
}
