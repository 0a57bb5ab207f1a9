//! Kinds of values, as native types and declared ones have them.
ghost use Rattle.std.specs.Prelude.{◌≡◌, map};
ghost use Rattle.eden_value.specs.Shape.{shape, lists, has_shape, have_shape};
ghost use Rattle.eden_value.specs.View.{datum, datums};
ghost use Rattle.epl_syntax.specs.Kinds.{have_shapes};
ghost use Rattle.edentypes.specs.Forms.{shape_of};

use eden_value::{Kind, Value, has_kind};
use epl_syntax::ParDecl;

/// A kind of the native types.
#[derive(Clone, Copy, Debug, PartialEq, Eq)]
pub(crate) enum Plain {
    Int,
    Bool,
    Text,
    Cap,
    Texts,
    Caps,
}

/// What has a kind.
pub(crate) trait Kinded {
    ghost use Rattle.eden_value.specs.Shape.{Shape};

    ghost kind: { Self → Shape };

    /// Whether a value is of the kind.
    fn takes(&self, value: &Value) -> bool
        ensures { result ≡ has_shape (datum value.now) (kind self.now) };
}

fn have_kind(values: &[Value], kind: &Kind) -> bool
    ensures { result ≡ have_shape (datums values.now) (shape kind.now) }
{
    for value in values {
        if !has_kind(value, kind) {
            return false;
        }
    }
    true
}

/// Whether a value is a list of values of a kind.
fn is_list_of(value: &Value, kind: &Kind) -> bool
    ensures { result ≡ has_shape (datum value.now) (lists (shape kind.now)) }
{
    match value {
        Value::List { items } => have_kind(items.as_slice(), kind),
        _ => false,
    }
}

impl Kinded for Plain {
    ghost kind = { shape_of };

    fn takes(&self, value: &Value) -> bool {
        match self {
            Plain::Int => has_kind(value, &Kind::Int),
            Plain::Bool => has_kind(value, &Kind::Bool),
            Plain::Text => has_kind(value, &Kind::Text),
            Plain::Cap => has_kind(value, &Kind::Cap),
            Plain::Texts => is_list_of(value, &Kind::Text),
            Plain::Caps => is_list_of(value, &Kind::Cap),
        }
    }
}

impl Kinded for ParDecl {
    ghost kind = { λ p. shape p.kind.kind };

    fn takes(&self, value: &Value) -> bool {
        has_kind(value, &self.kind.kind)
    }
}

/// Whether there are as many values as kinds, and each value is of its kind.
pub(crate) fn have_kinds<K: Kinded>(values: &[Value], kinds: &[K]) -> bool
    ensures { result ≡ have_shapes (datums values.now) (map K.kind kinds.now) }
{
    let mut rest = values;
    for kind in kinds {
        let Some((value, others)) = rest.split_first() else {
            return false;
        };
        if !kind.takes(value) {
            return false;
        }
        rest = others;
    }
    rest.is_empty()
}
