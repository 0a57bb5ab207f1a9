//! The condition on stored values.
ghost use Rattle.std.specs.Prelude.{◌≡◌};
ghost use Rattle.std.specs.List.{list_any};
ghost use Rattle.eden_value.specs.View.{datum, datums};
ghost use Rattle.epl_syntax.specs.declared.types.Native.TheVariants as types;
ghost use Rattle.epl_syntax.specs.Directory as directory;
ghost use Rattle.epl_syntax.specs.Natives.{native_condition};
ghost use Rattle.epl_syntax.specs.Same.{same};
ghost use Rattle.epl_syntax.specs.Simple as simple;

use eden_value::{Items, Value, equal};

fn items_in(value: &Value) -> &[Value]
    ensures { datums result.now ≡ simple.items_in (datum value.now) }
{
    match value {
        Value::List { items } => items.as_slice(),
        _ => &[],
    }
}

/// The items of the list that stands at a place, none where no list does.
pub(crate) fn items_at(values: &[Value], place: usize) -> &[Value]
    ensures { datums result.now ≡ simple.items_in (simple.argument place (datums values.now)) }
{
    match values.get(place) {
        Some(value) => items_in(value),
        None => &[],
    }
}

fn has(values: &[Value], value: &Value) -> bool
    ensures { result ≡ list_any (same (datum value.now)) (datums values.now) }
{
    for other in values {
        if equal(value, other) {
            return true;
        }
    }
    false
}

fn all_differ(values: &[Value]) -> bool
    ensures { result ≡ directory.all_differ (datums values.now) }
{
    for i in 0..values.len() {
        if has(&values[i + 1..], &values[i]) {
            return false;
        }
    }
    true
}

/// Whether stored values meet the condition of the type: as many capabilities as names, and no name twice.
pub fn native_start(durable: &Items) -> bool
    ensures { result ≡ native_condition types.Directory durable.now }
{
    let names = items_at(&durable.values, 0);
    let held = items_at(&durable.values, 1);
    names.len() == held.len() && all_differ(names)
}
