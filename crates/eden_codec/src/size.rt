//! How many bytes values take in a message.
ghost use Rattle.std.specs.Prelude.{◌≡◌, min, length};
ghost use Rattle.eden_value.specs.View.{datum, datums};
ghost use Rattle.eden_codec.specs.Spelling as spelled;

use eden_value::{Items, Value};

#[cycle(size)]
fn value_size(value: &Value) -> u64
    ensures { result ≡ min (length (spelled.value_spelling (datum value.now))) u64.MAX }
{
    match value {
        Value::Int { .. } => 9,
        Value::Bool { .. } => 2,
        Value::Text { text } => (text.bytes.len() as u64).saturating_add(3),
        Value::Cap { cap: None } => 1,
        Value::Cap { cap: Some(_) } => 12,
        Value::List { items } => row_size(items.values.as_slice()).saturating_add(3),
    }
}

#[cycle(size)]
fn row_size(values: &[Value]) -> u64
    ensures { result ≡ min (spelled.values_size (datums values.now)) u64.MAX }
{
    let mut total = 0u64;
    for value in values {
        total = total.saturating_add(value_size(value));
    }
    total
}

/// The sum of the lengths of the values' spellings, or 2^64 - 1 where the sum is past that.
pub fn values_size(values: &Items) -> u64
    ensures { result ≡ min (spelled.values_size values.now) u64.MAX }
{
    row_size(&values.values)
}
