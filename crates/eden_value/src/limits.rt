//! Texts and lists within their limits.
ghost use Rattle.std.specs.Prelude.{◌≡◌, ◌≢◌, ◌↔◌, ◌≤◌, ◌<◌, length, nat_le, IfOk, IsTrue, IsFalse};
ghost use Rattle.std.specs.List.{list_all};
ghost use Rattle.eden_value.specs.View.{datum, datums, list_value};
ghost use Rattle.eden_value.specs.Bytes.{is_printable};
ghost use Rattle.eden_value.specs.Limits.{IsText, depth, depth_of};

use crate::bytes::is_printable;
use crate::shared::{listed, texted};
use crate::value::{DEPTH_LIMIT, LIST_LIMIT, TEXT_LIMIT, Txt, Value, ValueRefusal};
use std::alloc::Global;

fn are_printable(bytes: &[u8]) -> bool
    ensures { result ≡ list_all is_printable bytes.now }
{
    for b in bytes {
        if !is_printable(*b) {
            return false;
        }
    }
    true
}

/// The text of these bytes.
///
/// A byte outside 0x20 to 0x7E is found first, then a length past `TEXT_LIMIT`.
pub fn text_of(alloc: Global, bytes: &[u8]) -> Result<Txt, ValueRefusal>
    ensures ok { IfOk result (λ text. text ≡ bytes.now) }
    ensures within_limits { IfOk result IsText }
    ensures bad_byte { (result ≡ Err ValueRefusal.BadByte) ↔ IsFalse (list_all is_printable bytes.now) }
    ensures too_long { (result ≡ Err ValueRefusal.TooLong)
        ↔ (IsTrue (list_all is_printable bytes.now) × (TEXT_LIMIT < length bytes.now)) }
    ensures not_too_deep { result ≢ Err ValueRefusal.TooDeep }
{
    if !are_printable(bytes) {
        return Err(ValueRefusal::BadByte);
    }
    if bytes.len() > TEXT_LIMIT {
        return Err(ValueRefusal::TooLong);
    }
    let Ok(bytes) = Vec::from_slice(alloc, bytes) else {
        return Err(ValueRefusal::OutOfMemory);
    };
    match texted(bytes) {
        Ok(text) => Ok(text),
        Err(_) => Err(ValueRefusal::OutOfMemory),
    }
}

/// Whether lists nest at most `most` deep in a value.
pub fn is_shallow(value: &Value, most: u8) -> bool
    ensures { result ≡ nat_le (depth (datum value.now)) most }
{
    match value {
        Value::List { items } => items.depth < most,
        _ => true,
    }
}

/// Whether lists nest at most `most` deep in each of these values.
pub fn are_shallow(values: &[Value], most: u8) -> bool
    ensures { result ≡ nat_le (depth_of (datums values.now)) most }
{
    for value in values {
        if !is_shallow(value, most) {
            return false;
        }
    }
    true
}

/// The list of these values.
///
/// A number of values past `LIST_LIMIT` is found first, then a depth past `DEPTH_LIMIT`.
pub fn list_of(values: Vec<Value>) -> Result<Value, ValueRefusal>
    ensures ok { IfOk result (λ list. list ≡ list_value values.items) }
    ensures too_long { (result ≡ Err ValueRefusal.TooLong) ↔ (LIST_LIMIT < length values.items) }
    ensures too_deep { (result ≡ Err ValueRefusal.TooDeep)
        ↔ ((length values.items ≤ LIST_LIMIT) × (DEPTH_LIMIT ≤ depth_of (datums values.items))) }
    ensures no_bad_byte { result ≢ Err ValueRefusal.BadByte }
{
    if values.len() > LIST_LIMIT {
        return Err(ValueRefusal::TooLong);
    }
    if !are_shallow(&values, DEPTH_LIMIT - 1) {
        return Err(ValueRefusal::TooDeep);
    }
    match listed(values) {
        Ok(items) => Ok(Value::List { items }),
        Err(_) => Err(ValueRefusal::OutOfMemory),
    }
}
