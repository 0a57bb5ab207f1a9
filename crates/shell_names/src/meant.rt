//! What one name stands for, and its values.
ghost use Rattle.std.specs.Prelude.{◌≡◌, IfOk, None, false, option_copied, slice_get};
ghost use Rattle.std.specs.Option.{option_map};
ghost use Rattle.eden_model.specs.Map.{with_item};
ghost use Rattle.eden_value.specs.View.{datum, datums};
ghost use Rattle.journal.specs.References.{value_of_meaning, present_cap};
ghost use Rattle.journal.specs.Run.{is_zero};
ghost use Rattle.journal.specs.World.{results};
ghost use Rattle.shell_names.specs.Names.{meaning};

use capability::Cap;
use eden_value::{Items, Value, copy};
use std::alloc::{AllocError, Global};

/// What a name stands for.
#[derive(Drop)]
pub(crate) enum Meant {
    /// A capability.
    Capability { cap: Cap },
    /// The results of a call.
    Results { items: Items },
    /// Nothing: what was asked for was refused, or is not answered yet.
    Nothing,
}

fn item_at(values: &[Value], place: usize) -> Option<&Value>
    ensures { option_copied result ≡ slice_get values.now place }
{
    values.get(place)
}

/// The result of this number, counted from 1.
fn result_at(values: &[Value], k: u8) -> Option<&Value>
    ensures { option_map datum (option_copied result) ≡ value_of_meaning (results (datums values.now)) k }
{
    if k == 0 {
        return None;
    }
    item_at(values, k as usize - 1)
}

/// The value of a name alone, where `k` is 0, or of its `k`-th result.
pub(crate) fn value_in(alloc: Global, meant: &Meant, k: u8) -> Result<Option<Value>, AllocError>
    ensures { IfOk result (λ found. option_map datum found ≡ value_of_meaning (meaning meant.now) k) }
{
    match meant {
        Meant::Capability { cap } => {
            if k == 0 {
                return Ok(Some(Value::Cap { cap: Some(*cap) }));
            }
            Ok(None)
        }
        Meant::Results { items } => match result_at(&items.values, k) {
            Some(value) => Ok(Some(copy(alloc, value)?)),
            None => Ok(None),
        },
        Meant::Nothing => Ok(None),
    }
}

/// The capability that this value is, if it is one that is present.
pub(crate) fn cap_in(meant: &Meant, k: u8) -> Option<Cap>
    ensures { result ≡ with_item (value_of_meaning (meaning meant.now) k) present_cap None }
{
    match meant {
        Meant::Capability { cap } => {
            if k == 0 {
                return Some(*cap);
            }
            None
        }
        Meant::Results { items } => match result_at(&items.values, k) {
            Some(Value::Cap { cap }) => *cap,
            _ => None,
        },
        Meant::Nothing => None,
    }
}

/// Whether the first result is the number 0.
pub(crate) fn first_is_zero(meant: &Meant) -> bool
    ensures { result ≡ with_item (value_of_meaning (meaning meant.now) 1) is_zero false }
{
    match meant {
        Meant::Results { items } => match items.values.first() {
            Some(Value::Int { n }) => *n == 0,
            _ => false,
        },
        _ => false,
    }
}
