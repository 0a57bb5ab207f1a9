//! A value that stands alone.

ghost use Rattle.std.specs.Prelude.{◌≡◌, IfOk, map, Ok, Err};
ghost use Rattle.std.specs.Option.{option_map};
ghost use Rattle.eden_value.specs.View.{datum, datums};
ghost use Rattle.eden_value.specs.Datum.{data_of, items_of};
ghost use Rattle.script_words.specs.Alone.{IsReading};
ghost use Rattle.script_words.specs.Reading.{read_alone};
ghost use Rattle.script_words.specs.Tree.{row_of};
ghost use Rattle.script_words.specs.View.{Gives, written, value_in};

use crate::cause::ScriptCause;
use crate::reader::{Fault, end};
use crate::value::{in_range, value};
use eden_value::{DEPTH_LIMIT, Value, copy, listed};
use journal::Arg;
use std::alloc::{AllocError, Global};

/// The value that an argument without names is. (A name would stand for the absent capability.)
#[cycle(alone)]
fn value_of(alloc: Global, arg: &Arg) -> Result<Value, AllocError>
    ensures { IfOk result (λ v. datum v ≡ value_in (written arg.now)) }
{
    match arg {
        Arg::Plain { value } => copy(alloc, value),
        Arg::Named { .. } => Ok(Value::Cap { cap: None }),
        Arg::List { items } => {
            let values = values_of(alloc, &items.args)?;
            let items = listed(values)?;
            Ok(Value::List { items })
        }
    }
}

#[cycle(alone)]
fn values_of(alloc: Global, args: &[Arg]) -> Result<Vec<Value>, AllocError>
    ensures { IfOk result (λ v. datums v.items ≡ map value_in (map written args.now)) }
{
    let mut values = Vec::new(alloc);
    for arg in args {
        values.push(value_of(alloc, arg)?)?;
    }
    Ok(values)
}

fn alone(alloc: Global, text: &[u8]) -> Result<Arg, Fault>
    ensures { Gives written result (read_alone text.now) }
{
    let (found, rest) = value(alloc, false, DEPTH_LIMIT, text)?;
    end(rest)?;
    in_range(found)
}

/// The value that the bytes are, with no name in it, as the arguments of a call are written; else `BadForm`, or
/// `BadNumber` where a number in it is out of its range.
pub fn read_value(alloc: Global, text: &[u8]) -> Result<Result<Value, ScriptCause>, AllocError>
    ensures { IfOk result (IsReading text.now) }
{
    match alone(alloc, text) {
        Ok(arg) => Ok(Ok(value_of(alloc, &arg)?)),
        Err(Fault::Bad { cause }) => Ok(Err(cause)),
        Err(Fault::Memory) => Err(AllocError),
    }
}
