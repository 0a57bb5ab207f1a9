//! The arguments of a call, with values in the place of names.
ghost use Rattle.std.specs.Prelude.{◌≡◌, IfOk};
ghost use Rattle.std.specs.Option.{option_map};
ghost use Rattle.eden_value.specs.View.{datum, datums};
ghost use Rattle.journal.specs.Argument.{arguments_of};
ghost use Rattle.journal.specs.ArgumentView.{given, givens};
ghost use Rattle.journal.specs.References.{args_of, value_of, values_of};
ghost use Rattle.journal.specs.World.{World};
ghost use Rattle.shell_names.specs.Names.{NamesStand};
ghost use Rattle.shell_names.specs.Shallow.{shallow, shallow_all};

use crate::names::ShellNames;
use eden_value::{DEPTH_LIMIT, Items, Value, copy, is_shallow, listed};
use journal::{Arg, Args};
use std::alloc::{AllocError, Global};

/// The value, if lists nest at most `most` deep in it.
fn kept(found: Option<Value>, most: u8) -> Option<Value>
    ensures { option_map datum result ≡ shallow most (option_map datum found) }
{
    let value = found?;
    if is_shallow(&value, most) {
        return Some(value);
    }
    None
}

/// The value of an argument, if it has one in which lists nest at most `most` deep.
#[cycle(read)]
fn read(alloc: Global, names: &ShellNames, arg: &Arg, most: u8) -> Result<Option<Value>, AllocError>
    ensures { IfOk result (λ found. (w : World) → NamesStand names.now w
        → option_map datum found ≡ shallow most (value_of w (given arg.now))) }
{
    match arg {
        Arg::Plain { value } => {
            if !is_shallow(value, most) {
                return Ok(None);
            }
            Ok(Some(copy(alloc, value)?))
        }
        Arg::Named { by } => {
            let found = names.value(alloc, &by.name, by.result)?;
            Ok(kept(found, most))
        }
        Arg::List { items } => {
            if most == 0 {
                return Ok(None);
            }
            let values = read_all(alloc, names, &items.args, most - 1)?;
            match values {
                Some(values) => {
                    let items = listed(values)?;
                    Ok(Some(Value::List { items }))
                }
                None => Ok(None),
            }
        }
    }
}

/// The values of arguments in a row, if each has one in which lists nest at most `most` deep.
#[cycle(read)]
fn read_all(
    alloc: Global,
    names: &ShellNames,
    args: &[Arg],
    most: u8,
) -> Result<Option<Vec<Value>>, AllocError>
    ensures { IfOk result (λ found. (w : World) → NamesStand names.now w
        → option_map (λ values. datums values.items) found ≡ shallow_all most (values_of w (arguments_of (givens args.now)))) }
{
    let mut made = Vec::with_capacity(alloc, args.len())?;
    for arg in args {
        match read(alloc, names, arg, most)? {
            Some(value) => made.push(value)?,
            None => return Ok(None),
        }
    }
    Ok(Some(made))
}

impl ShellNames {
    /// The arguments of a call, with a value in the place of each name; none where a name has no value, or a list would be
    /// deeper than `DEPTH_LIMIT`.
    pub fn arguments(&self, alloc: Global, args: &Args) -> Result<Option<Items>, AllocError>
        ensures { IfOk result (λ found. (w : World) → NamesStand self.now w → found ≡ args_of w args.now) }
    {
        match read_all(alloc, self, &args.args, DEPTH_LIMIT)? {
            Some(values) => Ok(Some(Items { values })),
            None => Ok(None),
        }
    }
}
