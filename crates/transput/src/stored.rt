//! Stored values: those of the durable variables, which are all but the last.
ghost use Rattle.std.specs.Prelude.{◌≡◌, true, IfOk, length};
ghost use Rattle.epl_syntax.specs.Kinds.{have_shapes};
ghost use Rattle.epl_syntax.specs.Outline.{kinds_kept, only_kept, with_kept};
ghost use Rattle.epl_syntax.specs.Natives as natives;
ghost use Rattle.transput.specs.View.{native_of};

use crate::filter::counts_fit;
use crate::rule::Rule;
use crate::stream::Stream;
use eden_value::{Items, Value, copy_items};
use std::alloc::{AllocError, Global};

/// How many durable variables a type has.
fn durable_count(stream: Stream) -> usize
    ensures { result ≡ length (kinds_kept (natives.native_outline (native_of stream)).slots) }
{
    match stream {
        Stream::Lines => 2,
        Stream::Take => 5,
        Stream::Skip => 5,
        Stream::Only => 5,
        Stream::Number => 4,
        Stream::Sink => 2,
    }
}

/// Whether stored values of the kinds of the type's durable variables are those of an Eject of the type.
pub fn native_start(stream: Stream, durable: &Items) -> bool
    ensures { result ≡ natives.native_condition (native_of stream) durable.now }
{
    match stream {
        Stream::Lines => true,
        Stream::Take => counts_fit(Rule::Take, durable),
        Stream::Skip => counts_fit(Rule::Skip, durable),
        Stream::Only => counts_fit(Rule::Only, durable),
        Stream::Number => counts_fit(Rule::Number, durable),
        Stream::Sink => true,
    }
}

/// The values of all variables of an Eject that starts from stored values, which have the kinds of the durable
/// variables: the working one begins anew.
pub fn native_restart(stream: Stream, durable: Items) -> Result<Items, AllocError>
    ensures { have_shapes durable (kinds_kept (natives.native_outline (native_of stream)).slots) ≡ true
        → IfOk result (λ vars. vars ≡ with_kept (natives.native_outline (native_of stream)).slots durable) }
{
    let mut values = durable.values;
    values.push(Value::Bool { b: true })?;
    Ok(Items { values })
}

/// The values to be stored.
pub fn native_durable(alloc: Global, stream: Stream, vars: &Items) -> Result<Items, AllocError>
    ensures { IfOk result (λ durable. durable ≡ only_kept (natives.native_outline (native_of stream)).slots vars.now) }
{
    let mut values = copy_items(alloc, vars)?.values;
    values.truncate(durable_count(stream));
    Ok(Items { values })
}
