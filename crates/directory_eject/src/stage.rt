//! What is left to do of an operation, and how one begins.
ghost use Rattle.std.specs.Prelude.{◌≡◌, IfOk};
ghost use Rattle.eden_value.specs.View.{datums};
ghost use Rattle.epl_syntax.specs.declared.types.Native.TheVariants as types;
ghost use Rattle.epl_syntax.specs.Natives.{first_stage};
ghost use Rattle.epl_syntax.specs.Simple.{argument, text_in, cap_in};
ghost use Rattle.directory_eject.specs.Stages.{stage_of};

use capability::Cap;
use eden_value::{Items, Txt, Value, texted};
use epl_syntax::is_called;
use std::alloc::{AllocError, Global};

/// What is left to do of an operation of a directory.
#[derive(Drop)]
pub enum Stage {
    /// It adds a name and a capability.
    Adds { name: Txt, held: Option<Cap> },
    /// It looks up a name.
    Looks { name: Txt },
    /// It takes a name away.
    Deletes { name: Txt },
    /// It returns the names.
    Tells,
    /// The operation returned, or the checkpoint of a change was asked for.
    Changed,
}

/// The text that stands at a place, the empty one where none does.
pub(crate) fn text_at(alloc: Global, values: &[Value], place: usize) -> Result<Txt, AllocError>
    ensures { IfOk result (λ text. text ≡ text_in (argument place (datums values.now))) }
{
    match values.get(place) {
        Some(Value::Text { text }) => text.share(),
        _ => texted(Vec::new(alloc)),
    }
}

/// The capability that stands at a place, the absent one where none does.
pub(crate) fn cap_at(values: &[Value], place: usize) -> Option<Cap>
    ensures { result ≡ cap_in (argument place (datums values.now)) }
{
    match values.get(place) {
        Some(Value::Cap { cap }) => *cap,
        _ => None,
    }
}

/// An operation begins. An argument that is no text, or no capability, where it takes one, is as an empty or the absent one.
pub fn native_begin(alloc: Global, operation: &Txt, args: &Items) -> Result<Stage, AllocError>
    ensures { IfOk result (λ stage. stage_of stage ≡ first_stage types.Directory operation.now args.now) }
{
    if is_called(operation, b"AddEntry") {
        let name = text_at(alloc, &args.values, 0)?;
        let held = cap_at(&args.values, 1);
        return Ok(Stage::Adds { name, held });
    }
    if is_called(operation, b"LookUp") {
        let name = text_at(alloc, &args.values, 0)?;
        return Ok(Stage::Looks { name });
    }
    if is_called(operation, b"DeleteEntry") {
        let name = text_at(alloc, &args.values, 0)?;
        return Ok(Stage::Deletes { name });
    }
    Ok(Stage::Tells)
}
