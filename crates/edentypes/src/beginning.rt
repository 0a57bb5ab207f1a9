//! How processes begin.
ghost use Rattle.std.specs.Prelude.{◌≡◌, ◌≤◌, IfOk, false, length, map, true};
ghost use Rattle.std.specs.List.{AllByRecursion};
ghost use Rattle.epl_syntax.specs.declared.types.Native.TheVariants as natives;
ghost use Rattle.epl_syntax.specs.Edentype.{native as native_type, declared as declared_type};
ghost use Rattle.epl_syntax.specs.Meaning as meaning;
ghost use Rattle.epl_syntax.specs.Rules.Limits.{IsWithinLimits};
ghost use Rattle.epl_syntax.specs.Tree.{type_tree};
ghost use Rattle.edentypes.specs.Fitting.{RestFits, is_directory_rest, is_directory_type};
ghost use Rattle.edentypes.specs.View.{kind_in, rest_of};

use crate::form::{Form, form_at};
use crate::native::stream_of;
use crate::{Kind, Rest, cell};
use eden_value::{Items, Txt};
use epl_syntax::{Native, Program, Types};
use std::alloc::{AllocError, Global};

/// What the declared processes of a declared type do.
fn declared_processes(alloc: Global, program: &Program) -> Result<Vec<Rest>, AllocError>
    requires { IsWithinLimits program.now }
    ensures begin { IfOk result (λ found. map (rest_of (declared_type (type_tree program.now))) found.items
        ≡ meaning.declared (declared_type (type_tree program.now))) }
    ensures few { IfOk result (λ found. length found.items ≤ 8) }
    ensures fit { IfOk result (λ found. AllByRecursion (λ r. is_directory_rest r ≡ false) found.items) }
{
    let mut left = epl_run::processes(alloc, program)?;
    let mut found = Vec::with_capacity(alloc, left.len())?;
    while let Some(rest) = left.pop() {
        let rest = Box::new(alloc, rest)?;
        found.insert(0, Rest::Declared { rest })?;
    }
    Ok(found)
}

/// What the declared processes do, in order. A type has at most 8.
pub fn processes(alloc: Global, types: &Types, kind: Kind) -> Result<Vec<Rest>, AllocError>
    ensures begin { IfOk result (λ found. map (rest_of (kind_in types.now kind)) found.items
        ≡ meaning.declared (kind_in types.now kind)) }
    ensures few { IfOk result (λ found. length found.items ≤ 8) }
    ensures fit { IfOk result (λ found. AllByRecursion (RestFits kind) found.items) }
{
    match form_at(types, kind) {
        Form::Native { .. } => Ok(Vec::new(alloc)),
        Form::Declared { program } => declared_processes(alloc, program),
    }
}

/// An operation of a Directory begins.
fn directory_begin(alloc: Global, operation: &Txt, args: &Items) -> Result<Rest, AllocError>
    ensures same { IfOk result (λ rest. rest_of (native_type natives.Directory) rest
        ≡ meaning.begin (native_type natives.Directory) operation.now args.now) }
    ensures fits { IfOk result (λ rest. is_directory_rest rest ≡ true) }
{
    let stage = directory_eject::native_begin(alloc, operation, args)?;
    Ok(Rest::Directory { stage })
}

/// An operation of a native type begins.
fn native_begin(
    alloc: Global,
    native: Native,
    operation: &Txt,
    args: &Items,
) -> Result<Rest, AllocError>
    ensures same { IfOk result (λ rest. rest_of (native_type native) rest ≡ meaning.begin (native_type native) operation.now args.now) }
    ensures fits { IfOk result (λ rest. is_directory_rest rest ≡ is_directory_type native) }
{
    match native {
        Native::Cell => Ok(Rest::Cell {
            stage: cell::begin(operation, args),
        }),
        Native::Directory => directory_begin(alloc, operation, args),
        _ => {
            let stage = transput::native_begin(alloc, stream_of(native), operation, args)?;
            Ok(Rest::Stream { stage })
        }
    }
}

/// An operation of a declared type begins.
fn declared_begin(
    alloc: Global,
    program: &Program,
    operation: &Txt,
    args: &Items,
) -> Result<Rest, AllocError>
    ensures same { IfOk result (λ rest. rest_of (declared_type (type_tree program.now)) rest
        ≡ meaning.begin (declared_type (type_tree program.now)) operation.now args.now) }
    ensures fits { IfOk result (λ rest. is_directory_rest rest ≡ false) }
{
    let rest = Box::new(alloc, epl_run::begin(alloc, program, operation, args)?)?;
    Ok(Rest::Declared { rest })
}

/// An operation begins, with arguments of the kinds that it takes.
pub fn begin(
    alloc: Global,
    types: &Types,
    kind: Kind,
    operation: &Txt,
    args: &Items,
) -> Result<Rest, AllocError>
    ensures same { IfOk result (λ rest. rest_of (kind_in types.now kind) rest
        ≡ meaning.begin (kind_in types.now kind) operation.now args.now) }
    ensures fits { IfOk result (RestFits kind) }
{
    match form_at(types, kind) {
        Form::Native { native } => native_begin(alloc, native, operation, args),
        Form::Declared { program } => declared_begin(alloc, program, operation, args),
    }
}
