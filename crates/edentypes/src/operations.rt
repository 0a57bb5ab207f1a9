//! The operations of a type, and whether a call fits.
ghost use Rattle.std.specs.Prelude.{◌≡◌, ◌≤◌, Err, length, map, option_copied};
ghost use Rattle.std.specs.List.{find, position_from};
ghost use Rattle.std.specs.Option.{option_map};
ghost use Rattle.capability.specs.Rights.{is_within};
ghost use Rattle.eden_model.specs.Map.{same_text, with_item};
ghost use Rattle.epl_syntax.specs.Edentype.{native as native_type, declared as declared_type};
ghost use Rattle.epl_syntax.specs.Edentype as edentype;
ghost use Rattle.epl_syntax.specs.Rules.Limits.{IsWithinLimits};
ghost use Rattle.epl_syntax.specs.Tree.{type_tree, operation};
ghost use Rattle.edentypes.specs.Forms.{operation_of};
ghost use Rattle.edentypes.specs.View.{kind_in, fit_in, fit_of, result_of};

use crate::Kind;
use crate::form::{Form, form_at};
use crate::kinds::have_kinds;
use crate::native::{Operation, operations_of};
use capability::{Cap, Rights};
use eden_value::{Items, Status, Txt};
use epl_syntax::{ClassDecl, Native, OpDecl, Program, Types, same_text};

/// The class of the operation that a call asks for, or what is wrong with the call.
#[derive(Clone, Copy, Debug)]
pub enum Fit {
    Fits { class: u8 },
    Misfits { status: Status },
}

/// Whether a text is these bytes.
pub(crate) fn is_called(name: &[u8], text: &Txt) -> bool
    ensures { result ≡ same_text name.now text.now }
{
    name == text.as_slice()
}

/// Whether all bits of `needs` are in the rights.
fn is_within(needs: u64, rights: Rights) -> bool
    ensures { result ≡ is_within (record { bits = needs }) rights }
{
    needs & u64::from(rights.bits) == needs
}

fn native_operation<'a>(operations: &'a [Operation], name: &Txt) -> Option<&'a Operation>
    ensures { option_map operation_of (option_copied result)
        ≡ find (λ o. same_text o.name name.now) (map operation_of operations.now) }
{
    for operation in operations {
        if is_called(operation.name, name) {
            return Some(operation);
        }
    }
    None
}

fn declared_operation<'a>(operations: &'a [OpDecl], name: &Txt) -> Option<&'a OpDecl>
    ensures { option_copied result ≡ find (λ o. same_text o.name.text name.now) operations.now }
{
    for operation in operations {
        if same_text(&operation.name.text, name) {
            return Some(operation);
        }
    }
    None
}

/// The place of a class among those of a type. It is 0 where there is none, which no type that keeps the rules has.
fn class_of(classes: &[ClassDecl], name: &Txt) -> usize
    ensures place { result ≡ with_item (position_from (λ c. same_text c.name.text name.now) 0 classes.now) (λ i. i) 0 }
    ensures within { result ≤ length classes.now }
{
    for (i, class) in classes.iter().enumerate() {
        if same_text(&class.name.text, name) {
            return i;
        }
    }
    0
}

fn native_fit(native: Native, rights: Rights, name: &Txt, args: &Items) -> Fit
    ensures { result_of result ≡ fit_in (native_type native) rights name.now args.now }
{
    match native_operation(operations_of(native), name) {
        None => misfit(Status::NoOperation),
        Some(found) if !is_within(u64::from(found.needs), rights) => misfit(Status::NoRight),
        Some(found) if !have_kinds(&args.values, found.params) => misfit(Status::BadArguments),
        Some(_) => Fit::Fits { class: 0 },
    }
}

/// Whether a call of an operation of a declared type fits.
fn operation_fit(classes: &[ClassDecl], asked: &OpDecl, rights: Rights, args: &Items) -> Fit
    requires { length classes.now ≤ 16 }
    ensures { result_of result ≡ fit_of rights args.now (edentype.declared_operation classes.now (operation asked.now)) }
{
    if !is_within(asked.needs.n, rights) {
        return misfit(Status::NoRight);
    }
    if !have_kinds(&args.values, &asked.params) {
        return misfit(Status::BadArguments);
    }
    let class = class_of(classes, &asked.class.text);
    Fit::Fits { class: class as u8 }
}

fn declared_fit(program: &Program, rights: Rights, name: &Txt, args: &Items) -> Fit
    requires { IsWithinLimits program.now }
    ensures { result_of result ≡ fit_in (declared_type (type_tree program.now)) rights name.now args.now }
{
    match declared_operation(&program.operations, name) {
        None => misfit(Status::NoOperation),
        Some(asked) => operation_fit(&program.classes, asked, rights, args),
    }
}

fn misfit(status: Status) -> Fit
    ensures { result_of result ≡ Err status }
{
    Fit::Misfits { status }
}

/// Whether a call of an operation fits.
pub fn fit_call(types: &Types, kind: Kind, target: Cap, operation: &Txt, args: &Items) -> Fit
    ensures { result_of result ≡ fit_in (kind_in types.now kind) target.rights operation.now args.now }
{
    match form_at(types, kind) {
        Form::Native { native } => native_fit(native, target.rights, operation, args),
        Form::Declared { program } => declared_fit(program, target.rights, operation, args),
    }
}
